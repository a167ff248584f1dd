//! The units of a source that are typed so far.
ghost use Rattle.std.specs.Prelude.{◌≡◌, ◌∷◌, ◌++◌, [], List as Items, IfOk, map, reverse as reversed};
ghost use Rattle.ds2_tree.specs.Units.{SourcePart as PartTree, APackage, AThread, AData};
ghost use Rattle.ds2_tree.specs.UnitViews.{data_tree, package_tree, part_tree, source_tree, thread_tree};
ghost use Rattle.ds2_names.specs.SourceLimits.{before_all};
ghost use Rattle.ds2_names.specs.SourceUnit.{TableColumns};
ghost use Rattle.ds2_elaboration.specs.TypedPrograms.{StandsInSource};
ghost use Rattle.ds2_elaboration.specs.UnitsBefore.{UnitsBefore as UnitTypes};
ghost use Rattle.ds2_declared_types.specs.TypesKnown.{TellsTypes};
ghost use Rattle.ds2_resolve.specs.StandingBefore.{TellsOfUnits};
ghost use Rattle.ds2_compile.specs.TablesBehind.{HaveOutputSchemas, last_outputs, schema_of_output, mention_of_output};
ghost use Rattle.ds2_compile.specs.TypedSoFar.{BecomesOrStops, BecomesWithRest, StandsBehindSome};

use crate::outputs::{schemas_before, tables_before};
use crate::programs::TypedSource;
use crate::typed_units::{typed_package, typed_program, typed_thread};
use ds2_base::{List, OutOfMemory, Stop};
use ds2_declared_types::KnownTypes;
use ds2_elaboration::laws::{every_unit_is_typed, one_outcome};
use ds2_meaning::{MentionedTable, OutputTable, TypedData};
use ds2_names::NamedSchema;
use ds2_resolve::UnitsBefore;
use ds2_source::SourceRefusal;
use ds2_tree::{DataProgram, Package, Source, SourcePart, Thread};
use std::alloc::Global;

/// The units of a source that are typed so far, and what the next one is read by.
#[derive(Drop)]
pub(crate) struct TypedSoFar<'s> {
    /// What the names of the next unit may mean.
    pub(crate) before: UnitsBefore,
    /// The packages and thread programs with their types.
    pub(crate) known: KnownTypes<'s>,
    /// The tables that the data programs make, the last program's first.
    pub(crate) made: List<MentionedTable>,
    /// The tables that the next unit may read, with their columns: those that programs make, the last program's first, and then those of
    /// the store.
    pub(crate) tables: List<NamedSchema>,
    /// The data programs, in order.
    pub(crate) typed: List<TypedData>,
}

// The tables of the store once more.
fn copied(alloc: Global, tables: &[NamedSchema]) -> Result<List<NamedSchema>, OutOfMemory>
    ensures { IfOk result (λ copy. copy ≡ tables.now) }
{
    let mut copy = List::new(alloc);
    'tables: for table in tables {
        let name = table.name.copy(alloc)?;
        copy.push(NamedSchema {
            name,
            schema: table.schema.copy(alloc)?,
        })?;
    }
    Ok(copy)
}

// The outputs of the last program.
fn last_outputs(typed: &[TypedData]) -> &[OutputTable]
    ensures { result.now ≡ last_outputs typed.now }
{
    match typed {
        [.., last] => last.program.outputs.as_slice(),
        [] => &[],
    }
}

impl<'s> TypedSoFar<'s> {
    /// No unit, before a source that reads these tables of the store.
    pub(crate) fn new(
        alloc: Global,
        source: &Source,
        tables: &[NamedSchema],
    ) -> Result<TypedSoFar<'s>, OutOfMemory>
        ensures none { IfOk result (λ t. t.typed ≡ []) }
        ensures made { IfOk result (λ t. t.made ≡ []) }
        ensures tables { IfOk result (λ t. t.tables ≡ tables.now) }
        ensures before { IfOk result (λ t. TellsOfUnits t.before (before_all (source_tree source.now))) }
        ensures known { (units : UnitTypes) → units.packages ≡ [] → units.threads ≡ [] → IfOk result (λ t. TellsTypes t.known units) }
        ensures threads { IfOk result (λ t. t.known.threads ≡ []) }
    {
        let before = UnitsBefore::of_source(alloc, source);
        let tables = copied(alloc, tables)?;
        Ok(TypedSoFar {
            before,
            known: KnownTypes::new(alloc),
            made: List::new(alloc),
            tables,
            typed: List::new(alloc),
        })
    }

    // The tables of the last program, which those behind it may read.
    fn with_tables(self, alloc: Global) -> Result<TypedSoFar<'s>, OutOfMemory>
        requires { HaveOutputSchemas (last_outputs self.typed) }
        ensures before { IfOk result (λ t. t.before ≡ self.entry.before) }
        ensures known { IfOk result (λ t. t.known ≡ self.entry.known) }
        ensures made { IfOk result (λ t. t.made ≡ map (mention_of_output self.entry.before.count) (last_outputs self.entry.typed) ++ self.entry.made) }
        ensures tables { IfOk result (λ t. t.tables ≡ map schema_of_output (last_outputs self.entry.typed) ++ self.entry.tables) }
        ensures typed { IfOk result (λ t. t.typed ≡ self.entry.typed) }
    {
        let TypedSoFar {
            before,
            known,
            made,
            tables,
            typed,
        } = self;
        let outputs = last_outputs(typed.as_slice());
        let made = tables_before(alloc, before.count, outputs, made)?;
        let tables = schemas_before(alloc, outputs, tables)?;
        Ok(TypedSoFar {
            before,
            known,
            made,
            tables,
            typed,
        })
    }

    /// The programs, at the end of a source.
    pub(crate) fn ended(self) -> TypedSource
        ensures programs { result.programs ≡ self.entry.typed }
        ensures threads { result.threads ≡ reversed self.entry.known.threads }
    {
        let TypedSoFar { known, typed, .. } = self;
        let mut threads = known.threads.into_vec();
        threads.reverse();
        TypedSource {
            programs: typed,
            threads: List::of(threads),
        }
    }

    // The same behind one more data program, or its refusal.
    fn with_program(
        self,
        alloc: Global,
        program: &DataProgram,
    ) -> Result<TypedSoFar<'s>, Stop<SourceRefusal>>
        requires stands { StandsInSource (AData (data_tree program.now)) }
        requires behind { StandsBehindSome self }
        ensures leads { (tables : TableColumns) (parts rest : Items PartTree) → BecomesWithRest tables parts self.entry (AData (data_tree program.now) ∷ rest) → BecomesOrStops tables parts result rest }
        ensures behind { IfOk result StandsBehindSome }
    {
        one_outcome();
        every_unit_is_typed();
        let TypedSoFar {
            before,
            known,
            made,
            tables,
            typed,
        } = self;
        let mut names = before;
        let mut programs = typed;
        let own = typed_program(
            alloc,
            &mut names,
            &known,
            made.as_slice(),
            tables.as_slice(),
            program,
        )?;
        programs.push(own)?;
        let pushed = TypedSoFar {
            before: names,
            known,
            made,
            tables,
            typed: programs,
        };
        let next = pushed.with_tables(alloc)?;
        Ok(next)
    }

    // The same behind one more package, or its refusal.
    fn with_package(
        self,
        alloc: Global,
        unit: &'s Package,
    ) -> Result<TypedSoFar<'s>, Stop<SourceRefusal>>
        requires stands { StandsInSource (APackage (package_tree unit.now)) }
        requires behind { StandsBehindSome self }
        ensures leads { (tables : TableColumns) (parts rest : Items PartTree) → BecomesWithRest tables parts self.entry (APackage (package_tree unit.now) ∷ rest) → BecomesOrStops tables parts result rest }
        ensures behind { IfOk result StandsBehindSome }
    {
        one_outcome();
        every_unit_is_typed();
        let TypedSoFar {
            before,
            known,
            made,
            tables,
            typed,
        } = self;
        let mut names = before;
        let own = typed_package(
            alloc,
            &mut names,
            &known,
            made.as_slice(),
            tables.as_slice(),
            unit,
        )?;
        let all = known.with_package(alloc, unit, own)?;
        Ok(TypedSoFar {
            before: names,
            known: all,
            made,
            tables,
            typed,
        })
    }

    // The same behind one more thread program, or its refusal.
    fn with_thread(
        self,
        alloc: Global,
        unit: &Thread,
    ) -> Result<TypedSoFar<'s>, Stop<SourceRefusal>>
        requires stands { StandsInSource (AThread (thread_tree unit.now)) }
        requires behind { StandsBehindSome self }
        ensures leads { (tables : TableColumns) (parts rest : Items PartTree) → BecomesWithRest tables parts self.entry (AThread (thread_tree unit.now) ∷ rest) → BecomesOrStops tables parts result rest }
        ensures behind { IfOk result StandsBehindSome }
    {
        one_outcome();
        every_unit_is_typed();
        let TypedSoFar {
            before,
            known,
            made,
            tables,
            typed,
        } = self;
        let mut names = before;
        let own = typed_thread(
            alloc,
            &mut names,
            &known,
            made.as_slice(),
            tables.as_slice(),
            unit,
        )?;
        let all = known.with_thread(alloc, own)?;
        Ok(TypedSoFar {
            before: names,
            known: all,
            made,
            tables,
            typed,
        })
    }

    /// The same behind one more part of a source, or its refusal.
    pub(crate) fn with_part(
        self,
        alloc: Global,
        part: &'s SourcePart,
    ) -> Result<TypedSoFar<'s>, Stop<SourceRefusal>>
        requires stands { StandsInSource (part_tree part.now) }
        requires behind { StandsBehindSome self }
        ensures leads { (tables : TableColumns) (parts rest : Items PartTree) → BecomesWithRest tables parts self.entry (part_tree part.now ∷ rest) → BecomesOrStops tables parts result rest }
        ensures behind { IfOk result StandsBehindSome }
    {
        match part {
            SourcePart::Data(program) => self.with_program(alloc, program),
            SourcePart::Package(unit) => self.with_package(alloc, unit),
            SourcePart::Thread(unit) => self.with_thread(alloc, unit),
            SourcePart::Proc { .. } => Ok(self),
            SourcePart::Run { .. } => Ok(self),
            SourcePart::Quit { .. } => Ok(self),
        }
    }
}
