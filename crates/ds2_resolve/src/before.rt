//! What stands before a unit of a source, and the limits over a source.
ghost use Rattle.std.specs.Prelude.{◌≡◌, ◌-◌, ◌||◌, [], ℕ, length, drop, map, nat_eq, option_copied, if◌then◌else◌, IfOk, OnOk, List as Items};
ghost use Rattle.std.specs.Cmp.Lexicographic.{pointwise};
ghost use Rattle.std.specs.HashSet.{contains};
ghost use Rattle.ds2_tree.specs.UnitViews.{global_tree, package_tree, thread_tree, data_tree, source_tree};
ghost use Rattle.ds2_tree.specs.Units.{SourcePart, APackage, AThread, AData, source_spelling};
ghost use Rattle.ds2_meaning.specs.ProgramTree.{is_listed};
ghost use Rattle.ds2_names.specs.NameRules.{columns_left};
ghost use Rattle.ds2_names.specs.SourceLimits.{BeforeUnit, before_all, behind_part, beyond_source_limits, unit_place};
ghost use Rattle.ds2_names.specs.SourceUnit.{TableColumns, names_alone, names_of_unit, source_instances, unit_of_package, unit_of_thread, unit_of_data};
ghost use Rattle.ds2_names.specs.UnitRules.{places_of};
ghost use Rattle.ds2_scope.specs.CodeUnits.{unit_source, instances_in_source};
ghost use Rattle.ds2_scope.specs.Earliest.{earliest};
ghost use Rattle.ds2_resolve.specs.StandingBefore.{first_tables, count_of_kind, TellsOfUnits, behind_mentions};

use crate::chains::chain_length;
use crate::makers::{Makers, note_outputs};
use crate::store_mentions::{mention, stored_tables};
use crate::token_counts::count_tokens;
use ds2_base::{Bytes, List, OutOfMemory, Place};
use ds2_calls::KnownCalls;
use ds2_names::PlacedName;
use ds2_scope::{
    Instance, KnownThread, KnownUnits, NameSet, NameTable, Unit, UnitKind, earlier_of, one_more,
    spelled_name,
};
use ds2_token::Token;
use ds2_tree::{DataProgram, GlobalItem, OutputTable, Package, Source, Thread};
use std::alloc::Global;

/// What stands before a unit of a source.
#[derive(Drop)]
pub struct UnitsBefore {
    /// The packages and thread programs.
    pub known: KnownUnits,
    /// What calls on their instances may mean.
    pub calls: KnownCalls,
    /// How many data programs there are.
    pub count: u32,
    /// The tables that they make.
    pub makers: Makers,
    /// The tables of the store that are mentioned.
    pub mentioned: NameSet,
    /// How many further tables of the store may be mentioned.
    pub room: usize,
    /// The tokens of the source, those of its package counted once more for each instance.
    pub tokens: usize,
}

// The place of a unit's name; of a data program that of its first output.
fn unit_place(name: Option<&Token>, outputs: &[OutputTable]) -> Option<Place>
    ensures { result ≡ earliest (unit_place (option_copied name.entry) outputs.now) }
{
    match name {
        Some(name) => Some(name.place),
        None => match outputs {
            [] => None,
            [first, ..] => Some(first.table.place),
        },
    }
}

// The place of a unit, where a test does not hold.
fn unit_unless(holds: bool, unit: Unit<'_>) -> Option<Place>
    ensures { result ≡ earliest (if holds then [] else unit_place (unit_source unit.entry).name (unit_source unit.entry).outputs) }
{
    if holds {
        None
    } else {
        unit_place(unit.name, unit.outputs)
    }
}

// The earliest place of tables.
fn earliest_place(tables: &[PlacedName]) -> Option<Place>
    ensures { result ≡ earliest (places_of tables.now) }
{
    let mut found: Option<Place> = None;
    'tables: for table in tables {
        found = earlier_of(found, Some(table.place));
    }
    found
}

// The earliest place of tables beyond so many.
#[tactic(auto, using(std::proofs::lemmas::List::drop_all))]
fn beyond_room(room: usize, tables: &[PlacedName]) -> Option<Place>
    ensures { result ≡ earliest (places_of (drop room tables.now)) }
{
    if room < tables.len() {
        earliest_place(tables.split_at(room).1)
    } else {
        None
    }
}

// How many units of a kind stand before a unit.
fn count_of_kind(before: &UnitsBefore, kind: UnitKind) -> u32
    ensures { result ≡ count_of_kind before.now kind }
{
    match kind {
        UnitKind::Package => before.known.package_count,
        UnitKind::Thread => before.known.thread_count,
        UnitKind::Data => before.count,
    }
}

// Adds the tables of the store that a unit mentions, and gives the earliest one for which there is no room.
fn enter_tables(
    alloc: Global,
    before: &mut UnitsBefore,
    globals: &[GlobalItem],
) -> Result<Option<Place>, OutOfMemory>
    ensures known { OnOk result (before.new.known ≡ before.old.known) }
    ensures calls { OnOk result (before.new.calls ≡ before.old.calls) }
    ensures count { OnOk result (before.new.count ≡ before.old.count) }
    ensures makers { OnOk result (before.new.makers ≡ before.old.makers) }
    ensures tokens { OnOk result (before.new.tokens ≡ before.old.tokens) }
    ensures mentioned { OnOk result ((name : Items ℕ) → contains (pointwise nat_eq) before.new.mentioned name ≡ (is_listed (names_alone (first_tables before.old (map global_tree globals.now))) name || contains (pointwise nat_eq) before.old.mentioned name)) }
    ensures room { OnOk result (before.new.room ≡ before.old.room - length (first_tables before.old (map global_tree globals.now))) }
    ensures place { IfOk result (λ place. place ≡ earliest (places_of (drop before.old.room (first_tables before.old (map global_tree globals.now))))) }
{
    let stored = stored_tables(alloc, &before.makers, globals)?;
    let first = mention(alloc, &mut before.mentioned, stored.as_slice())?;
    let beyond = beyond_room(before.room, first.as_slice());
    before.room = before.room.saturating_sub(first.len());
    Ok(beyond)
}

/// Adds the mentions and the tokens of a unit with these instances. Gives the earliest place at which it passes a limit over the source: a
/// 65th unit of its kind, 1,000,000 tokens, and a 17th table of the store.
pub(crate) fn enter_unit(
    alloc: Global,
    before: &mut UnitsBefore,
    instances: &[Instance<'_>],
    unit: Unit<'_>,
) -> Result<Option<Place>, OutOfMemory>
    requires { instances_in_source instances.now ≡ source_instances (unit_source unit).globals }
    ensures place { IfOk result (λ place. (units : BeforeUnit) → TellsOfUnits before.old units → place ≡ earliest (beyond_source_limits units (unit_source unit.entry))) }
    ensures behind { OnOk result ((units : BeforeUnit) → TellsOfUnits before.old units → TellsOfUnits before.new (behind_mentions (unit_source unit.entry) units)) }
{
    let first = unit_unless(count_of_kind(before, unit.kind) < 64, unit);
    let counted = count_tokens(alloc, &before.known, before.tokens, instances)?;
    let tables = enter_tables(alloc, before, unit.globals)?;
    before.tokens = counted.behind;
    Ok(earlier_of(earlier_of(first, counted.beyond), tables))
}

impl UnitsBefore {
    // What stands before the first unit of a source with so many tokens.
    fn new(alloc: Global, tokens: usize) -> Self
        ensures { (parts : Items SourcePart) → tokens ≡ length (source_spelling parts) → TellsOfUnits result (before_all parts) }
    {
        UnitsBefore {
            known: KnownUnits::new(alloc),
            calls: KnownCalls::new(alloc),
            count: 0,
            makers: NameTable::new(alloc),
            mentioned: NameSet::new(alloc),
            room: 16,
            tokens,
        }
    }

    /// What stands before the first unit of a source.
    pub fn of_source(alloc: Global, source: &Source) -> Self
        ensures { TellsOfUnits result (before_all (source_tree source.now)) }
    {
        UnitsBefore::new(alloc, source.tokens)
    }

    /// Moves behind a data program whose mentions and tokens are there. Answers want of memory, too, beyond 2^32 - 1 programs.
    pub(crate) fn enter_data(
        &mut self,
        alloc: Global,
        program: &DataProgram,
    ) -> Result<(), OutOfMemory>
        ensures { OnOk result ((tables : TableColumns) (units : BeforeUnit) → TellsOfUnits self.old (behind_mentions (unit_of_data (data_tree program.now)) units) → TellsOfUnits self.new (behind_part tables (AData (data_tree program.now)) units)) }
    {
        let count = one_more(self.count)?;
        self.count = count;
        note_outputs(alloc, &mut self.makers, count, program.outputs.as_slice())?;
        Ok(())
    }

    /// Moves behind a package whose mentions and tokens are there. Answers want of memory, too, beyond 2^32 - 1 packages.
    pub(crate) fn enter_package(&mut self, alloc: Global, unit: &Package) -> Result<(), OutOfMemory>
        ensures { OnOk result ((tables : TableColumns) (units : BeforeUnit) → TellsOfUnits self.old (behind_mentions (unit_of_package (package_tree unit.now)) units) → TellsOfUnits self.new (behind_part tables (APackage (package_tree unit.now)) units)) }
    {
        let name = spelled_name(alloc, &unit.name)?;
        self.calls.add_package(alloc, unit)?;
        self.known.add_package(name, unit.tokens)?;
        Ok(())
    }

    /// Moves behind a thread program with these columns and instances whose mentions and tokens are there. Answers want of memory, too, beyond
    /// 2^32 - 1 thread programs.
    pub(crate) fn enter_thread(
        &mut self,
        alloc: Global,
        unit: &Thread,
        instances: &[Instance<'_>],
        columns: List<Bytes>,
    ) -> Result<(), OutOfMemory>
        requires { instances_in_source instances.now ≡ source_instances (thread_tree unit.now).globals }
        ensures { OnOk result ((tables : TableColumns) (units : BeforeUnit) → columns ≡ columns_left (names_of_unit tables units.known (unit_of_thread (thread_tree unit.now))) [] → TellsOfUnits self.old (behind_mentions (unit_of_thread (thread_tree unit.now)) units) → TellsOfUnits self.new (behind_part tables (AThread (thread_tree unit.now)) units)) }
    {
        let name = spelled_name(alloc, &unit.name)?;
        let chain = chain_length(alloc, &self.known, instances)?;
        self.calls.add_thread(alloc, unit)?;
        self.known.add_thread(name, KnownThread { columns, chain })?;
        Ok(())
    }
}
