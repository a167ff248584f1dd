//! A typed program, out of its parts.
ghost use Rattle.std.specs.Prelude.{◌≡◌, IfOk, false};
ghost use Rattle.ds2_elaboration.specs.ProgramTypes.{scope_of_declarations, unit_outputs};
ghost use Rattle.ds2_elaboration.specs.UnitsBefore.{UnitsBefore};
ghost use Rattle.ds2_instance_types.specs.TypedInstanceLists.{AreInstancesOf};
ghost use Rattle.ds2_names.specs.SourceUnit.{is_package, source_methods};
ghost use Rattle.ds2_program_types.specs.ProgramParts.{ArePartsOf, IsMadeOf, statement_read};
ghost use Rattle.ds2_program_types.specs.TypedMethodLists.{AreMethodsOf};
ghost use Rattle.ds2_program_types.specs.TypedPrograms.{IsProgramOf};
ghost use Rattle.ds2_program_types.specs.UnitsAtHand.{IsAtHand, columns_at_hand, names_at_hand, source_at_hand};

use crate::at_hand::UnitAtHand;
use crate::methods::TypedMethods;
use crate::unit_tables::vector_variables;
use ds2_base::{List, Name, OutOfMemory};
use ds2_declared_types::columns::columns_over;
use ds2_declared_types::variables::program_variables;
use ds2_instance_types::TypedInstances;
use ds2_meaning::{
    MentionedTable, OutputTable as TypedOutput, Program, Reading as TypedReading, Variable,
};
use ds2_scope::reading_of_run;
use ds2_unit_parts::outputs::unit_outputs;
use ds2_unit_parts::reading::read_statement;
use ds2_unit_parts::retained::retained;
use std::alloc::Global;

/// The parts of a typed program but for its instances and methods.
#[derive(Drop)]
pub struct ProgramParts {
    /// The declared variables.
    pub declared: List<Variable>,
    /// The columns of the reading statement that are not declared.
    pub columns: List<Variable>,
    pub retained: List<Name>,
    /// What is read where the program has `run`.
    pub reading: TypedReading,
    pub outputs: List<TypedOutput>,
}

/// A program of these parts, instances and methods.
fn program_of(parts: ProgramParts, typed: TypedInstances, methods: TypedMethods) -> Program
    ensures { IsMadeOf result parts typed methods }
{
    let ProgramParts {
        declared,
        columns,
        retained,
        reading,
        outputs,
    } = parts;
    let TypedInstances {
        instances,
        hashes,
        iterators,
        threads,
    } = typed;
    let TypedMethods {
        methods,
        init,
        run,
        term,
    } = methods;
    Program {
        declared,
        columns,
        retained,
        instances,
        hashes,
        iterators,
        threads,
        reading,
        outputs,
        methods,
        init,
        run,
        term,
    }
}

/// The outputs of a unit, over the variables of its vector.
fn program_outputs(
    alloc: Global,
    unit: UnitAtHand<'_, '_>,
) -> Result<List<TypedOutput>, OutOfMemory>
    ensures { (before : UnitsBefore) → IsAtHand before unit.entry
        → IfOk result (λ all. all ≡ unit_outputs (columns_at_hand unit.entry) before (source_at_hand unit.entry) (source_at_hand unit.entry).kind) }
{
    let vector = vector_variables(alloc, unit)?;
    let names = unit.names.variables.as_slice();
    unit_outputs(alloc, unit.unit, vector.as_slice(), names)
}

/// What a program with `run` reads, behind data programs that make these tables.
fn program_reading(
    alloc: Global,
    made: &[MentionedTable],
    unit: UnitAtHand<'_, '_>,
) -> Result<TypedReading, OutOfMemory>
    ensures { (before : UnitsBefore) → before.names.made ≡ made.now → IsAtHand before unit.entry
        → IfOk result (λ r. r ≡ statement_read (columns_at_hand unit.entry) before (source_at_hand unit.entry)) }
{
    let source = reading_of_run(alloc, unit.unit.globals)?;
    read_statement(alloc, unit.from.tables, made, unit.from.rows, source)
}

/// The parts of a typed program but for its instances and methods.
fn program_parts(
    alloc: Global,
    made: &[MentionedTable],
    unit: UnitAtHand<'_, '_>,
) -> Result<ProgramParts, OutOfMemory>
    ensures { (before : UnitsBefore) → before.names.made ≡ made.now → IsAtHand before unit.entry
        → IfOk result (ArePartsOf (columns_at_hand unit.entry) before (source_at_hand unit.entry)) }
{
    let outputs = program_outputs(alloc, unit)?;
    let read = columns_over(alloc, unit.from, unit.columns)?;
    let reading = program_reading(alloc, made, unit)?;
    let declared = program_variables(alloc, unit.unit.globals)?;
    let kept = retained(alloc, unit.unit.globals)?;
    Ok(ProgramParts {
        declared,
        columns: read,
        retained: kept,
        reading,
        outputs,
    })
}

/// A typed program of typed instances and methods.
pub fn with_parts(
    alloc: Global,
    made: &[MentionedTable],
    unit: UnitAtHand<'_, '_>,
    instances: TypedInstances,
    methods: TypedMethods,
) -> Result<Program, OutOfMemory>
    ensures { (before : UnitsBefore) → before.names.made ≡ made.now → IsAtHand before unit.entry → is_package (source_at_hand unit.entry).kind ≡ false
        → AreInstancesOf (columns_at_hand unit.entry) before (scope_of_declarations (columns_at_hand unit.entry) before (source_at_hand unit.entry)) (names_at_hand before unit.entry).instances instances
        → AreMethodsOf (columns_at_hand unit.entry) before (source_at_hand unit.entry) (source_methods (source_at_hand unit.entry).globals) methods
        → IfOk result (IsProgramOf (columns_at_hand unit.entry) before (source_at_hand unit.entry)) }
{
    let parts = program_parts(alloc, made, unit)?;
    Ok(program_of(parts, instances, methods))
}
