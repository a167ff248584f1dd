//! What a package, a thread program or a data program becomes: a typed unit, or the refusal of its types.
ghost use Rattle.std.specs.Prelude.{◌≡◌, IfOk, Some};
ghost use Rattle.std.specs.Option.{option_map};
ghost use Rattle.ds2_elaboration.specs.ProgramTypes.{broken_type_rules};
ghost use Rattle.ds2_elaboration.specs.SourceTypes.{unit_names};
ghost use Rattle.ds2_elaboration.specs.UnitsBefore.{UnitsBefore};
ghost use Rattle.ds2_declared_types.specs.TypesKnown.{TellsTypes};
ghost use Rattle.ds2_meaning.specs.View.{over_stage, typed_thread_program, unit_tree, unshared};
ghost use Rattle.ds2_meaning.specs.declared.units.TypedThread.{out-TypedThread};
ghost use Rattle.ds2_names.specs.SourceUnit.{TableColumns, columns_stored, unit_of_data, unit_of_package, unit_of_thread};
ghost use Rattle.ds2_program_types.specs.ThreadHeads.{IsHeadOf};
ghost use Rattle.ds2_program_types.specs.TypedPrograms.{IsStagedProgram, IsTypedData, IsTypedPackage, IsTypedThread};
ghost use Rattle.ds2_scope.specs.UnitNames.{NamesAre};
ghost use Rattle.ds2_tree.specs.UnitViews.{data_tree, package_tree, thread_tree};
ghost use Rattle.ds2_tree.specs.Units.{Thread as ThreadSource};
ghost use Rattle.ds2_types.specs.Judgements.{IsOutcome};

use crate::at_hand::{at_hand, unit_reading};
use crate::packages::typed_package;
use crate::programs::staged_program;
use ds2_base::{List, Name, OutOfMemory, Refusal};
use ds2_declared_types::KnownTypes;
use ds2_declared_types::names::name;
use ds2_declared_types::variables::parameter_variables;
use ds2_meaning::{
    MentionedTable, Program, Shared, TypeKind, TypedData, TypedPackage, TypedThread, Variable,
};
use ds2_names::NamedSchema;
use ds2_scope::{UnitNames, unit_of_data, unit_of_package, unit_of_thread};
use ds2_tree::{DataProgram, Package, Thread};
use std::alloc::Global;
use std::sync::Arc;

/// A typed data program, or the refusal of its types.
pub type CheckOutcome = Result<TypedData, Refusal<TypeKind>>;

/// What a data program of these names becomes, over the tables of the store, behind data programs that make these tables and behind packages
/// and thread programs that are known: a typed program, or the refusal of its types.
pub fn check(
    alloc: Global,
    tables: &[NamedSchema],
    made: &[MentionedTable],
    names: &UnitNames,
    known: &KnownTypes<'_>,
    program: &DataProgram,
) -> Result<CheckOutcome, OutOfMemory>
    ensures { (before : UnitsBefore) → before.names.made ≡ made.now → TellsTypes known.now before → NamesAre names.now (unit_names (columns_stored tables.now) before (unit_of_data (data_tree program.now)))
        → IfOk result (IsOutcome (IsTypedData (columns_stored tables.now) before (unit_of_data (data_tree program.now))) (broken_type_rules (columns_stored tables.now) before (unit_of_data (data_tree program.now)))) }
{
    let unit = unit_of_data(program);
    let typed = staged_program(alloc, tables, made, names, known, unit)?;
    Ok(typed)
}

/// What is read from, as a thread program holds it.
fn arc_of(stage: Option<Shared<TypedThread>>) -> Option<Arc<TypedThread, Global>>
    ensures { unshared result ≡ stage }
{
    match stage {
        None => None,
        Some(stage) => Some(stage.into_arc()),
    }
}

/// The name and the parameters of a thread program.
#[derive(Drop)]
pub struct ThreadHead {
    pub name: Name,
    pub parameters: List<Variable>,
}

/// The name and the parameters of a thread program.
fn head_of(alloc: Global, unit: &Thread) -> Result<ThreadHead, OutOfMemory>
    ensures { IfOk result (IsHeadOf (thread_tree unit.now)) }
{
    let own = unit_of_thread(unit);
    let name = name(alloc, &unit.name)?;
    let parameters = parameter_variables(alloc, own.parameters)?;
    Ok(ThreadHead { name, parameters })
}

/// A thread program of these parts.
fn with_head(
    head: ThreadHead,
    program: Program,
    stage: Option<Arc<TypedThread, Global>>,
) -> TypedThread
    ensures tree { typed_thread_program result ≡ over_stage (unit_tree (Some head.name) head.parameters program) (option_map typed_thread_program (unshared stage)) }
    ensures program { (out-TypedThread result).program ≡ program }
{
    TypedThread {
        name: head.name,
        parameters: head.parameters,
        program,
        stage,
    }
}

/// A thread program of what it becomes without its name and its parameters.
fn thread_of(head: ThreadHead, typed: TypedData) -> TypedThread
    ensures { (tables : TableColumns) (before : UnitsBefore) (t : ThreadSource) → IsHeadOf t head → IsStagedProgram tables before (unit_of_thread t) typed
        → IsTypedThread tables before (unit_of_thread t) result }
{
    let TypedData { program, stage } = typed;
    let stage = arc_of(stage);
    with_head(head, program, stage)
}

/// What a thread program of these names becomes, as [`check`] says of a data program.
pub fn check_thread(
    alloc: Global,
    tables: &[NamedSchema],
    made: &[MentionedTable],
    names: &UnitNames,
    known: &KnownTypes<'_>,
    unit: &Thread,
) -> Result<Result<TypedThread, Refusal<TypeKind>>, OutOfMemory>
    ensures { (before : UnitsBefore) → before.names.made ≡ made.now → TellsTypes known.now before → NamesAre names.now (unit_names (columns_stored tables.now) before (unit_of_thread (thread_tree unit.now)))
        → IfOk result (IsOutcome (IsTypedThread (columns_stored tables.now) before (unit_of_thread (thread_tree unit.now))) (broken_type_rules (columns_stored tables.now) before (unit_of_thread (thread_tree unit.now)))) }
{
    let own = unit_of_thread(unit);
    let typed = staged_program(alloc, tables, made, names, known, own)?;
    match typed {
        Err(refusal) => Ok(Err(refusal)),
        Ok(program) => {
            let head = head_of(alloc, unit)?;
            let thread = thread_of(head, program);
            Ok(Ok(thread))
        }
    }
}

/// What a package of these names becomes, as [`check`] says of a data program.
pub fn check_package(
    alloc: Global,
    tables: &[NamedSchema],
    made: &[MentionedTable],
    names: &UnitNames,
    known: &KnownTypes<'_>,
    unit: &Package,
) -> Result<Result<TypedPackage, Refusal<TypeKind>>, OutOfMemory>
    ensures { (before : UnitsBefore) → before.names.made ≡ made.now → TellsTypes known.now before → NamesAre names.now (unit_names (columns_stored tables.now) before (unit_of_package (package_tree unit.now)))
        → IfOk result (IsOutcome (IsTypedPackage (columns_stored tables.now) before unit.now) (broken_type_rules (columns_stored tables.now) before (unit_of_package (package_tree unit.now)))) }
{
    let own = unit_of_package(unit);
    let read = unit_reading(alloc, tables, known, own)?;
    let hand = at_hand(tables, names, own, &read);
    let typed = typed_package(alloc, made, known, hand, unit)?;
    Ok(typed)
}
