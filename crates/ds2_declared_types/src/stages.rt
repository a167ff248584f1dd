//! The thread program that a unit reads from.
ghost use Rattle.std.specs.Prelude.{◌≡◌, ◌++◌, Some, IfOk, map, option_copied};
ghost use Rattle.std.specs.Option.{option_map};
ghost use Rattle.ds2_elaboration.specs.UnitsBefore.{UnitsBefore, thread_of_sort, thread_behind_instance, typed_stage, columns_of_one, typed_stage_columns};
ghost use Rattle.ds2_declared_types.specs.TypesKnown.{TellsTypes, column_read};
ghost use Rattle.ds2_meaning.specs.ProgramMeaning.{output_columns};
ghost use Rattle.ds2_meaning.specs.View.{typed_thread_program};
ghost use Rattle.ds2_scope.specs.CodeUnits.{instance_sort, instances_in_source};

use crate::known::KnownTypes;
use ds2_base::{List, OutOfMemory};
use ds2_meaning::{OutputColumn, OutputTable, Shared, TypedThread};
use ds2_scope::{Instance, InstanceSort, find_instance, spelled_name};
use ds2_token::Token;
use ds2_value::Column;
use std::alloc::Global;

/// The thread program that an instance is one of.
fn thread_of_sort<'k>(
    alloc: Global,
    known: &'k KnownTypes<'_>,
    sort: InstanceSort<'_>,
) -> Result<Option<&'k Shared<TypedThread>>, OutOfMemory>
    ensures { IfOk result (λ thread. (before : UnitsBefore) → TellsTypes known.now before → option_map typed_thread_program (option_copied thread) ≡ thread_of_sort before.threads (instance_sort sort.entry)) }
{
    match sort {
        InstanceSort::Package { .. } => Ok(None),
        InstanceSort::Hash { .. } => Ok(None),
        InstanceSort::Iterator(_) => Ok(None),
        InstanceSort::Thread(thread) => {
            let name = spelled_name(alloc, thread)?;
            Ok(known.thread_named(name.as_slice()))
        }
    }
}

/// The thread program that the instance of this name is one of.
fn behind_instance<'k>(
    alloc: Global,
    known: &'k KnownTypes<'_>,
    instances: &[Instance<'_>],
    stage: &Token,
) -> Result<Option<&'k Shared<TypedThread>>, OutOfMemory>
    ensures { IfOk result (λ thread. (before : UnitsBefore) → TellsTypes known.now before
        → option_map typed_thread_program (option_copied thread) ≡ thread_behind_instance before.threads (instances_in_source instances.now) stage.now) }
{
    let name = spelled_name(alloc, stage)?;
    match find_instance(alloc, instances, name.as_slice())? {
        None => Ok(None),
        Some(instance) => thread_of_sort(alloc, known, instance.sort),
    }
}

/// The thread program that a unit with these instances reads from, where it reads from the instance of a name.
pub fn stage_behind<'k>(
    alloc: Global,
    known: &'k KnownTypes<'_>,
    instances: &[Instance<'_>],
    stage: Option<&Token>,
) -> Result<Option<&'k Shared<TypedThread>>, OutOfMemory>
    ensures { IfOk result (λ thread. (before : UnitsBefore) → TellsTypes known.now before
        → option_map typed_thread_program (option_copied thread) ≡ typed_stage before.threads (instances_in_source instances.now) (option_copied stage.entry)) }
{
    match stage {
        None => Ok(None),
        Some(stage) => behind_instance(alloc, known, instances, stage),
    }
}

/// A column of an output as one that is read.
fn column_read(alloc: Global, c: &OutputColumn) -> Result<Column, OutOfMemory>
    ensures { IfOk result (λ column. column ≡ column_read c.now) }
{
    let name = c.name.copy(alloc)?;
    Ok(Column { name, ty: c.ty })
}

/// The columns of an output.
fn output_columns(alloc: Global, output: &OutputTable) -> Result<List<Column>, OutOfMemory>
    ensures { IfOk result (λ columns. columns ≡ output_columns output.now) }
{
    let mut columns: List<Column> = List::new(alloc);
    'listed: for c in output.columns.as_slice() {
        let own = column_read(alloc, c)?;
        columns.push(own)?;
    }
    Ok(columns)
}

/// The columns of the first of several outputs.
fn columns_of_one(alloc: Global, outputs: &[OutputTable]) -> Result<List<Column>, OutOfMemory>
    ensures { IfOk result (λ columns. columns ≡ columns_of_one outputs.now) }
{
    match outputs {
        [] => Ok(List::new(alloc)),
        [output, ..] => {
            let columns = output_columns(alloc, output)?;
            Ok(columns)
        }
    }
}

/// The columns of the rows of a thread program that is read from; none where there is none.
pub fn stage_columns(
    alloc: Global,
    stage: Option<&Shared<TypedThread>>,
) -> Result<List<Column>, OutOfMemory>
    ensures { IfOk result (λ columns. columns ≡ typed_stage_columns (option_map typed_thread_program (option_copied stage.entry))) }
{
    match stage {
        None => Ok(List::new(alloc)),
        Some(stage) => columns_of_one(alloc, stage.get().program.outputs.as_slice()),
    }
}
