//! The names of a unit in lists.
ghost use Rattle.std.specs.Prelude.{◌≡◌, ◌++◌, IfOk, OnOk, List as Items, Some, option_copied};
ghost use Rattle.std.specs.Option.{option_map};
ghost use Rattle.ds2_tree.specs.UnitViews.{data_tree};
ghost use Rattle.ds2_names.specs.SourceUnit.{KnownUnit, flag_names, columns_stored, names_alone, names_of_source, names_of_unit, source_instances, thread_of_instance, stage_read, columns_of_stage, instance_named, reading_by_kind};
ghost use Rattle.ds2_scope.specs.CodeUnits.{unit_kind, unit_source, source_instance, instances_in_source};
ghost use Rattle.ds2_scope.specs.UnitNames.{NamesAre, reading_in_unit, is_stage_open};
ghost use Rattle.ds2_scope.specs.UnitsKnown.{KnowsUnits, kept_thread};

use crate::collected::{declared_names, output_names, parameter_names};
use crate::columns::{add_columns, add_stage_columns};
use crate::instances::{Instance, InstanceSort, instance_names, instances_of};
use crate::known::{KnownThread, KnownUnits};
use crate::names::spelled_name;
use crate::reading::{
    by_names, bys_of, push_flags, reading_of_run, reading_of_tables, stage_of, tables_of,
};
use crate::unit::{Unit, UnitKind, unit_of_data};
use ds2_base::{List, OutOfMemory};
use ds2_names::{NamedSchema, PlacedName};
use ds2_token::Token;
use ds2_tree::{DataProgram, Input, Reading};
use std::alloc::Global;

/// What a unit gives names to.
#[derive(Drop)]
pub struct UnitNames {
    /// Declared variables, and columns of the reading statement that are not declared.
    pub variables: List<PlacedName>,
    /// The parameters of a thread program.
    pub parameters: List<PlacedName>,
    /// The `in=` flags.
    pub flags: List<PlacedName>,
    /// The BY variables.
    pub bys: List<PlacedName>,
    /// The outputs, `_null_` among them.
    pub outputs: List<PlacedName>,
    /// The instances of packages, hash objects, iterators and thread programs.
    pub instances: List<PlacedName>,
    /// Whether the columns are not known, so that a name that is not there may be one.
    pub is_open: bool,
}

// The reading statement that gives a unit of a kind names: none in a package, and none that reads from a thread program in a thread program.
fn reading_by_kind(kind: UnitKind, reading: Option<&Reading>) -> Option<&Reading>
    ensures { option_copied result ≡ reading_by_kind (unit_kind kind) (option_copied reading.entry) }
{
    match kind {
        UnitKind::Package => None,
        UnitKind::Thread => reading_of_tables(reading),
        UnitKind::Data => reading,
    }
}

/// The reading statement of `run` that gives a unit names: a package has none, and a thread program none that reads from a thread program.
pub fn reading_of_unit<'t>(
    alloc: Global,
    unit: Unit<'t>,
) -> Result<Option<&'t Reading>, OutOfMemory>
    ensures { IfOk result (λ reading. option_copied reading ≡ reading_in_unit (unit_source unit.entry)) }
{
    let reading = reading_of_run(alloc, unit.globals)?;
    Ok(reading_by_kind(unit.kind, reading))
}

/// The first instance of this name, where there is one.
pub fn find_instance<'i, 't>(
    alloc: Global,
    instances: &'i [Instance<'t>],
    name: &[u8],
) -> Result<Option<&'i Instance<'t>>, OutOfMemory>
    ensures { IfOk result (λ found. option_map source_instance (option_copied found) ≡ instance_named (instances_in_source instances.now) name.now) }
{
    'instances: for instance in instances {
        let own = spelled_name(alloc, instance.name)?;
        if own.as_slice() == name {
            return Ok(Some(instance));
        }
    }
    Ok(None)
}

/// The thread program that an instance is one of, where it is one of a known one.
pub fn thread_of<'k>(
    alloc: Global,
    known: &'k KnownUnits,
    instance: &Instance<'_>,
) -> Result<Option<&'k KnownThread>, OutOfMemory>
    ensures { IfOk result (λ thread. (units : Items KnownUnit) → KnowsUnits known.now units → option_copied thread ≡ option_map kept_thread (thread_of_instance units (Some (source_instance instance.now)))) }
{
    match instance.sort {
        InstanceSort::Package { .. } => Ok(None),
        InstanceSort::Hash { .. } => Ok(None),
        InstanceSort::Iterator(_) => Ok(None),
        InstanceSort::Thread(thread) => {
            let name = spelled_name(alloc, thread)?;
            Ok(known.thread(&name))
        }
    }
}

// The thread program that a reading statement reads from by the instance of this name, where it is known.
fn stage_read<'k>(
    alloc: Global,
    known: &'k KnownUnits,
    instances: &[Instance<'_>],
    stage: &Token,
) -> Result<Option<&'k KnownThread>, OutOfMemory>
    ensures { IfOk result (λ thread. (units : Items KnownUnit) → KnowsUnits known.now units → option_copied thread ≡ option_map kept_thread (stage_read units (instances_in_source instances.now) (Some stage.now))) }
{
    let name = spelled_name(alloc, stage)?;
    match find_instance(alloc, instances, name.as_slice())? {
        None => Ok(None),
        Some(instance) => thread_of(alloc, known, instance),
    }
}

// Adds the columns of a thread program that `set from` reads and that are not among these names; whether the columns are not known.
fn add_stage(
    alloc: Global,
    names: &mut List<PlacedName>,
    known: &KnownUnits,
    instances: &[Instance<'_>],
    stage: Option<&Token>,
) -> Result<bool, OutOfMemory>
    ensures names { OnOk result ((units : Items KnownUnit) → KnowsUnits known.now units → names.new ≡ names.old ++ columns_of_stage units (instances_in_source instances.now) (names_alone names.old) (option_copied stage.entry)) }
    ensures open { IfOk result (λ is_open. (units : Items KnownUnit) → KnowsUnits known.now units → is_open ≡ is_stage_open units (instances_in_source instances.now) (option_copied stage.entry)) }
{
    match stage {
        None => Ok(false),
        Some(stage) => match stage_read(alloc, known, instances, stage)? {
            None => Ok(true),
            Some(thread) => {
                add_stage_columns(alloc, names, thread.columns.as_slice(), stage.place)?;
                Ok(false)
            }
        },
    }
}

// The flags of tables.
fn flag_names(alloc: Global, inputs: &[Input]) -> Result<List<PlacedName>, OutOfMemory>
    ensures { IfOk result (λ names. names ≡ flag_names inputs.now) }
{
    let mut names: List<PlacedName> = List::new(alloc);
    push_flags(alloc, &mut names, inputs)?;
    Ok(names)
}

/// The names of a unit with these instances, over tables and behind the units that are known.
pub fn names_of_unit(
    alloc: Global,
    tables: &[NamedSchema],
    known: &KnownUnits,
    instances: &[Instance<'_>],
    unit: Unit<'_>,
) -> Result<UnitNames, OutOfMemory>
    requires { instances_in_source instances.now ≡ source_instances (unit_source unit).globals }
    ensures { IfOk result (λ n. (units : Items KnownUnit) → KnowsUnits known.now units → NamesAre n (names_of_unit (columns_stored tables.now) units (unit_source unit.entry))) }
{
    let reading = reading_of_unit(alloc, unit)?;
    let mut variables = declared_names(alloc, unit.globals)?;
    add_columns(alloc, &mut variables, tables, tables_of(reading))?;
    let is_open = add_stage(alloc, &mut variables, known, instances, stage_of(reading))?;
    let parameters = parameter_names(alloc, unit.parameters)?;
    let flags = flag_names(alloc, tables_of(reading))?;
    let bys = by_names(alloc, bys_of(reading))?;
    let outputs = output_names(alloc, unit.outputs)?;
    let instances = instance_names(alloc, instances)?;
    Ok(UnitNames {
        variables,
        parameters,
        flags,
        bys,
        outputs,
        instances,
        is_open,
    })
}

/// The names of a data program over tables, behind no other unit.
pub fn names_of_program(
    alloc: Global,
    tables: &[NamedSchema],
    program: &DataProgram,
) -> Result<UnitNames, OutOfMemory>
    ensures { IfOk result (λ n. NamesAre n (names_of_source (columns_stored tables.now) (data_tree program.now))) }
{
    let known = KnownUnits::new(alloc);
    let unit = unit_of_data(program);
    let instances = instances_of(alloc, unit.globals)?;
    let names = names_of_unit(alloc, tables, &known, instances.as_slice(), unit)?;
    Ok(names)
}
