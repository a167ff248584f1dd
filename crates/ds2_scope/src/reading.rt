//! The reading statement of a unit.
ghost use Rattle.std.specs.Prelude.{◌≡◌, ◌++◌, [], IfOk, OnOk, map, option_copied};
ghost use Rattle.ds2_tree.specs.UnitViews.{global_tree};
ghost use Rattle.ds2_names.specs.SourceUnit.{placed_name, source_methods, reading_of_run, reads_thread, reading_of_tables, tables_of_reading, by_list, bys_of_reading, flag_names, stage_token};
ghost use Rattle.ds2_scope.specs.Collected.{by_name, flags_in};

use crate::names::{placed_name, spelled_name};
use ds2_base::{List, OutOfMemory};
use ds2_names::PlacedName;
use ds2_token::Token;
use ds2_tree::{By, ByVariable, GlobalItem, Input, Reading};
use std::alloc::Global;

/// The reading statement of `run`, where it has one.
pub fn reading_of_run<'t>(
    alloc: Global,
    globals: &'t [GlobalItem],
) -> Result<Option<&'t Reading>, OutOfMemory>
    ensures { IfOk result (λ reading. option_copied reading ≡ reading_of_run (source_methods (map global_tree globals.now))) }
{
    'globals: for global in globals {
        if let GlobalItem::Method(m) = global {
            let name = spelled_name(alloc, &m.name)?;
            if name.as_slice() == b"run".as_slice() {
                return Ok(m.reading.as_ref());
            }
        }
    }
    Ok(None)
}

/// Whether a reading statement reads from a thread program.
pub fn reads_thread(reading: &Reading) -> bool
    ensures { result ≡ reads_thread reading.now }
{
    match reading {
        Reading::Set { .. } => false,
        Reading::SetFrom { .. } => true,
        Reading::Merge { .. } => false,
    }
}

/// A reading statement that reads tables.
pub(crate) fn reading_of_tables(reading: Option<&Reading>) -> Option<&Reading>
    ensures { option_copied result ≡ reading_of_tables (option_copied reading.entry) }
{
    match reading {
        None => None,
        Some(reading) => {
            if reads_thread(reading) {
                None
            } else {
                Some(reading)
            }
        }
    }
}

/// The tables of a reading statement.
pub fn tables_of(reading: Option<&Reading>) -> &[Input]
    ensures { result.now ≡ tables_of_reading (option_copied reading.entry) }
{
    match reading {
        None => &[],
        Some(reading) => match reading {
            Reading::Set { inputs, .. } => inputs.as_slice(),
            Reading::SetFrom { .. } => &[],
            Reading::Merge { inputs, .. } => inputs.as_slice(),
        },
    }
}

/// The name of the instance behind `set from`.
pub fn stage_of(reading: Option<&Reading>) -> Option<&Token>
    ensures { option_copied result ≡ stage_token (option_copied reading.entry) }
{
    match reading {
        None => None,
        Some(reading) => match reading {
            Reading::Set { .. } => None,
            Reading::SetFrom { instance, .. } => Some(instance),
            Reading::Merge { .. } => None,
        },
    }
}

// The variables of a `by`, where there is one.
fn by_variables(by: &Option<By>) -> &[ByVariable]
    ensures { result.now ≡ by_list by.now }
{
    match by {
        None => &[],
        Some(by) => by.variables.as_slice(),
    }
}

/// The BY variables of a reading statement.
pub fn bys_of(reading: Option<&Reading>) -> &[ByVariable]
    ensures { result.now ≡ bys_of_reading (option_copied reading.entry) }
{
    match reading {
        None => &[],
        Some(reading) => match reading {
            Reading::Set { by, .. } => by_variables(by),
            Reading::SetFrom { .. } => &[],
            Reading::Merge { by, .. } => by.variables.as_slice(),
        },
    }
}

/// The names of BY variables.
pub fn by_names(alloc: Global, bys: &[ByVariable]) -> Result<List<PlacedName>, OutOfMemory>
    ensures { IfOk result (λ names. names ≡ map by_name bys.now) }
{
    let mut names: List<PlacedName> = List::new(alloc);
    'bys: for b in bys {
        names.push(placed_name(alloc, &b.name)?)?;
    }
    Ok(names)
}

// Adds the flag of a table, where it has one.
fn push_flag(alloc: Global, names: &mut List<PlacedName>, input: &Input) -> Result<(), OutOfMemory>
    ensures { OnOk result (names.new ≡ names.old ++ flags_in input.now) }
{
    match &input.flag {
        None => Ok(()),
        Some(flag) => names.push(placed_name(alloc, &flag.name)?),
    }
}

/// Adds the flags of tables.
pub fn push_flags(
    alloc: Global,
    names: &mut List<PlacedName>,
    inputs: &[Input],
) -> Result<(), OutOfMemory>
    ensures { OnOk result (names.new ≡ names.old ++ flag_names inputs.now) }
{
    'inputs: for input in inputs {
        push_flag(alloc, names, input)?;
    }
    Ok(())
}
