//! DuplicateName, at the later name: what needs no columns.
ghost use Rattle.std.specs.Prelude.{◌≡◌, IfOk, map};
ghost use Rattle.ds2_tree.specs.UnitViews.{global_tree};
ghost use Rattle.ds2_names.specs.NameRules.{from_each, later_places, options_of, renamed_twice};
ghost use Rattle.ds2_names.specs.SourceUnit.{source_methods};
ghost use Rattle.ds2_scope.specs.Collected.{methods_in, method_name, output_table_name, repeated_locals, repeated_renamings};
ghost use Rattle.ds2_scope.specs.Earliest.{earlier_of, earliest};

use crate::collected::{local_names, method_names, output_names, renamed_names};
use crate::earliest::earlier_of;
use crate::repeated::earliest_later;
use ds2_base::{OutOfMemory, Place};
use ds2_tree::{GlobalItem, OutputOption, OutputOptions, OutputTable};
use std::alloc::Global;

/// The earliest of the later methods of two of one name.
pub fn repeated_method(alloc: Global, globals: &[GlobalItem]) -> Result<Option<Place>, OutOfMemory>
    ensures { IfOk result (λ place. place ≡ earliest (later_places (map method_name (source_methods (map global_tree globals.now))))) }
{
    let names = method_names(alloc, globals)?;
    earliest_later(alloc, names.as_slice())
}

// The earliest of the later parameters and locals of two of one name, where a part of a unit is a method.
fn repeated_local_in(alloc: Global, global: &GlobalItem) -> Result<Option<Place>, OutOfMemory>
    ensures { IfOk result (λ place. place ≡ earliest (from_each repeated_locals (methods_in (global_tree global.now)))) }
{
    match global {
        GlobalItem::Method(m) => {
            let names = local_names(alloc, m)?;
            earliest_later(alloc, names.as_slice())
        }
        GlobalItem::Listed { .. } => Ok(None),
        GlobalItem::Declaration(_) => Ok(None),
    }
}

/// The earliest of the later parameters and locals of two of one name in a method.
pub fn repeated_local(alloc: Global, globals: &[GlobalItem]) -> Result<Option<Place>, OutOfMemory>
    ensures { IfOk result (λ place. place ≡ earliest (from_each repeated_locals (source_methods (map global_tree globals.now)))) }
{
    let mut found: Option<Place> = None;
    'globals: for global in globals {
        found = earlier_of(found, repeated_local_in(alloc, global)?);
    }
    Ok(found)
}

/// The earliest of the later outputs of two of one name.
pub fn repeated_output(alloc: Global, outputs: &[OutputTable]) -> Result<Option<Place>, OutOfMemory>
    ensures { IfOk result (λ place. place ≡ earliest (later_places (map output_table_name outputs.now))) }
{
    let names = output_names(alloc, outputs)?;
    earliest_later(alloc, names.as_slice())
}

// The earliest second renaming of a column in one of these options.
fn repeated_renaming_in(
    alloc: Global,
    options: &[OutputOption],
) -> Result<Option<Place>, OutOfMemory>
    ensures { IfOk result (λ place. place ≡ earliest (from_each repeated_renamings options.now)) }
{
    let mut found: Option<Place> = None;
    'options: for option in options {
        let names = renamed_names(alloc, option)?;
        found = earlier_of(found, earliest_later(alloc, names.as_slice())?);
    }
    Ok(found)
}

// The earliest second renaming of a column in one option of an output.
fn renamed_twice(
    alloc: Global,
    options: &Option<OutputOptions>,
) -> Result<Option<Place>, OutOfMemory>
    ensures { IfOk result (λ place. place ≡ earliest (from_each repeated_renamings (options_of options.now))) }
{
    match options {
        None => Ok(None),
        Some(options) => repeated_renaming_in(alloc, options.list.as_slice()),
    }
}

/// The earliest second renaming of a column in one option of one of these outputs.
pub fn repeated_renaming(
    alloc: Global,
    outputs: &[OutputTable],
) -> Result<Option<Place>, OutOfMemory>
    ensures { IfOk result (λ place. place ≡ earliest (from_each renamed_twice outputs.now)) }
{
    let mut found: Option<Place> = None;
    'outputs: for o in outputs {
        found = earlier_of(found, renamed_twice(alloc, &o.options)?);
    }
    Ok(found)
}
