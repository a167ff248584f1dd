//! Names that a unit lists, its BY variables, and the instance behind `set from`: those that are not there.
ghost use Rattle.std.specs.Prelude.{◌≡◌, IfOk, map, option_copied};
ghost use Rattle.ds2_tree.specs.UnitViews.{global_tree};
ghost use Rattle.ds2_names.specs.NameRules.{from_each, options_of};
ghost use Rattle.ds2_names.specs.SourceUnit.{columns_stored};
ghost use Rattle.ds2_scope.specs.Earliest.{earliest};
ghost use Rattle.ds2_name_uses.specs.ListedParts.{unknown_global, unknown_globals, unknown_in_lists, unknown_in_option, unknown_in_output, lacking_column, lacking_by, is_stage_sort, unknown_stage_by};
ghost use Rattle.ds2_scope.specs.NameSets.{HasNames, column_names};
ghost use Rattle.ds2_name_uses.specs.ScopeTables.{tests_by};

use crate::scope::Scope;
use ds2_base::{Bytes, OutOfMemory, Place};
use ds2_calls::Sort;
use ds2_names::{NamedSchema, PlacedName};
use ds2_scope::{NameSet, column_set, columns_of, earlier_of, place_unless, spelled_name};
use ds2_token::Token;
use ds2_tree::{GlobalItem, Input, OutputOption, OutputOptions, OutputTable, Renaming};
use ds2_value::Column;
use std::alloc::Global;

// The place of a name that is no global.
fn unless_global(
    alloc: Global,
    scope: &Scope<'_, '_, '_>,
    name: &Token,
) -> Result<Option<Place>, OutOfMemory>
    ensures { IfOk result (λ place. place ≡ earliest (unknown_global (tests_by scope.now) name.now)) }
{
    let spelled = spelled_name(alloc, name)?;
    Ok(place_unless(scope.is_global_there(&spelled), name.place))
}

// The earliest of names that is no global.
fn in_tokens(
    alloc: Global,
    scope: &Scope<'_, '_, '_>,
    names: &[Token],
) -> Result<Option<Place>, OutOfMemory>
    ensures { IfOk result (λ place. place ≡ earliest (unknown_globals (tests_by scope.now) names.now)) }
{
    let mut found: Option<Place> = None;
    'names: for name in names {
        found = earlier_of(found, unless_global(alloc, scope, name)?);
    }
    Ok(found)
}

// The earliest old name that is no global.
fn in_renamings(
    alloc: Global,
    scope: &Scope<'_, '_, '_>,
    renamings: &[Renaming],
) -> Result<Option<Place>, OutOfMemory>
    ensures { IfOk result (λ place. place ≡ earliest (unknown_globals (tests_by scope.now) (map (λ r. r.old) renamings.now))) }
{
    let mut found: Option<Place> = None;
    'renamings: for r in renamings {
        found = earlier_of(found, unless_global(alloc, scope, &r.old)?);
    }
    Ok(found)
}

// The earliest name that a part of a unit lists and that is no global.
fn in_global(
    alloc: Global,
    scope: &Scope<'_, '_, '_>,
    global: &GlobalItem,
) -> Result<Option<Place>, OutOfMemory>
    ensures { IfOk result (λ place. place ≡ earliest (unknown_in_lists (tests_by scope.now) (global_tree global.now))) }
{
    match global {
        GlobalItem::Listed { names, .. } => in_tokens(alloc, scope, names.as_slice()),
        GlobalItem::Declaration(_) => Ok(None),
        GlobalItem::Method(_) => Ok(None),
    }
}

/// The earliest name that a statement of a unit lists and that is no global.
pub(crate) fn in_statements_of(
    alloc: Global,
    scope: &Scope<'_, '_, '_>,
    globals: &[GlobalItem],
) -> Result<Option<Place>, OutOfMemory>
    ensures { IfOk result (λ place. place ≡ earliest (from_each (unknown_in_lists (tests_by scope.now)) (map global_tree globals.now))) }
{
    let mut found: Option<Place> = None;
    'globals: for global in globals {
        found = earlier_of(found, in_global(alloc, scope, global)?);
    }
    Ok(found)
}

// The earliest name in an option that is no global.
fn in_option(
    alloc: Global,
    scope: &Scope<'_, '_, '_>,
    option: &OutputOption,
) -> Result<Option<Place>, OutOfMemory>
    ensures { IfOk result (λ place. place ≡ earliest (unknown_in_option (tests_by scope.now) option.now)) }
{
    match option {
        OutputOption::Listed { names, .. } => in_tokens(alloc, scope, names.as_slice()),
        OutputOption::Overwrite { .. } => Ok(None),
        OutputOption::Rename { renamings, .. } => {
            in_renamings(alloc, scope, renamings.as_slice())
        }
    }
}

// The earliest one in several options.
fn in_options(
    alloc: Global,
    scope: &Scope<'_, '_, '_>,
    options: &[OutputOption],
) -> Result<Option<Place>, OutOfMemory>
    ensures { IfOk result (λ place. place ≡ earliest (from_each (unknown_in_option (tests_by scope.now)) options.now)) }
{
    let mut found: Option<Place> = None;
    'options: for option in options {
        found = earlier_of(found, in_option(alloc, scope, option)?);
    }
    Ok(found)
}

// The earliest one in the options of an output, where it has some.
fn in_output(
    alloc: Global,
    scope: &Scope<'_, '_, '_>,
    options: &Option<OutputOptions>,
) -> Result<Option<Place>, OutOfMemory>
    ensures { IfOk result (λ place. place ≡ earliest (from_each (unknown_in_option (tests_by scope.now)) (options_of options.now))) }
{
    match options {
        None => Ok(None),
        Some(options) => in_options(alloc, scope, options.list.as_slice()),
    }
}

/// The earliest name in the options of outputs that is no global.
pub(crate) fn in_outputs(
    alloc: Global,
    scope: &Scope<'_, '_, '_>,
    outputs: &[OutputTable],
) -> Result<Option<Place>, OutOfMemory>
    ensures { IfOk result (λ place. place ≡ earliest (from_each (unknown_in_output (tests_by scope.now)) outputs.now)) }
{
    let mut found: Option<Place> = None;
    'outputs: for o in outputs {
        found = earlier_of(found, in_output(alloc, scope, &o.options)?);
    }
    Ok(found)
}

// The earliest BY variable that is no column of a table with these columns.
fn lacking(set: &NameSet, columns: &[Column], bys: &[PlacedName]) -> Option<Place>
    requires { HasNames set.now (column_names columns.now) }
    ensures { result ≡ earliest (from_each (lacking_column columns.now) bys.now) }
{
    let mut found: Option<Place> = None;
    'bys: for b in bys {
        found = earlier_of(found, place_unless(set.contains(&b.name), b.place));
    }
    found
}

/// The earliest BY variable that some table lacks.
pub(crate) fn lacking_by(
    alloc: Global,
    tables: &[NamedSchema],
    inputs: &[Input],
    bys: &[PlacedName],
) -> Result<Option<Place>, OutOfMemory>
    ensures { IfOk result (λ place. place ≡ earliest (from_each (lacking_by (columns_stored tables.now) inputs.now) bys.now)) }
{
    let mut found: Option<Place> = None;
    'inputs: for input in inputs {
        let name = spelled_name(alloc, &input.table)?;
        let columns = columns_of(tables, name.as_slice());
        let set = column_set(alloc, columns)?;
        found = earlier_of(found, lacking(&set, columns, bys));
    }
    Ok(found)
}

// Whether a name is that of an instance of a thread program.
fn is_stage(scope: &Scope<'_, '_, '_>, name: &Bytes) -> bool
    ensures { result ≡ is_stage_sort ((tests_by scope.now).calls.sort_of_instance name.now) }
{
    match scope.calls.sort_of(name) {
        None => false,
        Some(sort) => match sort {
            Sort::Package(_) => false,
            Sort::Hash(_) => false,
            Sort::Iterator(_) => false,
            Sort::Thread(_) => true,
        },
    }
}

/// The place of a name behind `set from` that is no instance of a thread program.
pub(crate) fn unknown_stage(
    alloc: Global,
    scope: &Scope<'_, '_, '_>,
    stage: Option<&Token>,
) -> Result<Option<Place>, OutOfMemory>
    ensures { IfOk result (λ place. place ≡ earliest (unknown_stage_by (tests_by scope.now) (option_copied stage.entry))) }
{
    match stage {
        None => Ok(None),
        Some(stage) => {
            let spelled = spelled_name(alloc, stage)?;
            Ok(place_unless(is_stage(scope, &spelled), stage.place))
        }
    }
}
