//! Misplaced: what stands where it may not stand in a unit, calls of `setparms` aside.
ghost use Rattle.std.specs.Prelude.{◌≡◌, ◌++◌, IfOk, List as Items, map};
ghost use Rattle.ds2_tree.specs.UnitViews.{method_tree, global_tree};
ghost use Rattle.ds2_names.specs.NameRules.{from_each, later_places, options_of};
ghost use Rattle.ds2_names.specs.SourceUnit.{TableColumns, KnownUnit, source_instances, source_methods, names_of_unit};
ghost use Rattle.ds2_names.specs.UnitRules.{reading_place, misplaced_reading, misplaced_null};
ghost use Rattle.ds2_scope.specs.Collected.{methods_in};
ghost use Rattle.ds2_scope.specs.Earliest.{earlier_of, earliest};
ghost use Rattle.ds2_misplaced.specs.MisplacedParts.{is_system_in, may_read_in, rule_on_outputs, misplaced_method_head, misplaced_body, misplaced_in_method_of, misplaced_aside, option_token, option_names, repeated_options, null_place};
ghost use Rattle.ds2_scope.specs.CodeUnits.{unit_kind, unit_source, instances_in_source};
ghost use Rattle.ds2_scope.specs.UnitsKnown.{KnowsUnits};

use crate::kinds::misplaced_in_kind;
use crate::output_rule::OutputRule;
use crate::statements::within_all;
use ds2_base::{List, OutOfMemory, Place};
use ds2_names::PlacedName;
use ds2_scope::{
    Instance, KnownUnits, Unit, UnitKind, earlier_of, earliest_later, is_system_name, place_unless,
    placed_name, reads_thread, spelled_name,
};
use ds2_token::Token;
use ds2_tree::{GlobalItem, Method, OutputOption, OutputOptions, OutputTable, Reading};
use std::alloc::Global;

// Whether a name is that of a system method in a unit of a kind: a package has none.
fn is_system_in(kind: UnitKind, name: &[u8]) -> bool
    ensures { result ≡ is_system_in (unit_kind kind) name.now }
{
    match kind {
        UnitKind::Package => false,
        UnitKind::Thread => is_system_name(name),
        UnitKind::Data => is_system_name(name),
    }
}

// Which `output` statements may stand in a method.
fn rule_on_outputs(kind: UnitKind, is_system: bool) -> OutputRule
    ensures { result ≡ rule_on_outputs (unit_kind kind) is_system }
{
    match kind {
        UnitKind::Package => OutputRule::Nowhere,
        UnitKind::Thread => {
            if is_system {
                OutputRule::Unnamed
            } else {
                OutputRule::Nowhere
            }
        }
        UnitKind::Data => {
            if is_system {
                OutputRule::Anywhere
            } else {
                OutputRule::Nowhere
            }
        }
    }
}

// The place of the first token of a reading statement.
fn reading_place(reading: &Reading) -> Place
    ensures { result ≡ reading_place reading.now }
{
    match reading {
        Reading::Set { keyword, .. } => keyword.place,
        Reading::SetFrom { keyword, .. } => keyword.place,
        Reading::Merge { keyword, .. } => keyword.place,
    }
}

// Whether a reading statement may stand in a method of this name: a thread program reads tables alone.
fn may_read_in(kind: UnitKind, name: &[u8], reading: &Reading) -> bool
    ensures { result ≡ may_read_in (unit_kind kind) name.now reading.now }
{
    match kind {
        UnitKind::Package => false,
        UnitKind::Thread => !reads_thread(reading) && name == b"run".as_slice(),
        UnitKind::Data => name == b"run".as_slice(),
    }
}

// The place of a reading statement that may not stand in a method of this name.
fn misplaced_reading(kind: UnitKind, name: &[u8], reading: &Option<Reading>) -> Option<Place>
    ensures { result ≡ earliest (misplaced_reading (may_read_in (unit_kind kind) name.now) reading.now) }
{
    match reading {
        None => None,
        Some(reading) => place_unless(may_read_in(kind, name, reading), reading_place(reading)),
    }
}

// The place of a system method with parameters or a result.
fn misplaced_head(is_system: bool, m: &Method) -> Option<Place>
    ensures { result ≡ earliest (misplaced_method_head is_system (method_tree m.now)) }
{
    place_unless(
        !is_system || m.parameters.list.is_empty() && m.returns.is_none(),
        m.keyword.place,
    )
}

// The earliest misplaced statement of a method.
fn within_body(rule: OutputRule, m: &Method) -> Option<Place>
    ensures { result ≡ earliest (misplaced_body rule (method_tree m.now)) }
{
    within_all(rule, m.returns.is_some(), false, m.body.as_slice())
}

// The earliest place of what is misplaced in a method.
fn in_method(alloc: Global, kind: UnitKind, m: &Method) -> Result<Option<Place>, OutOfMemory>
    ensures { IfOk result (λ place. place ≡ earliest (misplaced_in_method_of (unit_kind kind) (method_tree m.now))) }
{
    let name = spelled_name(alloc, &m.name)?;
    let is_system = is_system_in(kind, name.as_slice());
    let head = misplaced_head(is_system, m);
    let reading = misplaced_reading(kind, name.as_slice(), &m.reading);
    let body = within_body(rule_on_outputs(kind, is_system), m);
    Ok(earlier_of(head, earlier_of(reading, body)))
}

// The same, where a part of a unit is a method.
fn in_global(
    alloc: Global,
    kind: UnitKind,
    global: &GlobalItem,
) -> Result<Option<Place>, OutOfMemory>
    ensures { IfOk result (λ place. place ≡ earliest (from_each (misplaced_in_method_of (unit_kind kind)) (methods_in (global_tree global.now)))) }
{
    match global {
        GlobalItem::Method(m) => in_method(alloc, kind, m),
        GlobalItem::Listed { .. } => Ok(None),
        GlobalItem::Declaration(_) => Ok(None),
    }
}

// The earliest place of what is misplaced in the methods of a unit.
fn in_methods(
    alloc: Global,
    kind: UnitKind,
    globals: &[GlobalItem],
) -> Result<Option<Place>, OutOfMemory>
    ensures { IfOk result (λ place. place ≡ earliest (from_each (misplaced_in_method_of (unit_kind kind)) (source_methods (map global_tree globals.now)))) }
{
    let mut found: Option<Place> = None;
    'globals: for global in globals {
        found = earlier_of(found, in_global(alloc, kind, global)?);
    }
    Ok(found)
}

// The place of an output that is `_null_`.
fn null_place(alloc: Global, o: &OutputTable) -> Result<Option<Place>, OutOfMemory>
    ensures { IfOk result (λ place. place ≡ earliest (null_place o.now)) }
{
    let name = spelled_name(alloc, &o.table)?;
    Ok(place_unless(name.as_slice() != b"_null_".as_slice(), o.table.place))
}

// The earliest place of an output that is `_null_`.
fn earliest_null(alloc: Global, outputs: &[OutputTable]) -> Result<Option<Place>, OutOfMemory>
    ensures { IfOk result (λ place. place ≡ earliest (from_each null_place outputs.now)) }
{
    let mut found: Option<Place> = None;
    'outputs: for o in outputs {
        found = earlier_of(found, null_place(alloc, o)?);
    }
    Ok(found)
}

// The place of `_null_` beside another output.
#[tactic(auto, using(crate::proofs::MisplacedLemmas::null_unless))]
fn misplaced_null(alloc: Global, outputs: &[OutputTable]) -> Result<Option<Place>, OutOfMemory>
    ensures { IfOk result (λ place. place ≡ earliest (misplaced_null outputs.now)) }
{
    if outputs.len() <= 1 {
        Ok(None)
    } else {
        earliest_null(alloc, outputs)
    }
}

// The word of an option.
fn option_word(option: &OutputOption) -> &Token
    ensures { result.now ≡ option_token option.now }
{
    match option {
        OutputOption::Listed { keyword, .. } => keyword,
        OutputOption::Overwrite { keyword, .. } => keyword,
        OutputOption::Rename { keyword, .. } => keyword,
    }
}

// The words of options.
fn option_names(alloc: Global, options: &[OutputOption]) -> Result<List<PlacedName>, OutOfMemory>
    ensures { IfOk result (λ names. names ≡ option_names options.now) }
{
    let mut names: List<PlacedName> = List::new(alloc);
    'options: for option in options {
        names.push(placed_name(alloc, option_word(option))?)?;
    }
    Ok(names)
}

// The earliest second option of a sort, where an output has options.
fn repeated_option_of(
    alloc: Global,
    options: &Option<OutputOptions>,
) -> Result<Option<Place>, OutOfMemory>
    ensures { IfOk result (λ place. place ≡ earliest (later_places (option_names (options_of options.now)))) }
{
    match options {
        None => Ok(None),
        Some(options) => {
            let names = option_names(alloc, options.list.as_slice())?;
            earliest_later(alloc, names.as_slice())
        }
    }
}

// The earliest second option of a sort of an output.
fn repeated_option(alloc: Global, outputs: &[OutputTable]) -> Result<Option<Place>, OutOfMemory>
    ensures { IfOk result (λ place. place ≡ earliest (from_each repeated_options outputs.now)) }
{
    let mut found: Option<Place> = None;
    'outputs: for o in outputs {
        found = earlier_of(found, repeated_option_of(alloc, &o.options)?);
    }
    Ok(found)
}

/// The earliest place of what stands where it may not stand in a unit with these instances, behind the units that are known, calls of
/// `setparms` aside; None where nothing does: statements, reading statements, heads of system methods, what a unit of its kind may not
/// hold, `_null_` beside another output, and an option given twice.
pub fn misplaced(
    alloc: Global,
    known: &KnownUnits,
    instances: &[Instance<'_>],
    unit: Unit<'_>,
) -> Result<Option<Place>, OutOfMemory>
    requires { instances_in_source instances.now ≡ source_instances (unit_source unit).globals }
    ensures { IfOk result (λ place. (tables : TableColumns) (units : Items KnownUnit) → KnowsUnits known.now units → place ≡ earliest (misplaced_aside (names_of_unit tables units (unit_source unit.entry)))) }
{
    let methods = in_methods(alloc, unit.kind, unit.globals)?;
    let kind = misplaced_in_kind(alloc, known, instances, unit)?;
    let null = misplaced_null(alloc, unit.outputs)?;
    let option = repeated_option(alloc, unit.outputs)?;
    Ok(earlier_of(earlier_of(methods, kind), earlier_of(null, option)))
}
