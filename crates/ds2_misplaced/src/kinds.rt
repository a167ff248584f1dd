//! What a unit of a kind may not hold: a package no instances of packages and thread programs and no lists, a thread program no
//! `in_out` parameters and no instance that makes a long chain of thread programs.
ghost use Rattle.std.specs.Prelude.{◌≡◌, ◌+◌, IfOk, List as Items, map, nat_lt, option_copied};
ghost use Rattle.ds2_tree.specs.UnitViews.{global_tree};
ghost use Rattle.ds2_names.specs.NameRules.{from_each};
ghost use Rattle.ds2_names.specs.SourceUnit.{TableColumns, KnownUnit, source_instances, names_of_unit};
ghost use Rattle.ds2_names.specs.UnitRules.{is_kept_from_packages, list_keywords, longest_chain, makes_long_chain, in_out_words, misplaced_in_kind};
ghost use Rattle.ds2_scope.specs.CodeUnits.{unit_kind, unit_source, instance_sort, instances_in_source};
ghost use Rattle.ds2_scope.specs.Earliest.{earliest};
ghost use Rattle.ds2_misplaced.specs.MisplacedParts.{chain_or_one, keyword_where, list_keyword_in, in_out_word};
ghost use Rattle.ds2_scope.specs.UnitsKnown.{KnowsUnits};

use ds2_base::{OutOfMemory, Place};
use ds2_scope::{
    Instance, InstanceSort, KnownThread, KnownUnits, Unit, UnitKind, earlier_of, place_unless,
    thread_of,
};
use ds2_tree::{GlobalItem, Parameter};
use std::alloc::Global;

// Whether a package may not hold an instance of this sort.
fn is_kept_from_packages(sort: InstanceSort<'_>) -> bool
    ensures { result ≡ is_kept_from_packages (instance_sort sort.entry) }
{
    match sort {
        InstanceSort::Package { .. } => true,
        InstanceSort::Hash { .. } => false,
        InstanceSort::Iterator(_) => false,
        InstanceSort::Thread(_) => true,
    }
}

// The earliest instance that a package may not hold.
fn kept_from_packages(instances: &[Instance<'_>]) -> Option<Place>
    ensures { result ≡ earliest (from_each (keyword_where is_kept_from_packages) (instances_in_source instances.now)) }
{
    let mut found: Option<Place> = None;
    'instances: for instance in instances {
        let is_kept = is_kept_from_packages(instance.sort);
        found = earlier_of(found, place_unless(!is_kept, instance.keyword.place));
    }
    found
}

// The word of a list, where a part of a unit is one.
fn list_keyword(global: &GlobalItem) -> Option<Place>
    ensures { result ≡ earliest (list_keyword_in (global_tree global.now)) }
{
    match global {
        GlobalItem::Listed { keyword, .. } => Some(keyword.place),
        GlobalItem::Declaration(_) => None,
        GlobalItem::Method(_) => None,
    }
}

// The earliest word of a list.
fn earliest_list(globals: &[GlobalItem]) -> Option<Place>
    ensures { result ≡ earliest (list_keywords (map global_tree globals.now)) }
{
    let mut found: Option<Place> = None;
    'globals: for global in globals {
        found = earlier_of(found, list_keyword(global));
    }
    found
}

// The word `in_out` of a parameter, where it has one.
fn in_out_place(parameter: &Parameter) -> Option<Place>
    ensures { result ≡ earliest (in_out_word parameter.now) }
{
    match &parameter.in_out {
        None => None,
        Some(word) => Some(word.place),
    }
}

// The earliest word `in_out` of parameters.
fn earliest_in_out(parameters: &[Parameter]) -> Option<Place>
    ensures { result ≡ earliest (in_out_words parameters.now) }
{
    let mut found: Option<Place> = None;
    'parameters: for parameter in parameters {
        found = earlier_of(found, in_out_place(parameter));
    }
    found
}

// How many thread programs a chain may have.
const LONGEST_CHAIN: u32 = 1;

// Whether a chain of so many thread programs is too long with one more.
fn is_long(chain: u32) -> bool
    ensures { result ≡ nat_lt longest_chain (chain + 1) }
{
    chain >= LONGEST_CHAIN
}

// How many thread programs the chain has that ends with this one: one that is not known counts as one.
fn chain_or_one(thread: Option<&KnownThread>) -> u32
    ensures { result ≡ chain_or_one (option_copied thread.entry) }
{
    match thread {
        None => 1,
        Some(thread) => thread.chain,
    }
}

// Whether an instance makes a long chain.
fn makes_long_chain(
    alloc: Global,
    known: &KnownUnits,
    instance: &Instance<'_>,
) -> Result<bool, OutOfMemory>
    ensures { IfOk result (λ is_long. (units : Items KnownUnit) → KnowsUnits known.now units → is_long ≡ makes_long_chain units (instance_sort instance.now.sort)) }
{
    match instance.sort {
        InstanceSort::Package { .. } => Ok(false),
        InstanceSort::Hash { .. } => Ok(false),
        InstanceSort::Iterator(_) => Ok(false),
        InstanceSort::Thread(_) => {
            let thread = thread_of(alloc, known, instance)?;
            Ok(is_long(chain_or_one(thread)))
        }
    }
}

// The earliest instance that makes a long chain.
fn long_chain(
    alloc: Global,
    known: &KnownUnits,
    instances: &[Instance<'_>],
) -> Result<Option<Place>, OutOfMemory>
    ensures { IfOk result (λ place. (units : Items KnownUnit) → KnowsUnits known.now units → place ≡ earliest (from_each (keyword_where (makes_long_chain units)) (instances_in_source instances.now))) }
{
    let mut found: Option<Place> = None;
    'instances: for instance in instances {
        let is_long = makes_long_chain(alloc, known, instance)?;
        found = earlier_of(found, place_unless(!is_long, instance.keyword.place));
    }
    Ok(found)
}

/// The earliest place of what a unit of its kind may not hold.
pub(crate) fn misplaced_in_kind(
    alloc: Global,
    known: &KnownUnits,
    instances: &[Instance<'_>],
    unit: Unit<'_>,
) -> Result<Option<Place>, OutOfMemory>
    requires { instances_in_source instances.now ≡ source_instances (unit_source unit).globals }
    ensures { IfOk result (λ place. (tables : TableColumns) (units : Items KnownUnit) → KnowsUnits known.now units → place ≡ earliest (misplaced_in_kind (unit_kind unit.entry.kind) (names_of_unit tables units (unit_source unit.entry)))) }
{
    match unit.kind {
        UnitKind::Package => Ok(earlier_of(
            kept_from_packages(instances),
            earliest_list(unit.globals),
        )),
        UnitKind::Thread => {
            let chain = long_chain(alloc, known, instances)?;
            Ok(earlier_of(earliest_in_out(unit.parameters), chain))
        }
        UnitKind::Data => Ok(None),
    }
}
