//! What the methods of a unit break of the rules on uses of names.
ghost use Rattle.std.specs.Prelude.{◌≡◌, ◌&&◌, IfOk, map, bytes_eq, codes};
ghost use Rattle.ds2_tree.specs.UnitViews.{method_tree, global_tree};
ghost use Rattle.ds2_calls.specs.UnitsCalls.{HasCalls};
ghost use Rattle.ds2_names.specs.NameRules.{from_each};
ghost use Rattle.ds2_names.specs.SourceUnit.{SourceNames, local_names, names_alone, spelled_name, source_methods};
ghost use Rattle.ds2_name_uses.specs.BrokenUses.{broken_in_method};
ghost use Rattle.ds2_scope.specs.Collected.{methods_in};
ghost use Rattle.ds2_scope.specs.Earliest.{earliest};
ghost use Rattle.ds2_scope.specs.NameSets.{HasNames};
ghost use Rattle.ds2_name_uses.specs.ScopeTables.{AreTablesOf};

use crate::scope::{Scope, UnitTables, UsageRule};
use ds2_base::{OutOfMemory, Place};
use ds2_calls::{Calls, in_statements};
use ds2_scope::{NameSet, earlier_of, local_names, name_set, spelled_name};
use ds2_tree::{GlobalItem, Method};
use std::alloc::Global;

// The parameters and locals of a method.
fn local_set(alloc: Global, m: &Method) -> Result<NameSet, OutOfMemory>
    ensures { IfOk result (λ set. HasNames set (names_alone (local_names (method_tree m.now)))) }
{
    let locals = local_names(alloc, m)?;
    name_set(alloc, locals.as_slice())
}

// Whether a method is the system method `init`.
fn is_init(alloc: Global, is_program: bool, m: &Method) -> Result<bool, OutOfMemory>
    ensures { IfOk result (λ answer. answer ≡ (is_program && bytes_eq (spelled_name m.now.name) (codes "init"))) }
{
    let name = spelled_name(alloc, &m.name)?;
    Ok(is_program && name.as_slice() == b"init".as_slice())
}

// The earliest place at which a method breaks a rule.
fn in_method(
    alloc: Global,
    unit: &UnitTables,
    calls: &Calls<'_, '_>,
    rule: UsageRule,
    m: &Method,
) -> Result<Option<Place>, OutOfMemory>
    ensures { IfOk result (λ place. (names : SourceNames) → AreTablesOf unit.now names → HasCalls calls.now names → place ≡ earliest (broken_in_method rule names (method_tree m.now))) }
{
    let locals = local_set(alloc, m)?;
    let is_init = is_init(alloc, unit.is_program, m)?;
    let scope = Scope::over(rule, unit, calls, locals, is_init);
    in_statements(alloc, &scope, m.body.as_slice())
}

// The same, where a part of a unit is a method.
fn in_global(
    alloc: Global,
    unit: &UnitTables,
    calls: &Calls<'_, '_>,
    rule: UsageRule,
    global: &GlobalItem,
) -> Result<Option<Place>, OutOfMemory>
    ensures { IfOk result (λ place. (names : SourceNames) → AreTablesOf unit.now names → HasCalls calls.now names → place ≡ earliest (from_each (broken_in_method rule names) (methods_in (global_tree global.now)))) }
{
    match global {
        GlobalItem::Method(m) => in_method(alloc, unit, calls, rule, m),
        GlobalItem::Listed { .. } => Ok(None),
        GlobalItem::Declaration(_) => Ok(None),
    }
}

/// The earliest place at which the methods of a unit break a rule on uses.
pub(crate) fn in_methods(
    alloc: Global,
    unit: &UnitTables,
    calls: &Calls<'_, '_>,
    rule: UsageRule,
    globals: &[GlobalItem],
) -> Result<Option<Place>, OutOfMemory>
    ensures { IfOk result (λ place. (names : SourceNames) → AreTablesOf unit.now names → HasCalls calls.now names → place ≡ earliest (from_each (broken_in_method rule names) (source_methods (map global_tree globals.now)))) }
{
    let mut found: Option<Place> = None;
    'globals: for global in globals {
        found = earlier_of(found, in_global(alloc, unit, calls, rule, global)?);
    }
    Ok(found)
}
