//! The refusal of a unit's names.
ghost use Rattle.std.specs.Prelude.{◌≡◌, IfOk, OnOk};
ghost use Rattle.ds2_tree.specs.UnitViews.{package_tree, thread_tree, data_tree};
ghost use Rattle.ds2_tree.specs.Units.{APackage, AThread, AData};
ghost use Rattle.ds2_names.specs.SourceLimits.{BeforeUnit, behind_part, scope_refusal};
ghost use Rattle.ds2_names.specs.SourceUnit.{columns_stored, source_instances, names_of_unit, unit_of_package, unit_of_thread, unit_of_data};
ghost use Rattle.ds2_scope.specs.CodeUnits.{unit_source, instances_in_source};
ghost use Rattle.ds2_scope.specs.Lesser.{rules_broken};
ghost use Rattle.ds2_scope.specs.UnitNames.{NamesAre};
ghost use Rattle.ds2_resolve.specs.StandingBefore.{TellsOfUnits, behind_mentions};

use crate::before::{UnitsBefore, enter_unit};
use ds2_aliases::aliased_argument;
use ds2_base::{OutOfMemory, Refusal};
use ds2_calls::{Calls, calls_of_unit};
use ds2_given_names::{broken_names, columns_left};
use ds2_meaning::ScopeKind;
use ds2_misplaced::laws::misplaced_is_both;
use ds2_misplaced::{broken_instances, misplaced};
use ds2_name_uses::broken_uses;
use ds2_names::NamedSchema;
use ds2_scope::laws::refusal_of_places;
use ds2_scope::{
    BrokenRules, Instance, Unit, UnitNames, earlier_of, instances_of, names_of_unit, unit_of_data,
    unit_of_package, unit_of_thread,
};
use ds2_tree::{DataProgram, Package, Thread};
use std::alloc::Global;

// For each rule of names the earliest place at which a unit with these names and instances breaks it. The unit's mentions and tokens stand
// among those before then.
fn rules_broken(
    alloc: Global,
    tables: &[NamedSchema],
    before: &mut UnitsBefore,
    names: &UnitNames,
    instances: &[Instance<'_>],
    unit: Unit<'_>,
) -> Result<BrokenRules, OutOfMemory>
    requires { instances_in_source instances.now ≡ source_instances (unit_source unit).globals }
    ensures rules { IfOk result (λ rules. (units : BeforeUnit) → TellsOfUnits before.old units → NamesAre names.now (names_of_unit (columns_stored tables.now) units.known (unit_source unit.entry)) → rules ≡ rules_broken (columns_stored tables.now) units (unit_source unit.entry)) }
    ensures behind { OnOk result ((units : BeforeUnit) → TellsOfUnits before.old units → TellsOfUnits before.new (behind_mentions (unit_source unit.entry) units)) }
{
    misplaced_is_both();
    let own = calls_of_unit(alloc, unit.globals)?;
    let calls = Calls {
        unit: &own,
        known: &before.calls,
    };
    let used = broken_uses(alloc, tables, names, &calls, unit)?;
    let declared = broken_instances(alloc, tables, &calls, names, instances)?;
    let aliased = aliased_argument(alloc, names, &calls, unit)?;
    let given = broken_names(alloc, &before.known, names, instances, unit)?;
    let out_of_place = misplaced(alloc, &before.known, instances, unit)?;
    let source_limit = enter_unit(alloc, before, instances, unit)?;
    Ok(BrokenRules {
        unknown_name: earlier_of(used.unknown_name, declared.unknown_name),
        duplicate_name: given.duplicate_name,
        unknown_method: used.unknown_method,
        wrong_count: earlier_of(used.wrong_count, declared.wrong_count),
        not_variable: earlier_of(used.not_variable, declared.not_variable),
        aliased_argument: aliased,
        too_many_names: given.too_many_names,
        bad_number: given.bad_number,
        misplaced: earlier_of(out_of_place, used.misplaced_setting),
        no_columns: given.no_columns,
        source_limit,
    })
}

// The refusal of a unit with these names and instances. The unit's mentions and tokens stand among those before then.
fn refusal_of_unit(
    alloc: Global,
    tables: &[NamedSchema],
    before: &mut UnitsBefore,
    names: &UnitNames,
    instances: &[Instance<'_>],
    unit: Unit<'_>,
) -> Result<Option<Refusal<ScopeKind>>, OutOfMemory>
    requires { instances_in_source instances.now ≡ source_instances (unit_source unit).globals }
    ensures refusal { IfOk result (λ refusal. (units : BeforeUnit) → TellsOfUnits before.old units → NamesAre names.now (names_of_unit (columns_stored tables.now) units.known (unit_source unit.entry)) → refusal ≡ scope_refusal (columns_stored tables.now) units (unit_source unit.entry)) }
    ensures behind { OnOk result ((units : BeforeUnit) → TellsOfUnits before.old units → TellsOfUnits before.new (behind_mentions (unit_source unit.entry) units)) }
{
    refusal_of_places();
    let rules = rules_broken(alloc, tables, before, names, instances, unit)?;
    Ok(rules.first())
}

/// The refusal of the names of a data program, over these tables and behind the units before it, None where its names break no rule: of all
/// rules that it breaks the one at the least place, and at one place the first in the order of the kinds. The program stands among those before
/// then; after want of memory nothing is known of these.
pub fn resolve(
    alloc: Global,
    tables: &[NamedSchema],
    before: &mut UnitsBefore,
    program: &DataProgram,
) -> Result<Option<Refusal<ScopeKind>>, OutOfMemory>
    ensures refusal { IfOk result (λ refusal. (units : BeforeUnit) → TellsOfUnits before.old units → refusal ≡ scope_refusal (columns_stored tables.now) units (unit_of_data (data_tree program.now))) }
    ensures behind { OnOk result ((units : BeforeUnit) → TellsOfUnits before.old units → TellsOfUnits before.new (behind_part (columns_stored tables.now) (AData (data_tree program.now)) units)) }
{
    let unit = unit_of_data(program);
    let instances = instances_of(alloc, unit.globals)?;
    let instances = instances.as_slice();
    let names = names_of_unit(alloc, tables, &before.known, instances, unit)?;
    let refusal = refusal_of_unit(alloc, tables, before, &names, instances, unit)?;
    before.enter_data(alloc, program)?;
    Ok(refusal)
}

/// The refusal of the names of a package, likewise. The package stands among those before then.
pub fn resolve_package(
    alloc: Global,
    tables: &[NamedSchema],
    before: &mut UnitsBefore,
    unit: &Package,
) -> Result<Option<Refusal<ScopeKind>>, OutOfMemory>
    ensures refusal { IfOk result (λ refusal. (units : BeforeUnit) → TellsOfUnits before.old units → refusal ≡ scope_refusal (columns_stored tables.now) units (unit_of_package (package_tree unit.now))) }
    ensures behind { OnOk result ((units : BeforeUnit) → TellsOfUnits before.old units → TellsOfUnits before.new (behind_part (columns_stored tables.now) (APackage (package_tree unit.now)) units)) }
{
    let all = unit_of_package(unit);
    let instances = instances_of(alloc, all.globals)?;
    let instances = instances.as_slice();
    let names = names_of_unit(alloc, tables, &before.known, instances, all)?;
    let refusal = refusal_of_unit(alloc, tables, before, &names, instances, all)?;
    before.enter_package(alloc, unit)?;
    Ok(refusal)
}

/// The refusal of the names of a thread program, likewise. The thread program stands among those before then.
pub fn resolve_thread(
    alloc: Global,
    tables: &[NamedSchema],
    before: &mut UnitsBefore,
    unit: &Thread,
) -> Result<Option<Refusal<ScopeKind>>, OutOfMemory>
    ensures refusal { IfOk result (λ refusal. (units : BeforeUnit) → TellsOfUnits before.old units → refusal ≡ scope_refusal (columns_stored tables.now) units (unit_of_thread (thread_tree unit.now))) }
    ensures behind { OnOk result ((units : BeforeUnit) → TellsOfUnits before.old units → TellsOfUnits before.new (behind_part (columns_stored tables.now) (AThread (thread_tree unit.now)) units)) }
{
    let all = unit_of_thread(unit);
    let instances = instances_of(alloc, all.globals)?;
    let instances = instances.as_slice();
    let names = names_of_unit(alloc, tables, &before.known, instances, all)?;
    let columns = columns_left(alloc, &names, all.globals)?;
    let refusal = refusal_of_unit(alloc, tables, before, &names, instances, all)?;
    before.enter_thread(alloc, unit, instances, columns)?;
    Ok(refusal)
}
