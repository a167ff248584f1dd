//! What a unit breaks of the rules on uses of names.
ghost use Rattle.std.specs.Prelude.{◌≡◌, IfOk, List as Items};
ghost use Rattle.ds2_calls.specs.UnitsCalls.{HasCalls};
ghost use Rattle.ds2_names.specs.SourceUnit.{KnownUnit, columns_stored, names_of_unit};
ghost use Rattle.ds2_name_uses.specs.BrokenUses.{unknown_beside_uses, BreaksFirst};
ghost use Rattle.ds2_scope.specs.CodeUnits.{unit_source};
ghost use Rattle.ds2_scope.specs.Earliest.{earliest};
ghost use Rattle.ds2_scope.specs.UnitNames.{NamesAre};
ghost use Rattle.ds2_name_uses.specs.ScopeTables.{tests_by};

use crate::listed_names::{in_outputs, in_statements_of, lacking_by, unknown_stage};
use crate::method_uses::in_methods;
use crate::scope::{Scope, UsageRule};
use crate::unit_tables::tables_of_unit;
use ds2_base::{OutOfMemory, Place};
use ds2_calls::Calls;
use ds2_names::{NamedSchema, PlacedName};
use ds2_scope::{NameSet, Unit, UnitNames, earlier_of, reading_of_unit, stage_of, tables_of};
use std::alloc::Global;

/// The earliest places at which a unit breaks the rules on uses of names, None where it does not.
#[derive(Clone, Copy)]
pub struct BrokenUses {
    /// A name that is not there.
    pub unknown_name: Option<Place>,
    /// A call of what is not there.
    pub unknown_method: Option<Place>,
    /// A call with another number of arguments.
    pub wrong_count: Option<Place>,
    /// What is no variable where one is asked for.
    pub not_variable: Option<Place>,
    /// A call of `setparms` outside of `init`.
    pub misplaced_setting: Option<Place>,
}

// The earliest name that is not there among those that are listed, the BY variables and the instance of `set from`.
#[tactic(auto, using(crate::proofs::BrokenLemmas::beside_parts))]
fn unknown_beside_uses(
    alloc: Global,
    tables: &[NamedSchema],
    bys: &[PlacedName],
    scope: &Scope<'_, '_, '_>,
    unit: Unit<'_>,
) -> Result<Option<Place>, OutOfMemory>
    ensures { IfOk result (λ place. place ≡ earliest (unknown_beside_uses (columns_stored tables.now) bys.now (tests_by scope.now) (unit_source unit.entry))) }
{
    let listed = in_statements_of(alloc, scope, unit.globals)?;
    let options = in_outputs(alloc, scope, unit.outputs)?;
    let reading = reading_of_unit(alloc, unit)?;
    let lacking = lacking_by(alloc, tables, tables_of(reading), bys)?;
    let stage = unknown_stage(alloc, scope, stage_of(reading))?;
    Ok(earlier_of(earlier_of(listed, options), earlier_of(lacking, stage)))
}

/// The earliest places at which a unit breaks the rules on uses of names, over the columns of these tables and behind any units. The names are
/// those that `names_of_unit` gives over the same tables, and the calls those of the unit and of the units before it.
pub fn broken_uses(
    alloc: Global,
    tables: &[NamedSchema],
    names: &UnitNames,
    calls: &Calls<'_, '_>,
    unit: Unit<'_>,
) -> Result<BrokenUses, OutOfMemory>
    ensures { IfOk result (λ b. (known : Items KnownUnit) → NamesAre names.now (names_of_unit (columns_stored tables.now) known (unit_source unit.entry))
        → HasCalls calls.now (names_of_unit (columns_stored tables.now) known (unit_source unit.entry))
        → BreaksFirst (columns_stored tables.now) (names_of_unit (columns_stored tables.now) known (unit_source unit.entry)) b) }
{
    let globals = unit.globals;
    let own = tables_of_unit(alloc, names, unit.kind)?;
    let outside = NameSet::new(alloc);
    let scope = Scope::over(UsageRule::UnknownName, &own, calls, outside, false);
    let beside = unknown_beside_uses(alloc, tables, names.bys.as_slice(), &scope, unit)?;
    let used = in_methods(alloc, &own, calls, UsageRule::UnknownName, globals)?;
    let unknown_method = in_methods(alloc, &own, calls, UsageRule::UnknownMethod, globals)?;
    let wrong_count = in_methods(alloc, &own, calls, UsageRule::WrongCount, globals)?;
    let not_variable = in_methods(alloc, &own, calls, UsageRule::NotVariable, globals)?;
    let misplaced_setting = in_methods(alloc, &own, calls, UsageRule::MisplacedSetting, globals)?;
    Ok(BrokenUses {
        unknown_name: earlier_of(used, beside),
        unknown_method,
        wrong_count,
        not_variable,
        misplaced_setting,
    })
}
