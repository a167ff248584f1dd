//! The instances of a unit beside the rule on its columns.
ghost use Rattle.std.specs.Prelude.{◌≡◌, ◌++◌, IfOk};
ghost use Rattle.ds2_elaboration.specs.ProgramTypes.{scope_of_declarations};
ghost use Rattle.ds2_elaboration.specs.UnitsBefore.{UnitsBefore};
ghost use Rattle.ds2_instance_types.specs.TypedInstanceLists.{AreInstancesOf};
ghost use Rattle.ds2_declared_types.specs.TypesKnown.{TellsTypes};
ghost use Rattle.ds2_program_types.specs.UnitRules.{column_refusals, declaration_refusals};
ghost use Rattle.ds2_program_types.specs.UnitScopes.{AreUnitTables};
ghost use Rattle.ds2_program_types.specs.UnitsAtHand.{IsAtHand, columns_at_hand, names_at_hand, source_at_hand};
ghost use Rattle.ds2_types.specs.Judgements.{IsOutcome};

use crate::at_hand::UnitAtHand;
use crate::column_clashes::of_columns;
use crate::methods::under_rule;
use crate::unit_tables::UnitTables;
use ds2_base::OutOfMemory;
use ds2_declared_types::KnownTypes;
use ds2_instance_types::{InstancesOutcome, typed_instances};
use ds2_meaning::MentionedTable;
use std::alloc::Global;

/// The instances of a unit with these tables, or the one of the rules that its columns and its instances break that is given.
pub fn ruled_instances(
    alloc: Global,
    made: &[MentionedTable],
    known: &KnownTypes<'_>,
    unit: UnitAtHand<'_, '_>,
    scope: &UnitTables,
) -> Result<InstancesOutcome, OutOfMemory>
    ensures { (before : UnitsBefore) → TellsTypes known.now before → before.names.made ≡ made.now → IsAtHand before unit.entry → AreUnitTables (columns_at_hand unit.entry) before (source_at_hand unit.entry) scope.now
        → IfOk result (IsOutcome (AreInstancesOf (columns_at_hand unit.entry) before (scope_of_declarations (columns_at_hand unit.entry) before (source_at_hand unit.entry)) (names_at_hand before unit.entry).instances)
        (column_refusals (columns_at_hand unit.entry) before (source_at_hand unit.entry) ++ declaration_refusals (columns_at_hand unit.entry) before (source_at_hand unit.entry))) }
{
    let clashes = of_columns(alloc, unit)?;
    let instances = typed_instances(
        alloc,
        unit.from.tables,
        made,
        known,
        &scope.globals,
        unit.instances,
    )?;
    Ok(under_rule(clashes, instances))
}
