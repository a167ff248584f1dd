//! What holds of the groups of a program's loads.
ghost use Rattle.ds2_unit.specs.EveryGroup.{EveryGroupOnce};

use ds2_loads::laws::groups_are_all_loads;

/// Where a program ends normally, it ran each of its groups once, in order and each from what the one before it left, and so did each
/// thread program that it read from, local or not: its rows are those of `init`, of each group, and of `term`.
pub fn every_group_once()
    ensures { EveryGroupOnce }
{
    groups_are_all_loads();
}
