//! What holds of the groups of a program's loads.
ghost use Rattle.ds2_loads.specs.GroupedLoads.{GroupsAreAllLoads};

use ds2_table::laws::{groups_divide_loads, loads_stand_in_by_order};

/// The groups of a program's loads, one after the other, are its loads in their order, at every grain.
pub fn groups_are_all_loads()
    ensures { GroupsAreAllLoads }
{
    loads_stand_in_by_order();
    groups_divide_loads();
}
