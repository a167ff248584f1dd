//! What a machine tells of a unit.

use ds2_value::Ending;

/// How a unit has ended.
#[derive(Clone, Copy, PartialEq, Eq)]
pub struct UnitEnd {
    pub ending: Ending,
    /// How many steps and calls of the budget are left.
    pub left: u64,
    /// How many instructions were executed, the one that ended the unit too.
    pub executed: u64,
}
