//! How some units, one after the other, have ended.

use ds2_value::Ending;

/// How some units, one after the other, have ended.
#[derive(Clone, Copy, PartialEq, Eq)]
pub struct UnitsEnd {
    pub ending: Ending,
    /// How many instructions they executed together.
    pub executed: u128,
}
