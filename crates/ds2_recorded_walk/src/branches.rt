//! Branches of a statement that were walked.

use crate::location_set::LocationSet;

/// The branches of a chain that were walked so far: what is dirty behind them, and whether one of them is always taken, so that none
/// behind it is.
#[derive(Drop)]
pub struct WalkedBranches {
    pub ends: LocationSet,
    pub is_decided: bool,
}
