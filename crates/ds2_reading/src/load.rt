//! What one call of `run` reads.

/// The input of one call of `run`: the number of the row that is read of each table of the reading statement, `u64::MAX` where none is,
/// and flags as bits, in the order of the BY variables and of the tables.
#[derive(Clone, Copy, PartialEq, Eq)]
pub struct Load {
    pub rows: [u64; 16],
    /// Whether the load before it has other values of the BY variables, or there is none.
    pub is_fresh: bool,
    /// The flags `first` of the BY variables.
    pub first: u16,
    /// The flags `last` of the BY variables.
    pub last: u16,
    /// Which tables have rows for this load.
    pub present: u16,
}
