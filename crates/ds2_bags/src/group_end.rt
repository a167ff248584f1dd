//! What a group gives.
ghost use Rattle.std.specs.Prelude.{◌≡◌};
ghost use Rattle.ds2_bags.specs.Endings.{ended_by_fault};

use ds2_base::{List, Text};
use ds2_value::{Ending, Row};

/// What the run of a group gave.
#[derive(Drop)]
pub struct GroupEnd {
    /// The rows that it wrote, in order.
    pub rows: List<Row>,
    /// The lines that it put, in order.
    pub lines: List<Text>,
    pub ending: Ending,
    /// How many instructions it executed.
    pub executed: u128,
}

impl GroupEnd {
    /// Whether the group ended by a fault.
    pub fn is_fault(&self) -> bool
        ensures { result ≡ ended_by_fault self.now.ending }
    {
        match self.ending {
            Ending::Normal => false,
            Ending::Faulted { kind: _, place: _ } => true,
        }
    }
}
