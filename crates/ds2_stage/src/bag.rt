//! What a worker brings.
ghost use Rattle.std.specs.Prelude.{◌≡◌};

use crate::desk::Odd;
use crate::pass::Pass;
use ds2_bags::{Answers, Done};
use ds2_base::List;
use std::sync::ledger::Ledger;

/// What a worker brings: its pass, what it ran and handed in, in order, and why it ended before the last run. It ran nothing behind
/// a fault.
#[derive(Drop)]
pub struct Bag<'j, J: Answers, C: Ledger, R: Ledger> {
    pub pass: Pass<C, R>,
    pub dones: List<Done<'j, J>>,
    /// Whether it found no memory.
    pub short: bool,
    /// The test of the book that failed.
    pub odd: Option<Odd>,
    /// A group that had faulted, below every group that it has drawn and not run.
    pub stop: Option<u64>,
}
