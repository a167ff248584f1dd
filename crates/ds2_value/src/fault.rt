//! Why and where a run ends.

use ds2_base::Place;

/// How many called methods may be under way at once.
pub const CALL_DEPTH: usize = 100;

/// Why a run ends early. A new one touches the files that docs/ARCHITECTURE.md lists under 'To add a fault'.
#[derive(Clone, Copy, PartialEq, Eq)]
pub enum Fault {
    /// A number has more digits than its type.
    Overflow,
    /// A divisor is 0.
    DivideByZero,
    /// A position lies outside a text, or a length is below 0.
    Range,
    /// No `when` of a `select` without `otherwise` applies.
    NoWhen,
    /// The unit has carried out as many steps as it may.
    BudgetSpent,
    /// A method was called while [`CALL_DEPTH`] called methods were under way.
    DepthReached,
}

/// How a run ends.
#[derive(Clone, Copy, PartialEq, Eq)]
pub enum Ending {
    /// At its end.
    Normal,
    /// Early, for this reason, in the statement at this place.
    Faulted { kind: Fault, place: Place },
}
