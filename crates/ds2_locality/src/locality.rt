//! What is found of a thread program: whether its groups may be spread over workers.

use ds2_base::{Name, Place};

/// Why the groups of a thread program may not be spread over workers.
#[derive(Drop)]
pub enum Reason {
    /// `term` has a statement.
    TermHasStatements,
    /// `init`, a constructor or a method that they may call writes a row or a line.
    InitWrites,
    /// `run` reads what groups before may have left: a variable or a hash object of this name, or one of the instance of this name.
    Reads(Name),
}

/// Whether the groups of a thread program may be spread over workers.
#[derive(Drop)]
pub enum Verdict {
    /// They may: loads with equal values of the first `grain` BY variables stay together. 0 without BY variables, where each load may go
    /// by itself.
    Local { grain: u32 },
    /// They may not, for this reason, which stands at this place.
    NotLocal { reason: Reason, place: Place },
}
