//! Which thread programs may be spread over workers, and by how fine a group.
//!
//! `specs/` has the definitions, in the order of `specs/Lib.antt`: `Deeds`, what statements mention, change and call; `KeptLocations`,
//! what a program keeps between loads; `Independence`, when the groups of a thread program are independent at a grain, in terms of what
//! its units give; `Walk` and `Verdict`, the rules over its statements by which the program decides that, the grain, and the reason and
//! place where it is not so; `Soundness`, that a program which the verdict calls local at a grain is independent there; and examples.
#![tactic(auto)]

pub mod laws;
mod locality;

pub use locality::{Reason, Verdict};
