//! Whether the groups of a thread program may be spread over workers, and by how fine a group.
//!
//! [`judge`] gives the verdict that `ds2_locality` defines. `effects` has what a call of a method does. `cycles` finds that of the methods on
//! cycles of calls, once for all `members` that reach each other, and `settled` that of the others, each body walked once however often it is
//! called, both by the `parts` of methods that call each other. `marks` has sets of locations by deeds, `reading` what a program's loads set,
//! `runs` the two walks over `run`, and `verdict` the rules.
#![tactic(auto)]

mod cycles;
mod effects;
mod judged;
mod marks;
mod members;
mod parts;
mod reading;
mod runs;
mod settled;
mod verdict;

pub use verdict::judge;
