//! A stage run by many workers: each group of a job once, by fork and join, and the answer that one thread gives.
//!
//! Workers draw runs of groups by tickets, run them, and hand in under a lock, which keeps sums alone. What a worker ran stays in its
//! [`Bag`]. The caller makes the answer of all bags, and runs what nobody brought ([`conclude`], whose contract has the history of draws
//! and hand-ins).
//!
//! ```text
//! let end = run_stage(&rt, alloc, &job, workers, &NoGate)?;
//! ```
#![tactic(auto)]

mod bag;
mod concluding;
mod desk;
mod drawing;
mod gathering;
mod group;
mod opening;
mod pass;
mod shared;
mod stage;
mod worker;

pub use bag::Bag;
pub use concluding::{Brought, Concluded, conclude};
pub use desk::Odd;
pub use gathering::gather;
pub use opening::{Opened, open_shared};
pub use pass::Pass;
pub use shared::Shared;
pub use stage::run_stage;
pub use worker::work;
