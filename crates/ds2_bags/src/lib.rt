//! The parts of a stage that one thread runs: what the groups of a job give, what workers bring of them, and how the caller makes
//! the stage's answer of that.
//!
//! A [`Job`] has numbered groups, each with one answer, a [`GroupEnd`], whoever runs it. A [`Done`] is a group that was run. [`place`]
//! puts the answers in order of group, and [`finish`] gives what one thread gives, a [`StageEnd`]: it runs the groups that nobody brought,
//! as far as they are needed, and tells which these were.
//!
//! ```text
//! let placed = place(alloc, &job, bags)?;
//! let Finished { end, ran } = finish(alloc, &job, workers, placed, &gate)?;
//! ```
#![tactic(auto)]

mod done;
mod finishing;
mod group_end;
mod job;
mod placing;

pub use done::{Done, run_group};
pub use finishing::{Finished, StageEnd, finish};
pub use group_end::GroupEnd;
pub use job::{Answers, Job};
pub use placing::place;
