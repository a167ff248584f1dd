//! The verdicts on the thread programs of a source: which may be spread over workers, each under its name.
//!
//! `ds2_local` judges one thread program; [`judge_threads`] judges those of a source in order: the source tells in which order the hash objects of each are declared. `specs/SourceVerdicts.antt` has the verdicts of a
//! source over its elaboration, and [`laws`] say that they are those of the typed thread programs.
//!
//! ```text
//! let verdicts = judge_threads(alloc, &source, typed.threads.as_slice())?;
//! ```
#![tactic(auto)]

pub mod laws;
mod verdicts;

pub use ds2_locality::{Reason, Verdict};
pub use verdicts::{ThreadVerdict, judge_threads, verdict_on};
