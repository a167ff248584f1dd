//! The top call: what a line of words does to a store of files and a log.
//!
//! [`ds2_alone`] and [`ds2`] do a command and answer a [`Status`]. Their one clause is `Headline` (`specs/Headline.antt`).
//!
//! ```text
//! let status = ds2_alone(alloc, words, &mut store, &mut log);
//! ```
#![tactic(auto)]

mod report;
mod top;

pub use ds2_answer::Status;
pub use top::{ds2, ds2_alone};
