//! The commands: what each does at a store, and the lines that it adds to a log which is written later.
//!
//! [`do_command`] does what a line of words says. What runs a thread program ([`StageRun`]) is a parameter: on one thread, or its groups on
//! many workers where it is local. What it does is the command's plan (`plan_of_command` of `ds2_answer`), or the plan up to a halt in it:
//! `DoesCommand` in `specs/CommandOutcomes.antt`. Each command has a module of its own; a further one adds a module, and a case on the line.
//!
//! ```text
//! let mut session = Session { alloc, log: List::new(alloc), store: &mut store };
//! let run = |a: Global, stage: &StageRun, given: &[Value]| stage.run(a, given);
//! let ended = do_command(&mut session, words, &run);
//! ```
#![tactic(auto)]

mod check;
mod commands;
mod compile;
mod compiling;
mod demo;
mod exec;
mod loaded;
mod refusals;
mod run;
mod source_run;
mod sources;
mod storing;

pub use commands::do_command;
pub use ds2_compile::sources_are_read;
pub use ds2_exec::{StageRun, ThreadEnd};
