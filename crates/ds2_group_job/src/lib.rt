//! The groups of a thread program as a job of a stage, and programs with the thread programs that they read from.
//!
//! A [`GroupJob`] stands on the machine on which `init` of the thread program was run once. Each worker has a copy of that machine, and a
//! cursor of its own over the loads. [`run_thread_on`] gives what [`StageRun::run`] gives on one thread, for every number of workers, where
//! groups of the thread program give the same whatever groups ran before them. The laws in [`laws`] say which thread programs these are.
//!
//! A [`StageRun`] is a thread program that can be run in both ways. [`run_into`] runs a whole program ([`ProgramRun`]) and takes what runs
//! its thread program as a function, so that it needs no threads itself.
//!
//! ```text
//! let program = ProgramRun { code: &code, tables: &tables, budget, grains: &grains, workers };
//! let run = |a: Global, stage: &StageRun, given: &[Value]| stage.run_on(rt, a, given, &NoGate);
//! let end = run_into(alloc, &program, &run, &mut sink)?;
//! ```
#![tactic(auto)]

mod gathering;
mod group_worker;
mod job;
pub mod laws;
mod on_workers;
mod program_run;
mod reader;
mod stage_run;
mod thread_on;
mod worker_run;

pub use ds2_unit::ThreadEnd;
pub use group_worker::GroupWorker;
pub use job::GroupJob;
pub use program_run::ProgramRun;
pub use reader::run_into;
pub use stage_run::StageRun;
pub use thread_on::run_thread_on;
