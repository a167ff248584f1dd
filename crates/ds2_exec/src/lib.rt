//! The run of objects over a store: their tables are read, their outputs are asked for, and their programs run one behind the other.
//!
//! [`exec`] runs an object and gives a status and the text for the log ([`ExecEnd`]); what it does is the object's plan (`object_plan` of
//! `ds2_answer`). Its last step is [`run_programs`], which a command that compiles a source makes too; those before it are of
//! `ds2_store_steps`. What runs a thread program ([`StageRun`]) is a parameter: on the caller's thread, or its groups on many workers where it
//! is local.
//!
//! ```text
//! let object = decode(alloc, &bytes)?;
//! let end = exec(alloc, &object, &mut store, budget)?;
//! ```
//!
//! The code of a thread program whose groups are independent may run on many workers.
//!
//! The laws are in [`local_laws`]: where the code of a typed thread program is independent at a grain, as that of one that the verdict calls local
//! is, its groups there give the same whatever groups ran before them, over any tables of the code, as `ds2_group_job` asks of a thread
//! program that it runs on many workers.
#![tactic(auto)]

mod key;
pub mod laws;
pub mod local_laws;
mod object_run;
mod output_rows;
mod output_sink;
mod programs;
mod run_codes;
mod run_input;
mod stages;
mod workers;

pub use ds2_group_job::{StageRun, ThreadEnd};
pub use object_run::{ExecEnd, exec, run_object};
pub use programs::run_programs;
pub use run_codes::RunCodes;
pub use run_input::RunInput;
