//! The run of a program's code on one thread: its units one after the other, on the loads of any source.
//!
//! What a program writes goes to a sink as it is written, and a [`RunEnd`] says how the program has ended: [`run_into`] promises the
//! one-thread answer of the code over its tables, as `ds2_code_answer` defines it. [`OutputSinks`] have a sink for each output.
//! [`run_units`] runs the units of a machine's program on the loads of a source, [`run_loads`] the unit `run` alone.
//!
//! [`run_thread`] runs a thread program whole, told as a [`ThreadRun`], from its machine ([`open_thread`]), and keeps what it writes.
//! [`run_rows`] goes on behind it: the rows are read straight from there. Who runs its groups otherwise begins by [`open_loads`] and ends by
//! [`thread_end`].
//! What holds of the groups of a program that ran is in [`laws`].
//!
//! ```text
//! let end = run_into(alloc, &code, &tables, budget, &grains, &mut sink)?;
//! ```
#![tactic(auto)]

mod alone;
mod given;
mod grains;
pub mod laws;
mod output_sinks;
mod place;
mod program_end;
mod reader;
mod reading;
mod table_sink;
mod thread;
mod thread_run;
mod units;
mod units_end;

pub use alone::run_into;
pub use given::are_given_scaled;
pub use grains::first_grain;
pub use output_sinks::{OutputSinks, RowSink};
pub use place::ProgramPlace;
pub use program_end::{RunEnd, StageNote, ended_alone};
pub use reader::{ReaderRun, ended_behind, open_reader, run_rows};
pub use thread::{ThreadEnd, run_thread, tables_behind, thread_end};
pub use thread_run::{ThreadRun, open_loads, open_thread};
pub use units::{run_loads, run_to_end, run_units, sum_of};
pub use units_end::UnitsEnd;
