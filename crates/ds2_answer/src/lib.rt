//! The answer to a line of words over the files of a store: what is said in the log and asked of the store, in order, and a status.
//!
//! `specs/CommandPlans.antt` has the answer, a plan (`specs/Plan.antt`), of which the one-thread meaning of a source's programs, or of an
//! object's code, is a part. Here stand the words that a command line may have ([`read_command_line`]), what a command may end with
//! ([`Status`]), the lines of its log ([`lines`]), and what `demo` runs over ([`demo_files`]) and tells of it
//! ([`say_without_counts`]). [`laws`] say what holds of every answer.
//!
//! ```text
//! match read_command_line(alloc, words)? {
//!     Some(command) => run(command),
//!     None => lines::say_usage(log)?,
//! }
//! ```
//!
//! The table of [`sales`] over which `demo` runs is made from one number: numbers are drawn one out of the other, the first out of the number
//! of rows.
#![tactic(auto)]

mod command_line;
mod counts;
mod demo;
mod drawn;
mod kinds;
pub mod laws;
pub mod lines;
mod sales_table;
mod schema;
mod status;
mod words;

pub use command_line::{CommandLine, GivenOptions, MOST_THREADS, read_command_line};
pub use counts::say_without_counts;
pub use demo::{demo_files, demo_job};
pub use drawn::{AMOUNTS, REGIONS};
pub use ds2_csv::{CsvRefusal, read_table};
pub use kinds::{FileKind, OBJECT_LIMIT, SOURCE_LIMIT, TABLE_LIMIT};
pub use sales_table::{MOST_SALES, sales, sales_total};
pub use status::Status;
pub use words::{DEFAULT_BUDGET, MOST_BUDGET};
