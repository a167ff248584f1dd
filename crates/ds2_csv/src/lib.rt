//! CSV tables: every file is the one table that its bytes mean, or is refused with the first reason and its place.
//!
//! [`read_table`] reads a table from bytes, and [`write_table`] writes it again:
//!
//! ```text
//! let table = read_table(alloc, &bytes)?;
//! let copy = write_table(alloc, &table)?;
//! ```
//!
//! A [`CsvRefusal`] tells why bytes are no table, and where. [`TableWriter`] writes a table whose rows come one after the other.
#![tactic(auto)]

mod blanks;
mod column;
mod header;
mod heading;
mod items;
pub mod laws;
mod limits;
mod read;
mod refusal;
mod typed;
mod write;
mod writer;

pub use limits::{MOST_BYTES, MOST_CELLS, MOST_COLUMNS};
pub use read::read_table;
pub use refusal::{CsvKind, CsvRefusal};
pub use write::{write_rows, write_table};
pub use writer::TableWriter;
