//! The tables of a program's outputs as texts, made row by row: cells go into the text as rows are written, and no row is kept.
//!
//! [`WrittenTable`] takes rows as a [`RowSink`] of `ds2_unit`; [`table_without_rows`] begins one.
//!
//! ```text
//! let table = table_without_rows(alloc, slots, output)?;
//! ```
#![tactic(auto)]

mod output_tables;
mod records;
mod table_sink;
mod written_table;

pub use ds2_unit::RowSink;
pub use output_tables::table_without_rows;
pub use written_table::WrittenTable;
