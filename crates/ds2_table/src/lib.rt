//! Tables, and the one-thread answer of a program over the rows of its tables.
//!
//! A contract sees a [`Table`] as its columns and its rows; every row fits the columns.
//!
//! ```text
//! let mut table = Table::new(alloc, schema);
//! table.push(row)?;
//! ```
#![tactic(auto)]

mod columns;
pub mod laws;
mod table;

pub use table::Table;
