//! What reading statements read: tables by their numbers, and a statement's tables and BY variables over them.
//!
//! [`Tables`] are the tables of a program's code, each shared with whoever else holds it. A [`Reading`] names some of them by number,
//! with the slots of their columns and flags; [`Reading::fits`] tells whether it fits the tables. A [`Load`] is what one call of `run`
//! reads, by numbers of rows.
//!
//! The rows of a reading statement in BY order: what the cursors of `set` and of `merge` share.
//!
//! [`SortedRows`] hold the rows of all tables that a [`crate::Reading`] names, in BY order. A contract sees their keys alone.
//! [`SortedRows::row_at`] is the row at a place; [`SortedRows::common_at`] tells in how many BY variables it is equal to the row before,
//! so that flags, keys and groups are found without a look at the values, and [`flags`] makes the flags of a load of it.
#![tactic(auto)]

mod columns;
pub mod flags;
mod heads;
mod inputs;
mod keyed_table;
mod load;
mod numbers;
mod reading;
mod settling;
mod sorted_rows;
mod table_row;
mod tables;

pub use ds2_hash::HashKey;
pub use load::Load;
pub use reading::{ByKey, ReadTable, Reading};
pub use sorted_rows::SortedRows;
pub use table_row::TableRow;
pub use tables::Tables;
