//! Columns of values: numbers and texts one behind the other, without a row between them.
//!
//! A contract sees a [`ColumnValues`] as the type of its values and the list of them. Whole numbers, and decimals whose units have
//! 64 bits, take eight bytes each; texts stand in one run of bytes; which values are null is marked beside.
//!
//! ```text
//! let mut column = ColumnValues::new(alloc, Ty::BigInt);
//! column.push(Cell::Int(7))?;
//! ```
#![tactic(auto)]

mod column;
mod decimals;
mod items;
mod marks;
mod texts;

pub use column::ColumnValues;
