//! Records of CSV text: the records of a text, cell by cell, and the text of records.
//!
//! [`first_cell`] and [`Taken::next`] read the records of a text cell by cell, and [`next_record`] a whole one; a [`Cell`] that
//! stands in the text as it is, is lent and not copied. [`add_field`] and [`end_record`] write them.
#![tactic(auto)]

mod cell;
pub mod laws;
mod part;
mod read;
mod taken;
mod write;

pub use cell::{Cell, unquoted};
pub use part::{cut, without_front};
pub use read::{Record, next_record, without_mark};
pub use taken::{Taken, first_cell};
pub use write::{add_field, add_separator, end_record};
