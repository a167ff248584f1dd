//! Where the code of the bodies of a typed program finds what they name: a `Numbering` of each body.
//!
//! [`BodyNumbers`] looks slots ([`SlotTable`]), the variables of a body ([`VariableTable`], [`MethodTable`]) and constants up by their hash, and
//! all other names in the lists that the program itself has, one behind the other.
#![tactic(auto)]

mod body_numbers;
mod cell;
mod find;
mod frame;
mod methods;
mod name_table;
mod numbering;
mod search;
mod slot_table;
mod sought;
mod sought_equality;
mod sums;

pub use body_numbers::BodyNumbers;
pub use cell::Cell;
pub use find::find_hash;
pub use frame::Frame;
pub use name_table::{MethodTable, VariableTable};
pub use slot_table::SlotTable;
pub use sought::{GlobalSort, HomeName, Sought};
