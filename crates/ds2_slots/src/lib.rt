//! The slots of a program: values by their numbers, and hash objects whose key and data variables are slots.
//!
//! ```text
//! let mut objects = HashObjects::load(alloc, code.slots.as_slice(), code.hashes.as_slice(), code.iterators.as_slice(), &tables)?;
//! let object = NumberedPart { number: 0, part };
//! let code_of_call = objects.call(alloc, HashFunction::Find, object, code.iterators.as_slice(), &mut slots)?;
//! ```
#![tactic(auto)]

mod call;
mod iteration;
mod loading;
mod objects;
mod shift;
mod slots;
mod tables;

pub use objects::{HashObjects, NumberedPart};
pub use slots::{clear, copy_all, copy_at, nulls, set, set_values, values_at};
pub use tables::HashTables;
