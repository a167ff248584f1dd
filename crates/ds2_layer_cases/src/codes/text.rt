//! Codes as a person writes them into the cases of a program. [`assemble`] tells how.
mod assembly;
mod instruction;
mod operation;
mod parts;
mod words;

pub use crate::codes::text::assembly::assemble;
pub use crate::codes::text::parts::value;
pub use crate::codes::text::words::{Read, Unreadable, number, refused};
