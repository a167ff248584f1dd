//! The words of object files: numbers, texts, names, types and lists as bytes, and how they are read and written.
//!
//! What has a spelling is [`Spelled`]. A call of `read` takes one off the front of the bytes that are [`Unread`], exactly as
//! `specs/Parts.antt` says, or tells the first [`Flaw`]; a call of `write` puts its one spelling behind bytes.
#![tactic(auto)]

mod constants;
mod flaw;
pub mod laws;
mod lists;
mod numbers;
mod parts;
mod spelled;
mod texts;
mod types;
mod unread;

pub use flaw::Flaw;
pub use spelled::Spelled;
pub use texts::{read_table_name, read_text, write_table_name, write_text};
pub use unread::{Unread, bad};
