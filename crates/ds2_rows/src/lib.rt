//! The loads of a `set` statement, one after the other.
//!
//! A [`SetCursor`] gives them lazily: it keeps the numbers of the rows in BY order, and where its groups begin. A
//! contract sees all loads, how many were given, and the grain of the groups. A [`SetWalk`] gives the same loads to those who ask for no
//! groups, and keeps none.
//!
//! ```text
//! let mut cursor = SetCursor::open(alloc, &reading, &tables, 1)?;
//! while let Some(load) = cursor.next_load() { .. }
//! ```
#![tactic(auto)]

mod cursor;
mod groups;
mod row_load;
mod walk;

pub use cursor::SetCursor;
pub use walk::SetWalk;
