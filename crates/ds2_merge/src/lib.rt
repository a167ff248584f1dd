//! The loads of a `merge` statement, one after the other.
//!
//! A [`MergeCursor`] gives them lazily: it keeps the numbers of the rows in BY order, where those of each table stand that have the key
//! whose loads it gives, and where its groups begin. A contract sees all loads, how many were given, and the grain of the
//! groups. The loads are the same with `/ retain` and without: what that changes is what a load does to the columns of a table whose
//! row it does not read, and [`ds2_reading::Load::is_fresh`] tells the first load of a key. A [`MergeWalk`] gives the same loads to
//! those who ask for no groups, and keeps none.
//!
//! ```text
//! let mut cursor = MergeCursor::open(alloc, &reading, &tables, 1)?;
//! while let Some(load) = cursor.next_load() { .. }
//! ```
#![tactic(auto)]

mod cursor;
mod groups;
mod key_load;
mod key_place;
mod next_key;
mod next_load;
mod present;
mod walk;

pub use cursor::MergeCursor;
pub use walk::MergeWalk;
