//! The walk over the statements of a body, recorded once from all locations on: which of them it reads before it makes them clean, and
//! which it leaves. From that, the walk from any dirty set is told at once.
//!
//! `bits` and `location_set` have sets of locations by their numbers, the latter by the `number_marks` of what is not in them. `record` has
//! what is recorded, `walk_scope` what a walk finds around a statement.
//! `decided` tells which way a condition goes by the flags that are known; `walk_reads`, `expression_walk` and `statement_walk` walk.
#![tactic(auto)]

mod bits;
mod branches;
mod decided;
mod expression_walk;
mod location_set;
mod number_marks;
mod record;
mod statement_walk;
mod walk_reads;
mod walk_scope;

pub use bits::{common, is_on, united};
pub use decided::is_by;
pub use location_set::LocationSet;
pub use record::{CallEffect, RecordedRead, RecordedWalk};
pub use statement_walk::walk_body;
pub use walk_reads::read_output;
pub use walk_scope::RecordScope;
