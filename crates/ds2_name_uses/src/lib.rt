//! Uses of names in a unit: names that are not there, calls of what is not there or with another number of arguments, targets that are no
//! variables, and calls of `setparms` outside of `init`, each at the earliest place.
//!
//! `usage` and `calls` have the rules, by tests on tables of names; `method_uses` takes them through the methods of a unit.
#![tactic(auto)]

mod arguments;
mod calls;
mod listed_names;
mod method_uses;
mod scope;
mod unit_tables;
mod usage;
mod used_names;

pub use used_names::{BrokenUses, broken_uses};
