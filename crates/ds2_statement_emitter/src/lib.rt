//! Writes the instructions of typed statements, as `ds2_gen` defines them.
//!
//! Code is only appended. A jump forward is left open, or leads to a mark, until its target is known.
#![tactic(auto)]

mod aims;
mod bodies;
mod counts;
mod loops;
mod parts;
mod redirect;
mod statements;
mod subject;
mod when_tests;

pub use bodies::{emit_method, emit_system};
