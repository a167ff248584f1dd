//! What is misplaced in a unit: statements, reading statements and heads of system methods, instances and lists in packages, `in_out` parameters
//! and long chains of thread programs, `_null_` beside another output, and options given twice; at the earliest place, calls of `setparms` aside.
//!
//! The rules of names on declarations of instances: packages, thread programs, variables, tables and hash objects that are not there, constants
//! that a constructor does not take, and what is no variable, each at the earliest place.
#![tactic(auto)]

mod broken;
mod constants;
mod kinds;
pub mod laws;
mod methods_and_outputs;
mod output_rule;
mod rules;
mod statements;
mod tables;
mod variables;

pub use broken::{BrokenInstances, broken_instances};
pub use methods_and_outputs::misplaced;
