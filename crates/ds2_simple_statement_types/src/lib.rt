//! The types of statements that hold no others: what becomes of each, or which of the rules that it breaks is given.
//!
//! What it decides is what `ds2_elaboration` defines; what becomes of the expressions in a statement is that of
//! `ds2_expression_walk`. Statements stand in a [`method_scope::MethodScope`] of names, outputs and the type that the method
//! returns. `outcomes` and `parts` say what stands of a statement, of two parts and of lists, `targets` looks up what is assigned
//! to, `settings` has the values for the parameters of a thread program, and each further module one kind of statement.
#![tactic(auto)]

pub mod assignments;
pub mod calls;
pub mod method_scope;
pub mod object_calls;
pub mod outcomes;
pub mod outputs;
pub mod parts;
pub mod puts;
pub mod returns;
pub mod settings;
pub mod targets;
