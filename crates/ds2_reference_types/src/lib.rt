//! What the names in expressions refer to: variables, objects and methods, with what becomes of them or the rule that they break.
//!
//! What it decides is what `ds2_elaboration` defines. Names are looked up in a [`scopes::Scope`] of tables by names. `names`,
//! `variables` and `settable` say what names stand for, `objects` has the calls of hash objects and iterators, `parameters` and
//! `passing` the arguments and results of methods.
#![tactic(auto)]

pub mod names;
pub mod objects;
pub mod parameters;
pub mod passing;
pub mod scopes;
pub mod settable;
pub mod variables;
