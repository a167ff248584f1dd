//! The code that types data programs: the rules of types that a program breaks, or its typed tree.
//!
//! What it decides is what `ds2_elaboration` defines. [`Judgement`] is what becomes of an expression: what is known of its
//! type, and its typed tree or the first of the rules that it breaks. `refusals` says which of several broken rules is given,
//! `rules` has the rules that several forms share, `nodes` makes typed trees, and each further module has one function a form.
#![tactic(auto)]

pub mod assignment;
pub mod chains;
pub mod functions;
pub mod judgement;
pub mod nodes;
pub mod operators;
pub mod refusals;
pub mod rules;
