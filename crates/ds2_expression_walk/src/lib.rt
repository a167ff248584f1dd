//! The types of whole expressions: what becomes of each expression of a method, or which of the rules that it breaks is given.
//!
//! What it decides is what `ds2_elaboration` defines; the rules of single forms are those of `ds2_types`, those of functions of
//! several values and of chains those of `ds2_expression_types`, those of names, objects and methods those of
//! `ds2_reference_types`. [`walk::judge`] is the walk over an expression, in a scope of names. `argument_counts` and
//! `named_functions` have functions by their names, `places` the places of expressions.
#![tactic(auto)]

pub mod argument_counts;
pub mod named_functions;
pub mod places;
pub mod walk;
