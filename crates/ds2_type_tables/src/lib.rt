//! Tables of what the names of a method stand for, of which `ds2_expression_walk` makes its scopes.
//!
//! Each table tells of each name what the definitions of `ds2_elaboration` do, which look at lists: a use of a name takes one
//! look-up, however many names there are.
#![tactic(auto)]

pub mod bys;
pub mod clashes;
pub mod globals;
pub mod laws;
pub mod locals;
pub mod methods;
pub mod objects;
pub mod tables;
