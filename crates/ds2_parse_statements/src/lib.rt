//! The parser of expressions and statements: the part of a source in which levels open.
//!
//! Each function reads exactly its rule. [`expression`] and [`statements::statement`] promise their symbols besides: the tree whose
//! spelling was read, with which no spelling goes on, or the refusal at the first token that ends every spelling or that opens a
//! level too many. [`statements::statements`] reads statements one behind the other, up to a token that begins none.
//! [`grammar_reads_statements`] is the law that a statement has one tree.
#![tactic(auto)]

mod controls;
mod expressions;
mod laws;
mod simple_statements;
pub mod statements;
mod trees;

pub use expressions::expression;
pub use laws::{grammar_reads_expressions, grammar_reads_statements};
