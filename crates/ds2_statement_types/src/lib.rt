//! The types of statements: what becomes of each statement of a method, or which of the rules that it breaks is given.
//!
//! What it decides is what `ds2_elaboration` defines; what becomes of the expressions in a statement is that of
//! `ds2_expression_walk`, and what becomes of a statement that holds no others that of `ds2_simple_statement_types`.
//! [`walk::method_body`] goes through the statements of a method; [`returning`] says which statements surely return.
//! `branches`, `selections` and `loops` have the statements that hold others, `conditions`, `when_tests` and `counts` what
//! decides which of these run, and how often.
#![tactic(auto)]

pub mod branches;
pub mod conditions;
pub mod counts;
pub mod loops;
pub mod returning;
pub mod selections;
pub mod walk;
pub mod when_tests;
