//! The types of expressions: what becomes of each expression of a method, or which of the rules that it breaks is given.
//!
//! What it decides is what `ds2_elaboration` defines; the rules of single forms are those of `ds2_types`. `constants` has the
//! constants, `arguments` and `choices` the functions of several values, `growth` the chains of operators, which grow by one
//! operand after the other, and `chain_nodes` their trees.
#![tactic(auto)]

pub mod arguments;
pub mod chain_nodes;
pub mod choices;
pub mod constants;
pub mod growth;
