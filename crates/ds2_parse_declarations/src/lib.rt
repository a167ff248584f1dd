//! The parser of what opens no level: reading statements, types, declarations, parameters and output tables.
//!
//! Each function reads exactly its rule: the tree and the tokens behind it, or the refusal where the rule has it, but for want of
//! memory.
#![tactic(auto)]

pub mod declarations;
pub mod outputs;
pub mod parameters;
pub mod readings;
pub mod types;
