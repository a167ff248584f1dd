//! What the statements of a body need beside their instructions: the types of the values that their code keeps, and whether one of them
//! writes a row.
#![tactic(auto)]

mod expression_types;
mod outputs;
mod types;

pub use outputs::statements_have_output;
pub use types::add_kept_types;
