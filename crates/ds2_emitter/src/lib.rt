//! Writes the instructions of typed expressions, as `ds2_gen` defines them.
//!
//! Code is only appended. What a body names is turned into instructions by its [`Numbering`], so the emitter knows nothing of how
//! numbers are looked up.
#![tactic(auto)]

mod expressions;
mod numbering;
mod returning;
mod runs;

pub use expressions::{emit_call, emit_called, emit_expression};
pub use numbering::Numbering;
pub use returning::Returning;
pub use runs::{comparison_instr, emit, emit_truth};
