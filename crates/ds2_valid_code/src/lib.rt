//! Valid code: whether the parts of a program's code are valid, and code that is.
//!
//! [`verify`] gives the [`ProgramCode`] of parts exactly where they are valid code (`ds2_code`'s `specs/ValidCode.antt`). It goes through
//! the parts once: no clause goes through the list once an entry, names are compared in their order, and whose code an instruction is by the
//! number of the first method with an equal signature. A call costs its method's parameters. Each clause is a test of its own.
#![tactic(auto)]

mod jumps;
mod layout;
mod marks;
mod names;
mod owner;
mod program;
mod results;
mod rows;
mod scan;
mod stack;
mod values;

pub use jumps::jumps_are_bounded;
pub use layout::{layout_is_fit, outputs_are_named_apart};
pub use program::{ProgramCode, verify};
pub use values::values_are_allowed;
