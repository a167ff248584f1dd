//! Programs in object files, with the thread program that one may read from.
//!
//! [`read_data_program`] takes a program off the front of bytes, exactly as `specs/ProgramSpelling.antt` says, and
//! [`write_data_program`] puts its one spelling behind bytes. `specs/ProgramRules.antt` says which programs have a spelling.
#![tactic(auto)]

mod globals;
pub mod laws;
mod read;
mod units;
mod write;

pub use globals::Globals;
pub use read::{push_made, read_data_program};
pub use units::Units;
pub use write::write_data_program;
