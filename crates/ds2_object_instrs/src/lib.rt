//! Instructions in object files: an operation code, and the fields of its row in the machine's table.
//!
//! The rows of the version stand in one table (`specs/InstrSpelling.antt`, `instr_rows`). [`read_instr`] takes an
//! instruction off the front of bytes, [`write_instr`] puts its one spelling behind bytes.
#![tactic(auto)]

mod instrs;
pub mod laws;

pub use instrs::{Fields, Shape, WrittenInstr, read_instr, write_instr};
