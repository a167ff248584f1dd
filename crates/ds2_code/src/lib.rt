//! Stack code: the instructions of the machine, what a program's code has, and what it does.
//!
//! [`Instr`] has a variant for each of the [`ROWS`] of the machine's table. `specs/InstructionTable.antt` says what each does, by
//! kinds, `specs/CodeRun.antt` what one instruction leads to, and `specs/CodeUnit.antt` what a unit of code is: a function, for any
//! list of instructions. The laws of such units are in [`laws`].
//!
//! Decimals have the scales of their types along the run of valid code.
//!
//! A machine of valid code whose slots hold decimals of their scales goes on so: each operand, local and slot has the scale of its type,
//! and a product of decimals has at most 38 digits after the point. [`scale_laws`] says so, for code without hash objects.
//!
//! Values fit their types along the run of valid code.
//!
//! Valid code from data and loads that fit ends in time, is never stuck, and leaves what fits: the values of slots, of the items of
//! hash objects and of parameters are of the types of their slots, and so are those of each row that was written. [`fitting_laws`] says so of
//! whole units, and of single instructions.
#![tactic(auto)]

pub mod fitting_laws;
mod instr;
pub mod laws;
mod lengths;
mod parts;
mod ranges;
mod rows;
pub mod scale_laws;

pub use instr::Instr;
pub use parts::{
    ByPart, Constant, HashPart, HashTable, MethodPart, OutputPart, ParameterPart, ProgramParts,
    ReadPart, ReadingPart, Slot, SlotRole, StagedParts, TableReference,
};
pub use rows::{ROW_COUNT, ROWS, Rows, rows_in_order};
