//! The layout of a typed program: a number, a slot, for each of its variables and flags.
//!
//! [`lay_out`] numbers the slots of a data program, and [`lay_out_thread`] those of a thread program: the declared variables and the
//! columns in the order of the program data vector, the parameters, the `in=` flags, two flags for each BY variable, and behind the
//! program's own the variables of its instances. A slot says what it is for, so that the retained variables are told apart from those
//! that `run` sets to null, and for each output the slots of its columns are given. `specs/Layout.antt` is the definition.
//!
//! Names are looked up by their hash: no list of names is gone through once for each use.
#![tactic(auto)]

mod names;
mod numbers;
mod program;
mod reading;
mod slot;
mod slots;

pub use program::{lay_out, lay_out_thread};
pub use slot::{Layout, LayoutSlot, SlotRole};
