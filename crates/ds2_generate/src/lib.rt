//! Writes the code of typed programs.
//!
//! [`generate`] writes exactly the code that `ds2_program_code` defines, so the laws of that crate speak of what it writes. [`staged`] has a
//! data program and the thread programs that it stands on, one behind the other, and [`program`] the parts of one of them: [`constants`] and
//! [`slots`], which all else is written over as a [`unit`](unit::Unit), [`bodies`], its instructions and methods, and [`tables`] and
//! [`readings`], the rest.
#![tactic(auto)]

mod bodies;
mod constants;
mod program;
mod readings;
mod slots;
mod staged;
mod tables;
mod unit;

pub use staged::generate;
