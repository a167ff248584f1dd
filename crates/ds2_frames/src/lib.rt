//! What the methods of a unit that are under way hold: their operands and locals, and the callers that wait.
//!
//! The values of all of them lie in one vector, a [`Pile`], whose places are kept from method to method and from unit to unit: a call
//! moves the base of the method that is at work, and a return moves it back. [`Frames`] says where the values of each caller begin, and
//! [`Arguments`] holds those of a call on their way from the operands to the locals.
//!
//! ```text
//! let caller = operands.enter();
//! operands.push_copy(alloc, &value)?;
//! operands.leave(caller);
//! ```
//!
//! What the operations of stack code give for their operands, and the lines of texts that code writes.
//!
//! An operation reads its operands as a slice, wherever they lie, and gives the value that stands in their place, or a fault:
//! [`computed`]. `ds2_code`'s table says what each is (`specs/InstructionTable.antt`). For those that go by each of two values there
//! is [`computed_from_pair`], which takes no memory, and so is a short way for arithmetic and comparisons.
//!
//! ```text
//! let value = computed(alloc, Instr::Choose(3), operands)?;
//! ```
#![tactic(auto)]

mod arguments;
mod choices;
mod decimals;
mod frames;
mod lines;
mod operation;
mod pile;

pub use arguments::Arguments;
pub use frames::{Frames, Waiting};
pub use lines::write_line;
pub use operation::{computed, computed_from_pair, operands_of};
pub use pile::Pile;
