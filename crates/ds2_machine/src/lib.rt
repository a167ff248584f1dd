//! The machine that runs stack code, one unit at a time, in exactly the steps that the meaning of code says.
//!
//! A [`Machine`] holds a program's data between its units. A [`UnitLoad`] sets slots before the unit `run`. What a unit writes goes
//! to a [`UnitSink`] as it is written, and a [`UnitEnd`] says how it has ended.
//!
//! ```text
//! let mut machine = Machine::open(alloc, &code, 0, &given, &tables, 0)?;
//! let end = machine.call_init(alloc, &code, budget, &mut sink)?;
//! ```
#![tactic(auto)]

mod load;
mod machine;
mod program;
mod record;
mod sink;
mod state;
mod unit_end;

pub use load::UnitLoad;
pub use machine::{MOST_BUDGET, Machine};
pub use record::{OutRow, UnitRecord};
pub use sink::UnitSink;
pub use unit_end::UnitEnd;
