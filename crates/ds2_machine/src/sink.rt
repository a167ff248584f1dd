//! What takes the rows and lines that a unit writes.
ghost use Rattle.std.specs.Prelude.{[], ◌∷◌, List as Items, ℕ, OnOk};
ghost use Rattle.ds2_value.specs.Run.{Written};
ghost use Rattle.ds2_code.specs.CodeRun.{column_slots};
ghost use Rattle.ds2_code.specs.Desk.{values_of_slots};
ghost use Rattle.ds2_machine.specs.Sink.{SinkTakes};

use ds2_base::OutOfMemory;
use ds2_code::OutputPart;
use ds2_value::Value;
use std::alloc::Global;

/// What takes the rows and lines of a unit in the order in which they are written: a list keeps them, and a writer may keep the
/// text of a table alone.
pub trait UnitSink: Sized {
    /// From what the first one was, these rows and these lines have been taken, each in order.
    ghost has_taken: { Self → Self → Items Written → Items (Items ℕ) → Type 0 };

    /// Takes a row of output `number`: the values of the slots of its columns.
    fn take_row(
        &mut self,
        alloc: Global,
        number: u32,
        output: &OutputPart,
        slots: &[Value],
    ) -> Result<(), OutOfMemory>
        ensures { OnOk result (SinkTakes has_taken self.old self.new (record { output = number; row = values_of_slots (column_slots output.now) slots.now } ∷ []) []) };

    /// Takes a line.
    fn take_line(&mut self, alloc: Global, line: &str) -> Result<(), OutOfMemory>
        ensures { OnOk result (SinkTakes has_taken self.old self.new [] (line.now ∷ [])) };
}
