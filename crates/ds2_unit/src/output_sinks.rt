//! A sink for each output of a program.
ghost use Rattle.std.specs.Prelude.{List as Items, OnOk};
ghost use Rattle.ds2_value.specs.Row.{Row as RowOf};
ghost use Rattle.ds2_code.specs.CodeRun.{column_slots};
ghost use Rattle.ds2_code.specs.Desk.{values_of_slots};
ghost use Rattle.ds2_unit.specs.Outputs.{RowTaken};

use ds2_base::{List, OutOfMemory, Text};
use ds2_code::OutputPart;
use ds2_machine::UnitSink;
use ds2_value::Value;
use std::alloc::Global;

/// What takes the rows of one output in the order in which they are written: a table keeps them, and a writer may keep the text of a
/// table alone.
pub trait RowSink: Sized {
    /// From what the first one was, these rows have been taken, in order.
    ghost has_rows: { Self → Self → Items RowOf → Type 0 };

    /// Takes the values of the slots of an output's columns as a row.
    fn take_values(
        &mut self,
        alloc: Global,
        output: &OutputPart,
        slots: &[Value],
    ) -> Result<(), OutOfMemory>
        ensures { OnOk result (RowTaken has_rows self.old self.new (values_of_slots (column_slots output.now) slots.now)) };
}

/// A sink for each output of a program, in order, and the lines that it put. Rows of an output without a sink go nowhere.
#[derive(Drop)]
pub struct OutputSinks<R> {
    pub outputs: Vec<R>,
    pub lines: List<Text>,
}

impl<R: RowSink> UnitSink for OutputSinks<R> {
    ghost use Rattle.std.specs.Prelude.{◌≡◌, ◌++◌};
    ghost use Rattle.ds2_unit.specs.Outputs.{HaveRows};

    ghost has_taken = { λ from now rows lines. HaveRows R.has_rows rows 0 from.outputs.items now.outputs.items × (now.lines ≡ from.lines ++ lines) };

    fn take_row(
        &mut self,
        alloc: Global,
        number: u32,
        output: &OutputPart,
        slots: &[Value],
    ) -> Result<(), OutOfMemory> {
        if number as usize >= self.outputs.len() {
            return Ok(());
        }
        self.outputs[number as usize].take_values(alloc, output, slots)?;
        Ok(())
    }

    fn take_line(&mut self, alloc: Global, line: &str) -> Result<(), OutOfMemory> {
        self.lines.push(Text::of(alloc, line)?)?;
        Ok(())
    }
}
