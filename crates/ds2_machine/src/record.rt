//! What a unit wrote, kept in lists.
ghost use Rattle.std.specs.Prelude.{◌≡◌, [], IfOk};
ghost use Rattle.ds2_code.specs.Desk.{values_of_slots};
ghost use Rattle.ds2_machine.specs.Kept.{slots_of_columns};

use crate::UnitSink;
use ds2_base::{List, Name, OutOfMemory, Text};
use ds2_code::OutputPart;
use ds2_slots::copy_at;
use ds2_value::{Row, Value};
use std::alloc::Global;

/// A row that a unit wrote.
#[derive(Drop)]
pub struct OutRow {
    /// The number of the output.
    pub output: u32,
    pub row: Row,
}

/// The rows and the lines that units wrote, each in order.
#[derive(Drop)]
pub struct UnitRecord {
    pub rows: List<OutRow>,
    pub lines: List<Text>,
}

impl UnitRecord {
    /// Nothing yet. Takes no memory.
    pub fn new(alloc: Global) -> UnitRecord
        ensures { result ≡ record { rows = []; lines = [] } }
    {
        UnitRecord {
            rows: List::new(alloc),
            lines: List::new(alloc),
        }
    }
}

impl UnitSink for UnitRecord {
    ghost use Rattle.std.specs.Prelude.{◌≡◌, ◌++◌};
    ghost use Rattle.ds2_machine.specs.Kept.{all_written};

    ghost has_taken = { λ from now rows lines. (all_written now.rows ≡ all_written from.rows ++ rows) × (now.lines ≡ from.lines ++ lines) };

    fn take_row(
        &mut self,
        alloc: Global,
        number: u32,
        output: &OutputPart,
        slots: &[Value],
    ) -> Result<(), OutOfMemory> {
        let row = row_of(alloc, output.columns.as_slice(), slots)?;
        self.rows.push(OutRow {
            output: number,
            row,
        })?;
        Ok(())
    }

    fn take_line(&mut self, alloc: Global, line: &str) -> Result<(), OutOfMemory> {
        self.lines.push(Text::of(alloc, line)?)?;
        Ok(())
    }
}

// The values of the slots of columns.
#[tactic(auto, using(crate::proofs::KeptLemmas::row_next))]
fn row_of(alloc: Global, columns: &[(Name, u32)], slots: &[Value]) -> Result<Row, OutOfMemory>
    ensures { IfOk result (λ row. row ≡ values_of_slots (slots_of_columns columns.now) slots.now) }
{
    let mut row = List::new(alloc);
    row.reserve(columns.len())?;
    for column in columns {
        let value = copy_at(alloc, slots, column.1 as usize)?;
        row.push(value)?;
    }
    Ok(row)
}
