//! Tables that take the rows of an output.
ghost use Rattle.std.specs.Prelude.{◌≡◌, ℕ, List as Items, map, IfOk, OnOk};
ghost use Rattle.ds2_table.specs.Table.{with_row};
ghost use Rattle.ds2_code.specs.Desk.{values_of_slots};

use crate::output_sinks::RowSink;
use ds2_base::{List, Name, OutOfMemory};
use ds2_code::OutputPart;
use ds2_slots::copy_at;
use ds2_table::Table;
use ds2_value::{Row, Value};
use std::alloc::Global;

impl RowSink for Table {
    ghost use Rattle.std.specs.Prelude.{◌≡◌, ◌++◌};

    ghost has_rows = { λ from now rows. now ≡ record { columns = from.columns; rows = from.rows ++ rows } };

    fn take_values(
        &mut self,
        alloc: Global,
        output: &OutputPart,
        slots: &[Value],
    ) -> Result<(), OutOfMemory> {
        let row = row_of(alloc, output.columns.as_slice(), slots)?;
        push_fitting(self, row)?;
        Ok(())
    }
}

// The values of the slots of columns.
fn row_of(alloc: Global, columns: &[(Name, u32)], slots: &[Value]) -> Result<Row, OutOfMemory>
    ensures { IfOk result (λ row. row ≡ values_of_slots (map (λ (column : Items ℕ × ℕ). column.1) columns.now) slots.now) }
{
    let mut row = List::new(alloc);
    row.reserve(columns.len())?;
    'columns: for column in columns {
        let value = copy_at(alloc, slots, column.1 as usize)?;
        row.push(value)?;
    }
    Ok(row)
}

// Adds a row to a table. One that does not fit its columns, which valid code does not write, is refused as want of memory.
fn push_fitting(table: &mut Table, row: Row) -> Result<(), OutOfMemory>
    ensures { OnOk result (table.new ≡ with_row table.old row) }
{
    if !table.schema().fits(row.as_slice()) {
        return Err(OutOfMemory);
    }
    table.push(row)
}
