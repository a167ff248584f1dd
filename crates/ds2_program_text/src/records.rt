//! The record of a row whose values are those of slots.
ghost use Rattle.std.specs.Prelude.{◌≡◌, ◌++◌, ℕ, List as Items, map, slice_get, OnOk};
ghost use Rattle.csv.specs.Writing.{default_writer, row_body, row_text};
ghost use Rattle.ds2_value.specs.Value.{or_null};
ghost use Rattle.ds2_code.specs.Desk.{values_of_slots};
ghost use Rattle.ds2_csv_cells.specs.CellText.{cell_text};
ghost use Rattle.ds2_csv_records.specs.Records.{field_of};
ghost use Rattle.ds2_csv.specs.Text.{cells_text};

use ds2_base::{Bytes, Name, OutOfMemory};
use ds2_csv_cells::write_cell;
use ds2_csv_records::{add_separator, end_record};
use ds2_value::{Column, Ty, Value};
use itoa::Buffer;
use std::alloc::Global;

// Adds the cell of the value of a slot in a column of a type.
fn add_slot(
    alloc: Global,
    out: &mut Bytes,
    buffer: &mut Buffer,
    ty: Ty,
    slots: &[Value],
    number: usize,
) -> Result<(), OutOfMemory>
    ensures { OnOk result (out.new ≡ out.old ++ field_of (cell_text ty (or_null (slice_get slots.now number)))) }
{
    match slots.get(number) {
        None => write_cell(alloc, out, buffer, ty, &Value::Null),
        Some(value) => write_cell(alloc, out, buffer, ty, value),
    }
}

// Adds the cells of slots under their columns, with commas between them.
fn add_cells(
    alloc: Global,
    out: &mut Bytes,
    columns: &[Column],
    named: &[(Name, u32)],
    slots: &[Value],
) -> Result<(), OutOfMemory>
    ensures { OnOk result (out.new ≡ out.old ++ row_body default_writer (cells_text columns.now
        (values_of_slots (map (λ (column : Items ℕ × ℕ). column.1) named.now) slots.now))) }
{
    let mut buffer = Buffer::new();
    let mut later = columns;
    let mut rest = named;
    let mut is_first = true;
    'cells: while let [column, others @ ..] = later {
        match rest {
            [] => return Ok(()),
            [slot, after @ ..] => {
                add_separator(out, is_first)?;
                add_slot(alloc, out, &mut buffer, column.ty, slots, slot.1 as usize)?;
                is_first = false;
                later = others;
                rest = after;
            }
        }
    }
    Ok(())
}

/// Adds the record of a row: the values of the slots of its columns.
pub(crate) fn add_row(
    alloc: Global,
    out: &mut Bytes,
    columns: &[Column],
    named: &[(Name, u32)],
    slots: &[Value],
) -> Result<(), OutOfMemory>
    ensures { OnOk result (out.new ≡ out.old ++ row_text default_writer (cells_text columns.now
        (values_of_slots (map (λ (column : Items ℕ × ℕ). column.1) named.now) slots.now))) }
{
    let start = out.len();
    add_cells(alloc, out, columns, named, slots)?;
    end_record(out, start)?;
    Ok(())
}
