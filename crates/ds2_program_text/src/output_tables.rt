//! The tables of outputs, without rows.
ghost use Rattle.std.specs.Prelude.{◌≡◌, map, IfOk};
ghost use Rattle.ds2_unit.specs.Outputs.{type_of_slot, column_of_output};
ghost use Rattle.ds2_program_text.specs.OutputHeads.{table_without_rows};

use crate::WrittenTable;
use ds2_base::{List, Name, OutOfMemory};
use ds2_code::{OutputPart, Slot};
use ds2_csv::TableWriter;
use ds2_value::{Column, Ty};
use std::alloc::Global;

// The type of a slot.
fn type_of_slot(slots: &[Slot], number: usize) -> Ty
    ensures { result ≡ type_of_slot slots.now number }
{
    match slots.get(number) {
        None => Ty::BigInt,
        Some(slot) => slot.ty,
    }
}

// The column of an output that has this name and this slot.
fn column_of_output(
    alloc: Global,
    slots: &[Slot],
    named: &(Name, u32),
) -> Result<Column, OutOfMemory>
    ensures { IfOk result (λ column. column ≡ column_of_output slots.now named.now) }
{
    let name = named.0.copy(alloc)?;
    Ok(Column {
        name,
        ty: type_of_slot(slots, named.1 as usize),
    })
}

// The columns of an output.
fn columns_of_output(
    alloc: Global,
    slots: &[Slot],
    named: &[(Name, u32)],
) -> Result<List<Column>, OutOfMemory>
    ensures { IfOk result (λ columns. columns ≡ map (column_of_output slots.now) named.now) }
{
    let mut columns = List::new(alloc);
    let mut rest = named;
    'columns: while let [first, after @ ..] = rest {
        columns.push(column_of_output(alloc, slots, first)?)?;
        rest = after;
    }
    Ok(columns)
}

/// The table of an output, without rows.
pub fn table_without_rows(
    alloc: Global,
    slots: &[Slot],
    output: &OutputPart,
) -> Result<WrittenTable, OutOfMemory>
    ensures { IfOk result (λ table. table ≡ table_without_rows slots.now output.now) }
{
    let name = output.name.copy(alloc)?;
    let columns = columns_of_output(alloc, slots, output.columns.as_slice())?;
    let text = TableWriter::new(alloc, columns.as_slice())?.into_bytes()?;
    Ok(WrittenTable {
        name,
        overwrites: output.overwrites,
        columns,
        text,
        rows: 0,
    })
}
