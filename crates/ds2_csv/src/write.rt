//! Writing of a table.
ghost use Rattle.std.specs.Prelude.{◌≡◌, ◌++◌, map, OnOk, IfOk, string_bytes};
ghost use Rattle.csv.specs.Writing.{default_writer, fields_text, row_body, row_text};
ghost use Rattle.ds2_csv.specs.Text.{heading_text, cells_text, text};

use crate::TableWriter;
use ds2_base::{Bytes, OutOfMemory};
use ds2_csv_cells::{type_text, write_cell};
use ds2_csv_records::{add_field, add_separator, end_record};
use ds2_table::Table;
use ds2_value::{Column, Row, Value};
use itoa::Buffer;
use std::alloc::{AllocError, Global};

// A column's cell in the header.
fn heading_text(alloc: Global, column: &Column) -> Result<String, AllocError>
    ensures { IfOk result (λ cell. string_bytes cell ≡ heading_text column.now) }
{
    let name = column.name.as_str();
    let ty = type_text(alloc, column.ty)?;
    format!(in alloc; "{name} {ty}")
}

// Adds the cells of the header, with commas between them.
fn header_cells(alloc: Global, out: &mut Bytes, columns: &[Column]) -> Result<(), OutOfMemory>
    ensures { OnOk result (out.new ≡ out.old ++ row_body default_writer (map heading_text columns.now)) }
{
    let mut rest = columns;
    let mut first = true;
    'columns: while let [column, others @ ..] = rest {
        let cell = heading_text(alloc, column)?;
        add_separator(out, first)?;
        add_field(out, cell.as_bytes())?;
        rest = others;
        first = false;
    }
    Ok(())
}

// Adds the cells of a row under its columns, with a comma before each.
fn later_cells(
    alloc: Global,
    out: &mut Bytes,
    buffer: &mut Buffer,
    columns: &[Column],
    row: &[Value],
) -> Result<(), OutOfMemory>
    ensures { OnOk result (out.new ≡ out.old ++ fields_text default_writer (cells_text columns.now row.now)) }
{
    let mut later = columns;
    let mut rest = row;
    'cells: while let [column, after @ ..] = later {
        match rest {
            [] => return Ok(()),
            [value, others @ ..] => {
                add_separator(out, false)?;
                write_cell(alloc, out, buffer, column.ty, value)?;
                later = after;
                rest = others;
            }
        }
    }
    Ok(())
}

// Adds the cells of a row under its columns, with commas between them.
fn row_cells(
    alloc: Global,
    out: &mut Bytes,
    columns: &[Column],
    row: &[Value],
) -> Result<(), OutOfMemory>
    ensures { OnOk result (out.new ≡ out.old ++ row_body default_writer (cells_text columns.now row.now)) }
{
    let mut buffer = Buffer::new();
    match columns {
        [] => Ok(()),
        [column, later @ ..] => match row {
            [] => Ok(()),
            [value, rest @ ..] => {
                write_cell(alloc, out, &mut buffer, column.ty, value)?;
                later_cells(alloc, out, &mut buffer, later, rest)?;
                Ok(())
            }
        },
    }
}

/// Adds the record of the header.
pub fn add_header(alloc: Global, out: &mut Bytes, columns: &[Column]) -> Result<(), OutOfMemory>
    ensures { OnOk result (out.new ≡ out.old ++ row_text default_writer (map heading_text columns.now)) }
{
    let start = out.len();
    header_cells(alloc, out, columns)?;
    end_record(out, start)?;
    Ok(())
}

/// Adds the record of a row under its columns.
pub fn add_row(
    alloc: Global,
    out: &mut Bytes,
    columns: &[Column],
    row: &[Value],
) -> Result<(), OutOfMemory>
    ensures { OnOk result (out.new ≡ out.old ++ row_text default_writer (cells_text columns.now row.now)) }
{
    let start = out.len();
    row_cells(alloc, out, columns, row)?;
    end_record(out, start)?;
    Ok(())
}

/// The bytes of a table of these columns and rows: a record of header cells, each a column's name, one blank and its type, and a
/// record for each row, with quotes where they are needed. Null is nothing in a number column and `\N` in a text column, and a
/// text that begins with a backslash gets one more.
pub fn write_rows(alloc: Global, columns: &[Column], rows: &[Row]) -> Result<Bytes, OutOfMemory>
    ensures { IfOk result (λ bytes. bytes ≡ text (record { columns = columns.now; rows = rows.now })) }
{
    let mut writer = TableWriter::new(alloc, columns)?;
    'each: for row in rows {
        writer.add(alloc, columns, row.as_slice())?;
    }
    writer.into_bytes()
}

/// The bytes of a table, as [`write_rows`] gives them for its columns and rows.
#[tactic(auto, using(crate::proofs::Writing::rows_in_turn))]
pub fn write_table(alloc: Global, t: &Table) -> Result<Bytes, OutOfMemory>
    ensures { IfOk result (λ bytes. bytes ≡ text t.now) }
{
    let columns = t.schema().columns().as_slice();
    let count = t.len();
    let mut writer = TableWriter::new(alloc, columns)?;
    'rows: for row in 0..count {
        let values = t.row(alloc, row)?;
        writer.add(alloc, columns, values.as_slice())?;
    }
    writer.into_bytes()
}
