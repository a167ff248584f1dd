//! The text of records.
ghost use Rattle.std.specs.Prelude.{◌≡◌, ◌++◌, ◌∷◌, ◌==◌, [], length, OnOk};
ghost use Rattle.csv.specs.Writing.{default_writer, escaped, needs_byte, needs_quotes};
ghost use Rattle.ds2_csv_records.specs.Records.{field_of, record_end, separator};

use ds2_base::{Bytes, OutOfMemory};

// Whether a byte has to stand between quotes.
fn needs_byte(c: u8) -> bool
    ensures { result ≡ needs_byte default_writer c }
{
    c <= b',' && (c == b',' || c == b'"' || c == b'\r' || c == b'\n')
}

fn needs_quotes(cell: &[u8]) -> bool
    ensures { result ≡ needs_quotes default_writer cell.now }
{
    cell.iter().any(|c| needs_byte(*c))
}

// Adds a byte that stands between quotes: a quote twice.
#[tactic(auto, unfolding(csv::specs::Writing::escaped))]
fn add_byte(out: &mut Bytes, c: u8) -> Result<(), OutOfMemory>
    ensures { OnOk result (out.new ≡ out.old ++ escaped default_writer (c ∷ [])) }
{
    if c == b'"' {
        out.append(b"\"\"")?;
        Ok(())
    } else {
        out.push(c)?;
        Ok(())
    }
}

// Adds a text that stands between quotes.
fn add_escaped(out: &mut Bytes, cell: &[u8]) -> Result<(), OutOfMemory>
    ensures { OnOk result (out.new ≡ out.old ++ escaped default_writer cell.now) }
{
    let mut rest = cell;
    'bytes: while let [c, after @ ..] = rest {
        add_byte(out, *c)?;
        rest = after;
    }
    Ok(())
}

/// Adds the text of a cell, with quotes where it needs them.
#[tactic(auto, unfolding(crate::specs::Records::field_of))]
pub fn add_field(out: &mut Bytes, cell: &[u8]) -> Result<(), OutOfMemory>
    ensures { OnOk result (out.new ≡ out.old ++ field_of cell.now) }
{
    if needs_quotes(cell) {
        out.push(b'"')?;
        add_escaped(out, cell)?;
        out.push(b'"')?;
        Ok(())
    } else {
        out.append(cell)?;
        Ok(())
    }
}

/// Adds the comma before a cell that is not the first of its record.
pub fn add_separator(out: &mut Bytes, first: bool) -> Result<(), OutOfMemory>
    ensures { OnOk result (out.new ≡ out.old ++ separator first) }
{
    if !first {
        out.push(b',')?;
    }
    Ok(())
}

/// Ends a record that began at `start`. One that shows no byte gets two quotes, which stand for its one empty cell.
pub fn end_record(out: &mut Bytes, start: usize) -> Result<(), OutOfMemory>
    ensures { OnOk result (out.new ≡ out.old ++ record_end (length out.old == start)) }
{
    if out.len() == start {
        out.append(b"\"\"")?;
    }
    out.push(b'\n')?;
    Ok(())
}
