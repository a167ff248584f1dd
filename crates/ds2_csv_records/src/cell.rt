//! A cell as it stands in a text.
ghost use Rattle.std.specs.Prelude.{◌≡◌, ◌++◌, ◌<◌, ◌≤◌, true, length, slice_index, drop, IfOk, string_bytes};
ghost use Rattle.ds2_csv_records.specs.Cells.{bare_len, begins_end, begins_quoted, ends_cell, quoted_len, to_quote, unquoted};

use ds2_base::OutOfMemory;
use std::alloc::Global;

/// A cell of a record.
#[derive(Clone, Copy)]
pub enum Cell<'t> {
    /// The cell's text, which stands in the file as it is.
    Plain(&'t str),
    /// What stands behind the opening quote of a cell with other quotes in it, up to the cell's end: [`unquoted`] has its text.
    Quoted(&'t str),
}

fn ends_cell(c: u8) -> bool
    ensures { result ≡ ends_cell c }
{
    c <= b',' && (c == b',' || c == b'\r' || c == b'\n')
}

/// Whether a text begins with the end of a cell, or has ended.
pub fn begins_end(text: &[u8]) -> bool
    ensures { result ≡ begins_end text.now }
{
    match text {
        [] => true,
        [c, ..] => ends_cell(*c),
    }
}

/// How many bytes stand before the first quote.
pub fn to_quote(text: &[u8]) -> usize
    ensures len { result ≡ to_quote text.now }
    ensures within { result ≤ length text.now }
    ensures mark { result < length text.now → slice_index text.now result ≡ 34 }
{
    'bytes: for (i, c) in text.iter().enumerate() {
        if *c == b'"' {
            return i;
        }
    }
    text.len()
}

/// How many bytes a cell without quotes has at the start of a text.
pub fn bare_len(text: &[u8]) -> usize
    ensures len { result ≡ bare_len text.now }
    ensures within { result ≤ length text.now }
    ensures end { begins_end (drop result text.now) ≡ true }
    ensures mark { result < length text.now → slice_index text.now result < 128 }
{
    'bytes: for (i, c) in text.iter().enumerate() {
        if ends_cell(*c) {
            return i;
        }
    }
    text.len()
}

/// How many bytes a cell with quotes has behind its opening quote.
pub fn quoted_len(text: &[u8]) -> usize
    ensures len { result ≡ quoted_len true text.now }
    ensures within { result ≤ length text.now }
    ensures end { begins_end (drop result text.now) ≡ true }
    ensures mark { result < length text.now → slice_index text.now result < 128 }
{
    let mut within = true;
    'bytes: for (i, c) in text.iter().enumerate() {
        if *c == b'"' {
            within = !within;
        } else if !within {
            return i + bare_len(text.split_at(i).1);
        }
    }
    text.len()
}

/// Whether a text begins with a quote.
pub fn begins_quoted(text: &[u8]) -> bool
    ensures { result ≡ begins_quoted text.now }
{
    match text {
        [] => false,
        [c, ..] => *c == b'"',
    }
}

/// The text behind a quote.
pub fn behind_quote(text: &str) -> &str
    requires { begins_quoted text.now ≡ true }
    ensures { result.now ≡ drop 1 text.now }
{
    text.split_at(1).1
}

// Adds what the text of a cell with quotes spells up to its next quote and with it, and gives what is left.
fn add_part<'t>(text: &mut String, rest: &'t str) -> Result<&'t str, OutOfMemory>
    ensures spelled { IfOk result (λ left. string_bytes text.new ++ unquoted true left.now ≡ string_bytes text.old ++ unquoted true rest.now) }
    ensures shorter { IfOk result (λ left. 0 < length rest.now → length left.now < length rest.now) }
{
    let (part, behind) = rest.split_at(to_quote(rest.as_bytes()));
    text.push_str(part)?;
    if behind.is_empty() {
        return Ok(behind);
    }
    let after = behind_quote(behind);
    if begins_quoted(after.as_bytes()) {
        text.push_str("\"")?;
        return Ok(behind_quote(after));
    }
    text.push_str(after)?;
    Ok("")
}

/// What a cell with quotes spells, of which this stands behind the opening quote.
pub fn unquoted(alloc: Global, raw: &str) -> Result<String, OutOfMemory>
    ensures { IfOk result (λ text. string_bytes text ≡ unquoted true raw.now) }
{
    let mut text = String::with_capacity(alloc, raw.len())?;
    let mut rest = raw;
    'quotes: while !rest.is_empty() {
        rest = add_part(&mut text, rest)?;
    }
    Ok(text)
}
