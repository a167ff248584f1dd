//! The header.
ghost use Rattle.std.specs.Prelude.{◌≡◌, ◌≤◌, ◌+◌, length, map};
ghost use Rattle.ds2_csv_records.specs.Cells.{spelled};
ghost use Rattle.ds2_base.specs.Name.{name_of};
ghost use Rattle.ds2_base.specs.Says.{Says};
ghost use Rattle.ds2_csv.specs.declared.limits.TheConstants.{MOST_COLUMNS};
ghost use Rattle.ds2_csv.specs.Refusals.{of_column};
ghost use Rattle.ds2_csv.specs.Header.{plain_heading, heading_of_text, heading_of, is_taken, distinct_heading, headings_of};

use crate::blanks::{last_blank, without_blanks};
use crate::heading::Heading;
use crate::items::item;
use crate::{CsvKind, CsvRefusal};
use ds2_base::{BadName, List, Name, Stop};
use ds2_csv_cells::type_spelled;
use ds2_csv_records::{Cell, unquoted};
use std::alloc::Global;

fn plain_heading(alloc: Global, text: &str) -> Result<Heading, Stop<CsvKind>>
    ensures { Says result (plain_heading (name_of text.now)) }
{
    match Name::new(alloc, text) {
        Ok(name) => Ok(Heading { name, ty: None }),
        Err(Stop::Refused(BadName)) => Err(Stop::Refused(CsvKind::BadHeader)),
        Err(Stop::OutOfMemory) => Err(Stop::OutOfMemory),
    }
}

// The column of a text: a name, one blank and a type, or else a name.
#[tactic(auto, unfolding(crate::specs::Header::heading_of_text))]
fn heading_of_text(alloc: Global, text: &str) -> Result<Heading, Stop<CsvKind>>
    ensures { Says result (heading_of_text text.now) }
{
    let Some(i) = last_blank(text.as_bytes()) else {
        return plain_heading(alloc, text);
    };
    let Some(ty) = type_spelled(&text.as_bytes()[i + 1..]) else {
        return plain_heading(alloc, text);
    };
    match Name::new(alloc, text.split_at(i).0) {
        Ok(name) => match ty {
            Some(ty) => Ok(Heading { name, ty: Some(ty) }),
            None => Err(Stop::Refused(CsvKind::BadType)),
        },
        Err(Stop::Refused(BadName)) => plain_heading(alloc, text),
        Err(Stop::OutOfMemory) => Err(Stop::OutOfMemory),
    }
}

// The column of a header cell.
#[tactic(auto, unfolding(crate::specs::Header::heading_of))]
fn heading(alloc: Global, cell: &str) -> Result<Heading, Stop<CsvKind>>
    ensures { Says result (heading_of cell.now) }
{
    let mut lowered = String::from_str(alloc, cell)?;
    lowered.make_ascii_lowercase();
    heading_of_text(alloc, without_blanks(lowered.as_str()))
}

fn is_taken(name: &Name, headings: &[Heading]) -> bool
    ensures { result ≡ is_taken name.now headings.now }
{
    headings.iter().any(|heading| heading.name == *name)
}

fn of_column(kind: CsvKind, column: u32) -> CsvRefusal
    ensures { result ≡ of_column kind column }
{
    CsvRefusal {
        kind,
        row: 0,
        column,
    }
}

// The heading of a column that comes after others.
fn distinct_heading(
    alloc: Global,
    before: &[Heading],
    cell: &str,
    column: u32,
) -> Result<Heading, Stop<CsvRefusal>>
    ensures { Says result (distinct_heading before.now column (heading_of cell.now)) }
{
    match heading(alloc, cell) {
        Ok(heading) => {
            if is_taken(&heading.name, before) {
                Err(Stop::Refused(of_column(CsvKind::DuplicateColumn, column)))
            } else {
                Ok(heading)
            }
        }
        Err(Stop::Refused(kind)) => Err(Stop::Refused(of_column(kind, column))),
        Err(Stop::OutOfMemory) => Err(Stop::OutOfMemory),
    }
}

// The same of a cell as it stands in the text.
fn cell_heading(
    alloc: Global,
    before: &[Heading],
    cell: Cell,
    column: u32,
) -> Result<Heading, Stop<CsvRefusal>>
    ensures { Says result (distinct_heading before.now column (heading_of (spelled cell.entry))) }
{
    match cell {
        Cell::Plain(text) => distinct_heading(alloc, before, text, column),
        Cell::Quoted(raw) => {
            let text = unquoted(alloc, raw)?;
            distinct_heading(alloc, before, text.as_str(), column)
        }
    }
}

/// The headings of header cells, at most `MOST_COLUMNS`, or the first refusal from the left.
pub fn headings(alloc: Global, header: &[Cell]) -> Result<List<Heading>, Stop<CsvRefusal>>
    requires { length header.now ≤ MOST_COLUMNS }
    ensures { Says result (headings_of (map spelled header.now)) }
{
    let mut headings = List::of(Vec::with_capacity(alloc, header.len())?);
    'cells: for (i, _) in header.iter().enumerate() {
        let cell = item(header, i);
        let heading = cell_heading(alloc, headings.as_slice(), cell, i as u32 + 1)?;
        headings.push(heading)?;
    }
    Ok(headings)
}
