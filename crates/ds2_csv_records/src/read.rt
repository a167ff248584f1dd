//! The records of a text, one after the other.
ghost use Rattle.std.specs.Prelude.{◌≡◌, ◌∷◌, ◌++◌, ℕ, List as Items, [], IfOk, OnOk};
ghost use Rattle.csv.specs.Reading.{strip_bom};
ghost use Rattle.ds2_csv_records.specs.Cells.{begins_mark, spelled};
ghost use Rattle.ds2_csv_records.specs.Reading.{Holds, IsNext, records_left};

use crate::cell::Cell;
use crate::taken::first_cell;
use ds2_base::{List, OutOfMemory};
use std::alloc::Global;

/// A record that was read.
#[derive(Drop)]
pub struct Record<'t> {
    /// Its cells, or the first of them where there are more than were to be kept.
    pub cells: List<Cell<'t>>,
    /// The number of all its cells.
    pub count: usize,
}

impl<'t> Record<'t> {
    /// A record without cells. Takes no memory.
    pub fn new(alloc: Global) -> Record<'t>
        ensures cells { result.cells ≡ [] }
        ensures count { result.count ≡ 0 }
    {
        Record {
            cells: List::new(alloc),
            count: 0,
        }
    }

    // One more cell, which is kept where fewer than `most` are.
    fn add(&mut self, cell: Cell<'t>, most: usize) -> Result<(), OutOfMemory>
        ensures { OnOk result ((cells : Items (Items ℕ)) → Holds self.old most cells → Holds self.new most (cells ++ spelled cell.entry ∷ [])) }
    {
        let count = self.count;
        if count == usize::MAX {
            return Err(OutOfMemory);
        }
        if count < most {
            self.cells.push(cell)?;
        }
        self.count = count + 1;
        Ok(())
    }
}

fn begins_mark(text: &[u8]) -> bool
    ensures { result ≡ begins_mark text.now }
{
    match text {
        [a, b, c, ..] => *a == 0xef && *b == 0xbb && *c == 0xbf,
        _ => false,
    }
}

/// The text without a byte order mark at its start.
pub fn without_mark(text: &str) -> &str
    ensures { result.now ≡ strip_bom text.now }
{
    if begins_mark(text.as_bytes()) {
        text.split_at(3).1
    } else {
        text
    }
}

/// Reads the next record of a text into `row`, of which the first `most` cells are kept, and gives the text behind it; None
/// where there is no more record. The text stands between two records.
pub fn next_record<'t>(
    text: &'t str,
    row: &mut Record<'t>,
    most: usize,
) -> Result<Option<&'t str>, OutOfMemory>
    ensures { IfOk result (λ rest. IsNext rest row.new most text.now) }
{
    row.cells.truncate(0);
    row.count = 0;
    let Some(first) = first_cell(text) else {
        return Ok(None);
    };
    let mut taken = first;
    'cells: while taken.more {
        row.add(taken.cell, most)?;
        taken = taken.next();
    }
    row.add(taken.cell, most)?;
    Ok(Some(taken.behind()))
}
