//! The rows of a file, read into columns.
ghost use Rattle.std.specs.Prelude.{◌≡◌, ◌==◌, ◌≤◌, ◌<◌, ◌+◌, ◌*◌, ◌∷◌, ◌++◌, [], ℕ, List as Items, Some, None, length, slice_get, slice_set, nat_lt, IfOk, IfSome, IsTrue, OnOk};
ghost use Rattle.ds2_base.specs.Says.{Says};
ghost use Rattle.ds2_columns.specs.Columns.{ColumnContents, with_value};
ghost use Rattle.ds2_csv_cells.specs.Cells.{value_of};
ghost use Rattle.ds2_csv_cells.specs.Held.{held_value};
ghost use Rattle.ds2_csv_records.specs.Cells.{spelled};
ghost use Rattle.ds2_csv_records.specs.Reading.{records_left, IsWithin};
ghost use Rattle.ds2_csv.specs.Known.{AreInferred, HoldTo, TellsColumn};
ghost use Rattle.ds2_csv.specs.Reads.{under_columns};
ghost use Rattle.ds2_csv.specs.Records.{Rows};
ghost use Rattle.ds2_csv.specs.Refusals.{of_cell};
ghost use Rattle.ds2_csv.specs.Sheet.{of_sheet, sheet_of};
ghost use Rattle.ds2_csv.specs.Typed.{AreRowsRead, HasColumnTypes, IsEnd, IsPut, HasRead, HasReadTo, IsRowRead, HasReadAll};
ghost use Rattle.ds2_csv.specs.declared.limits.TheConstants.{MOST_CELLS, MOST_COLUMNS};
ghost use Rattle.ds2_value.specs.Cell.{lent_value};
ghost use Rattle.ds2_value.specs.Schema.{types_in_bounds};
ghost use Rattle.ds2_value.specs.Types.{fits, in_bounds};

use crate::limits::{MOST_CELLS, is_large};
use crate::refusal::{of_cell, of_file, of_row};
use crate::{CsvKind, CsvRefusal};
use ds2_base::{List, OutOfMemory, Stop};
use ds2_columns::ColumnValues;
use ds2_csv_cells::{CellValue, Inference, read_cell};
use ds2_csv_records::{Cell, Taken, first_cell, unquoted};
use ds2_table::Table;
use ds2_value::{Cell as Lent, Column, Schema, Ty};
use std::alloc::Global;

/// The rows that were read under columns whose types are told or supposed.
#[derive(Drop)]
pub struct Typed {
    /// The values of each column, as long as no cell was bad.
    pub values: Vec<ColumnValues>,
    /// What the cells of each column tell of its type, or nothing where that is not asked.
    pub known: List<Inference>,
    /// The refusal of the first cell that has no value of its column's type, or of a cell too many.
    pub bad: Option<CsvRefusal>,
    /// Whether all rows were read, and how many.
    pub ended: bool,
    pub rows: usize,
}

// The value of the text of a cell in column `i`, which is told of where that is asked.
#[inline(always)]
fn told<'t>(
    alloc: Global,
    known: &mut List<Inference>,
    i: usize,
    ty: Ty,
    text: &'t str,
) -> Result<CellValue<'t>, OutOfMemory>
    requires { IsTrue (in_bounds ty) }
    ensures value { IfOk result (λ v. held_value v ≡ value_of ty text.now) }
    ensures fit { IfOk result (λ v. IfSome (held_value v) (λ x. IsTrue (fits x ty))) }
    ensures count { OnOk result (length known.new ≡ length known.old) }
    ensures known { (rows : Rows) (cells : Items (Items ℕ)) → length cells ≡ i → HoldTo TellsColumn known.old rows cells → OnOk result (HoldTo TellsColumn known.new rows (cells ++ text.now ∷ [])) }
{
    match known.get(i) {
        None => read_cell(alloc, ty, text),
        Some(inference) => {
            let mut seen = *inference;
            let value = seen.read_cell(alloc, ty, text)?;
            known.replace(i, seen);
            Ok(value)
        }
    }
}

// Adds a value at the end of a column.
#[inline(always)]
fn push(values: &mut [ColumnValues], i: usize, value: &Lent<'_>) -> Result<(), OutOfMemory>
    requires within { i < length values.old }
    requires fit { (column : ColumnContents) → slice_get values.old i ≡ Some column → IsTrue (fits (lent_value value.now) column.ty) }
    ensures { OnOk result ((column : ColumnContents) → slice_get values.old i ≡ Some column → values.new ≡ slice_set values.old i (with_value column (lent_value value.now))) }
{
    let column = &mut values[i];
    column.push(value)
}

// Whether the cell of this number, counted from 0, is the last of a row of so many.
fn is_last(count: usize, width: usize) -> bool
    ensures { result ≡ (1 + count == width) }
{
    count < width && width - count == 1
}

impl Typed {
    // Puts the value of a cell into its column, or notes that it has none.
    #[inline(always)]
    fn put(&mut self, i: usize, value: CellValue, number: u64) -> Result<(), OutOfMemory>
        requires few { i < MOST_COLUMNS }
        requires within { i < length self.old.values.items }
        requires fit { IfSome (held_value value) (λ v. (column : ColumnContents) → slice_get self.old.values.items i ≡ Some column → IsTrue (fits v column.ty)) }
        ensures put { OnOk result (IsPut (held_value value.entry) number i self.old self.new) }
        ensures known { OnOk result (self.new.known ≡ self.old.known) }
        ensures values { OnOk result (held_value value.entry ≡ None → self.new.values.items ≡ self.old.values.items) }
    {
        match value {
            CellValue::Bad => {
                self.bad = Some(of_cell(number, i as u32 + 1));
                Ok(())
            }
            CellValue::Lent(lent) => push(self.values.as_mut_slice(), i, &lent),
            CellValue::Filled(text) => {
                push(self.values.as_mut_slice(), i, &Lent::Txt(text.as_str()))
            }
        }
    }

    // One more cell of the row of this number, which has this text.
    #[inline(always)]
    fn add_text(
        &mut self,
        alloc: Global,
        columns: &[Column],
        i: usize,
        text: &str,
        number: u64,
    ) -> Result<(), OutOfMemory>
        requires few { length columns.now ≤ MOST_COLUMNS }
        requires bounds { IsTrue (types_in_bounds columns.now) }
        requires types { HasColumnTypes self.old columns.now (length self.old.known) }
        ensures types { OnOk result (HasColumnTypes self.new columns.now (length self.old.known)) }
        ensures read { (rows : Rows) (cells : Items (Items ℕ)) → number ≡ 1 + length rows → length cells ≡ i → HasReadTo self.old columns.now rows cells
            → OnOk result (HasReadTo self.new columns.now rows (cells ++ text.now ∷ [])) }
    {
        let Some(column) = columns.get(i) else {
            return Ok(());
        };
        let value = told(alloc, &mut self.known, i, column.ty, text)?;
        if self.bad.is_some() {
            return Ok(());
        }
        self.put(i, value, number)
    }

    // One more cell of the row of this number.
    #[inline(always)]
    fn add_cell(
        &mut self,
        alloc: Global,
        columns: &[Column],
        i: usize,
        cell: Cell,
        number: u64,
    ) -> Result<(), OutOfMemory>
        requires few { length columns.now ≤ MOST_COLUMNS }
        requires bounds { IsTrue (types_in_bounds columns.now) }
        requires types { HasColumnTypes self.old columns.now (length self.old.known) }
        ensures types { OnOk result (HasColumnTypes self.new columns.now (length self.old.known)) }
        ensures read { (rows : Rows) (cells : Items (Items ℕ)) → number ≡ 1 + length rows → length cells ≡ i → HasReadTo self.old columns.now rows cells
            → OnOk result (HasReadTo self.new columns.now rows (cells ++ spelled cell.entry ∷ [])) }
    {
        match cell {
            Cell::Plain(text) => self.add_text(alloc, columns, i, text, number),
            Cell::Quoted(raw) => {
                let text = unquoted(alloc, raw)?;
                self.add_text(alloc, columns, i, text.as_str(), number)
            }
        }
    }

    // From now on no value is put where so many rows have too many cells.
    fn bound(&mut self, number: u64, width: usize)
        ensures few { number * width ≤ MOST_CELLS → self.new ≡ self.old }
        ensures known { self.new.known ≡ self.old.known }
        ensures values { self.new.values.items ≡ self.old.values.items }
    {
        if is_large(number, width) {
            self.bad = Some(of_file(CsvKind::TooLarge));
        }
    }

    // Reads the row of this number from its first cell on, and gives the text behind it; None where it has not as many cells as there
    // are columns.
    fn add_row<'t>(
        &mut self,
        alloc: Global,
        columns: &[Column],
        first: Taken<'t>,
        number: u64,
    ) -> Result<Option<&'t str>, OutOfMemory>
        requires few { length columns.now ≤ MOST_COLUMNS }
        requires bounds { IsTrue (types_in_bounds columns.now) }
        requires types { HasColumnTypes self.old columns.now (length self.old.known) }
        ensures types { OnOk result (HasColumnTypes self.new columns.now (length self.old.known)) }
        ensures read { (rows : Rows) (text : Items ℕ) → number ≡ 1 + length rows → HasRead self.old columns.now rows → IsWithin text [] first.entry
            → IfOk result (λ rest. IsRowRead rest text self.new columns.now rows) }
    {
        self.bound(number, columns.len());
        let mut taken = first;
        let mut count = 0usize;
        'cells: while taken.more {
            self.add_cell(alloc, columns, count, taken.cell, number)?;
            if count == usize::MAX {
                return Err(OutOfMemory);
            }
            count += 1;
            taken = taken.next();
        }
        self.add_cell(alloc, columns, count, taken.cell, number)?;
        let behind = taken.behind();
        if is_last(count, columns.len()) {
            Ok(Some(behind))
        } else {
            Ok(None)
        }
    }

    // Nothing was read yet under these columns, and so much is known of them; with room for so many rows.
    fn new(
        alloc: Global,
        columns: &[Column],
        known: List<Inference>,
        room: usize,
    ) -> Result<Typed, OutOfMemory>
        requires bounds { IsTrue (types_in_bounds columns.now) }
        requires count { length known ≤ length columns.now }
        requires known { AreInferred known [] }
        ensures types { IfOk result (λ typed. HasColumnTypes typed columns.now (length known)) }
        ensures read { IfOk result (λ typed. HasRead typed columns.now []) }
    {
        let mut values = Vec::with_capacity(alloc, columns.len())?;
        'columns: for column in columns {
            let mut empty = ColumnValues::new(alloc, column.ty);
            empty.reserve(room)?;
            values.push(empty)?;
        }
        Ok(Typed {
            values,
            known,
            bad: None,
            ended: false,
            rows: 0,
        })
    }

    // So many rows were read, and there are no more.
    fn end(self, count: u64, width: usize) -> Result<Typed, Stop<CsvRefusal>>
        ensures { IsEnd result self count width }
    {
        if is_large(count, width) {
            return Err(Stop::Refused(of_file(CsvKind::TooLarge)));
        }
        let Typed {
            values,
            known,
            bad,
            ..
        } = self;
        Ok(Typed {
            values,
            known,
            bad,
            ended: true,
            rows: count as usize,
        })
    }

    /// The table of rows that were all read, under the columns of this schema.
    pub fn into_table(self, alloc: Global, schema: Schema) -> Result<Table, Stop<CsvRefusal>>
        requires types { HasColumnTypes self schema (length self.known) }
        requires whole { (rows : Rows) × HasReadAll self schema rows }
        ensures { (rows : Rows) → HasReadAll self schema rows → Says result (under_columns schema rows) }
    {
        let Typed {
            values,
            bad,
            rows,
            ..
        } = self;
        match bad {
            Some(refusal) => Err(Stop::Refused(refusal)),
            None => Ok(Table::of_columns(alloc, schema, values, rows)),
        }
    }
}

// How many rows a text may have, by its ends of lines, where a table may have so many of this width.
fn room(text: &[u8], width: usize) -> usize {
    let mut lines = 1usize;
    'bytes: for c in text {
        if *c == b'\n' {
            lines = lines.saturating_add(1);
        }
    }
    lines.min(MOST_CELLS as usize / width.max(1))
}

/// Reads the first rows of a text, at most `most` of them, under columns whose types are told or supposed. Of each column in `known`
/// its cells are told as well.
pub fn read_rows(
    alloc: Global,
    text: &str,
    columns: &[Column],
    known: List<Inference>,
    most: u64,
) -> Result<Typed, Stop<CsvRefusal>>
    requires few { length columns.now ≤ MOST_COLUMNS }
    requires bounds { IsTrue (types_in_bounds columns.now) }
    requires count { length known ≤ length columns.now }
    requires known { AreInferred known [] }
    ensures types { IfOk result (λ typed. HasColumnTypes typed columns.now (length known)) }
    ensures read { AreRowsRead result columns.now text.now }
{
    let room = room(text.as_bytes(), columns.len());
    let mut typed = Typed::new(alloc, columns, known, room.min(most as usize))?;
    let mut rest = text;
    'rows: for count in 0..most {
        let Some(first) = first_cell(rest) else {
            return typed.end(count, columns.len());
        };
        match typed.add_row(alloc, columns, first, count + 1)? {
            Some(behind) => rest = behind,
            None => return Err(Stop::Refused(of_row(CsvKind::BadRecord, count + 1))),
        }
    }
    // There may be more rows.
    typed.ended = false;
    Ok(typed)
}

/// The table of the rows below a header whose columns are those of `schema`.
pub fn typed_table(alloc: Global, below: &str, schema: Schema) -> Result<Table, Stop<CsvRefusal>>
    requires { length schema ≤ MOST_COLUMNS }
    ensures { Says result (of_sheet (under_columns schema) (sheet_of (length schema) (records_left below.now))) }
{
    let columns = schema.columns().as_slice();
    let typed = read_rows(alloc, below, columns, List::new(alloc), u64::MAX)?;
    if typed.ended {
        typed.into_table(alloc, schema)
    } else {
        Err(Stop::OutOfMemory)
    }
}
