//! Reading of a table.
ghost use Rattle.std.specs.Prelude.{◌≡◌, ◌≤◌, length, nat_lt, IsTrue, IfOk};
ghost use Rattle.ds2_base.specs.Says.{Says};
ghost use Rattle.ds2_csv_records.specs.Reading.{records_left};
ghost use Rattle.ds2_csv.specs.Columns.{columns_from};
ghost use Rattle.ds2_csv.specs.Known.{AreInferred};
ghost use Rattle.ds2_csv.specs.declared.limits.TheConstants.{MOST_BYTES, MOST_COLUMNS};
ghost use Rattle.ds2_csv.specs.Reads.{of_records, reads};
ghost use Rattle.ds2_csv.specs.Records.{Rows, records_of};
ghost use Rattle.ds2_csv.specs.Typed.{are_confirmed, are_typed, under_headings};
ghost use Rattle.ds2_value.specs.Schema.{is_schema};
ghost use Rattle.ds2_value.specs.Types.{same_ty};

use crate::column::{columns, nothing_known};
use crate::header::headings;
use crate::heading::Heading;
use crate::limits::{MOST_BYTES, MOST_COLUMNS};
use crate::refusal::of_file;
use crate::typed::{read_rows, typed_table};
use crate::{CsvKind, CsvRefusal};
use ds2_base::{Bytes, OutOfMemory, Stop};
use ds2_csv_cells::Inference;
use ds2_csv_records::{Record, next_record, without_mark};
use ds2_table::Table;
use ds2_value::{Column, Schema, Ty};
use std::alloc::Global;

// How many rows tell which types are supposed.
const FIRST_ROWS: u64 = 1000;

// Whether each heading tells its type.
fn are_typed(headings: &[Heading]) -> bool
    ensures { result ≡ are_typed headings.now }
{
    headings.iter().all(|heading| heading.ty.is_some())
}

// The schema of headings over rows of which this is known.
fn schema(alloc: Global, headings: &[Heading], known: &[Inference]) -> Result<Schema, OutOfMemory>
    requires count { length known.now ≡ length headings.now }
    requires schema { (rows : Rows) → IsTrue (is_schema (columns_from 0 headings.now rows)) }
    requires known { (rows : Rows) × AreInferred known.now rows }
    ensures { (rows : Rows) → AreInferred known.now rows → IfOk result (λ schema. schema ≡ columns_from 0 headings.now rows) }
{
    match Schema::new(columns(alloc, headings, known)?) {
        Some(schema) => Ok(schema),
        None => unreachable!(),
    }
}

fn same_ty(a: Ty, b: Ty) -> bool
    ensures { result ≡ same_ty a b }
{
    match (a, b) {
        (Ty::BigInt, Ty::BigInt) => true,
        (Ty::Decimal { p, s }, Ty::Decimal { p: q, s: t }) => p == q && s == t,
        (Ty::Char { n }, Ty::Char { n: m }) => n == m,
        (Ty::Varchar { n }, Ty::Varchar { n: m }) => n == m,
        _ => false,
    }
}

// Whether columns have the types that were supposed.
#[tactic(auto, unfolding(crate::specs::Typed::are_confirmed))]
fn are_confirmed(supposed: &[Column], columns: &[Column]) -> bool
    ensures { result ≡ are_confirmed supposed.now columns.now }
{
    match supposed {
        [] => columns.is_empty(),
        [s, ss @ ..] => match columns {
            [] => false,
            [c, cs @ ..] => same_ty(s.ty, c.ty) && are_confirmed(ss, cs),
        },
    }
}

// The table of the rows below headings of which not all tell their types, where so much is known of the first rows. Their columns
// are supposed to be those of all rows. Where that is not so, the rows are read once more.
fn supposed_table(
    alloc: Global,
    headings: &[Heading],
    below: &str,
    first: &[Inference],
) -> Result<Table, Stop<CsvRefusal>>
    requires schema { (rows : Rows) → IsTrue (is_schema (columns_from 0 headings.now rows)) }
    requires few { length headings.now ≤ MOST_COLUMNS }
    requires count { length first.now ≡ length headings.now }
    requires first { (rows : Rows) × AreInferred first.now rows }
    ensures { Says result (under_headings headings.now (records_left below.now)) }
{
    let supposed = schema(alloc, headings, first)?;
    let columns = supposed.columns().as_slice();
    let known = nothing_known(alloc, headings.len())?;
    let typed = read_rows(alloc, below, columns, known, u64::MAX)?;
    if !typed.ended {
        return Err(Stop::OutOfMemory);
    }
    let schema = schema(alloc, headings, typed.known.as_slice())?;
    if typed.bad.is_none() && are_confirmed(columns, schema.columns().as_slice()) {
        return typed.into_table(alloc, schema);
    }
    typed_table(alloc, below, schema)
}

// The table of the rows below a header that was read. Where the header does not tell each type, the first rows tell which types are
// supposed.
fn under_headings(
    alloc: Global,
    headings: &[Heading],
    below: &str,
) -> Result<Table, Stop<CsvRefusal>>
    requires schema { (rows : Rows) → IsTrue (is_schema (columns_from 0 headings.now rows)) }
    requires few { length headings.now ≤ MOST_COLUMNS }
    ensures { Says result (under_headings headings.now (records_left below.now)) }
{
    let known = nothing_known(alloc, headings.len())?;
    let schema = schema(alloc, headings, known.as_slice())?;
    if are_typed(headings) {
        return typed_table(alloc, below, schema);
    }
    let columns = schema.columns().as_slice();
    let first = read_rows(alloc, below, columns, known, FIRST_ROWS)?;
    supposed_table(alloc, headings, below, first.known.as_slice())
}

// Whether a header of so many cells has more than a table may have.
fn is_wide(count: usize) -> bool
    ensures { result ≡ nat_lt MOST_COLUMNS count }
{
    count > MOST_COLUMNS
}

// The table of the records of a text.
fn of_records(alloc: Global, text: &str) -> Result<Table, Stop<CsvRefusal>>
    ensures { Says result (of_records (records_of text.now)) }
{
    let mut header = Record::new(alloc);
    let Some(below) = next_record(without_mark(text), &mut header, MOST_COLUMNS)? else {
        return Err(Stop::Refused(of_file(CsvKind::NoHeader)));
    };
    if is_wide(header.count) {
        return Err(Stop::Refused(of_file(CsvKind::TooLarge)));
    }
    let headings = headings(alloc, header.cells.as_slice())?;
    under_headings(alloc, headings.as_slice(), below)
}

// Whether a file of so many bytes has more than a table may have.
fn is_long(len: usize) -> bool
    ensures { result ≡ nat_lt MOST_BYTES len }
{
    len > MOST_BYTES
}

/// The table that bytes spell, or the first refusal, in the order of [`CsvKind`]; the limits on bytes and columns come before
/// all that is said of cells, and that on cells before BadCell.
#[tactic(auto, unfolding(crate::specs::Reads::reads))]
pub fn read_table(alloc: Global, bytes: &Bytes) -> Result<Table, Stop<CsvRefusal>>
    ensures { Says result (reads bytes.now) }
{
    let bytes = bytes.as_slice();
    if is_long(bytes.len()) {
        return Err(Stop::Refused(of_file(CsvKind::TooLarge)));
    }
    match str::from_utf8(bytes) {
        Ok(text) => of_records(alloc, text),
        Err(_) => Err(Stop::Refused(of_file(CsvKind::NotUtf8))),
    }
}
