//! A reading statement over tables by number.
ghost use Rattle.std.specs.Prelude.{◌≡◌};
ghost use Rattle.ds2_reading.specs.ReadingFits.{column_type_at, is_of_number_kind, by_column_is, are_by_columns, by_key_fits, by_keys_fit, read_table_fits, read_tables_fit, reading_fits_tables};

use crate::Tables;
use ds2_base::List;
use ds2_table::Table;
use ds2_value::{Column, Ty};

/// A table that a statement reads: its number, the slot of each of its columns, and the slot of its `in=` flag.
#[derive(Drop)]
pub struct ReadTable {
    pub table: u32,
    pub slots: List<u32>,
    pub in_flag: Option<u32>,
}

/// A BY variable of a statement: its slot, and the slots of its two flags.
#[derive(Clone, Copy, PartialEq, Eq)]
pub struct ByKey {
    pub slot: u32,
    pub is_descending: bool,
    pub first: u32,
    pub last: u32,
}

/// A reading statement: the tables that it reads, in order, and its BY variables.
#[derive(Drop)]
pub struct Reading {
    pub tables: List<ReadTable>,
    pub bys: List<ByKey>,
}

// The type of the first column of this slot.
fn column_type_at(slots: &[u32], columns: &[Column], slot: u32) -> Option<Ty>
    ensures { result ≡ column_type_at slots.now columns.now slot }
{
    let mut rest = slots;
    let mut columns_rest = columns;
    'slots: while let [first, after @ ..] = rest {
        let [column, columns_after @ ..] = columns_rest else {
            return None;
        };
        if *first == slot {
            return Some(column.ty);
        }
        rest = after;
        columns_rest = columns_after;
    }
    None
}

// Whether a type is one of numbers, or of texts, as `numbers` asks.
fn is_of_number_kind(ty: Ty, numbers: bool) -> bool
    ensures { result ≡ is_of_number_kind ty numbers }
{
    match ty {
        Ty::BigInt => numbers,
        Ty::Decimal { .. } => numbers,
        Ty::Char { .. } => !numbers,
        Ty::Varchar { .. } => !numbers,
    }
}

// Whether a table has a column of this slot, of the kind that is asked for.
fn by_column_is(tables: &Tables, read: &ReadTable, slot: u32, numbers: bool) -> bool
    ensures { result ≡ by_column_is tables.now slot numbers read.now }
{
    let Some(table) = tables.get(read.table as usize) else {
        return false;
    };
    let columns = table.schema().columns();
    match column_type_at(read.slots.as_slice(), columns.as_slice(), slot) {
        None => false,
        Some(ty) => is_of_number_kind(ty, numbers),
    }
}

// Whether each table has such a column.
fn are_by_columns(tables: &Tables, reads: &[ReadTable], slot: u32, numbers: bool) -> bool
    ensures { result ≡ are_by_columns tables.now reads.now slot numbers }
{
    let mut rest = reads;
    'reads: while let [read, after @ ..] = rest {
        if !by_column_is(tables, read, slot, numbers) {
            return false;
        }
        rest = after;
    }
    true
}

// Whether the columns of a BY variable are all numbers or all texts, one in each table.
fn by_key_fits(tables: &Tables, reads: &[ReadTable], by: &ByKey) -> bool
    ensures { result ≡ by_key_fits tables.now reads.now by.now }
{
    are_by_columns(tables, reads, by.slot, true) || are_by_columns(tables, reads, by.slot, false)
}

fn by_keys_fit(tables: &Tables, reads: &[ReadTable], bys: &[ByKey]) -> bool
    ensures { result ≡ by_keys_fit tables.now reads.now bys.now }
{
    let mut rest = bys;
    'bys: while let [by, after @ ..] = rest {
        if !by_key_fits(tables, reads, by) {
            return false;
        }
        rest = after;
    }
    true
}

// Whether a table is there, with a slot for each of its columns.
fn read_table_fits(tables: &Tables, read: &ReadTable) -> bool
    ensures { result ≡ read_table_fits tables.now read.now }
{
    match tables.get(read.table as usize) {
        None => false,
        Some(table) => table.schema().columns().len() == read.slots.len(),
    }
}

fn read_tables_fit(tables: &Tables, reads: &[ReadTable]) -> bool
    ensures { result ≡ read_tables_fit tables.now reads.now }
{
    let mut rest = reads;
    'tables: while let [read, after @ ..] = rest {
        if !read_table_fits(tables, read) {
            return false;
        }
        rest = after;
    }
    true
}

impl Reading {
    /// Whether the statement fits the tables: at most 16 tables and 16 BY variables, each table is there with a slot for each of its
    /// columns, and each BY variable has a column in every table, all of them numbers or all of them texts.
    pub fn fits(&self, tables: &Tables) -> bool
        ensures { result ≡ reading_fits_tables tables.now self.now }
    {
        let reads = self.tables.as_slice();
        let bys = self.bys.as_slice();
        (reads.len() <= 16 && bys.len() <= 16)
            && (read_tables_fit(tables, reads) && by_keys_fit(tables, reads, bys))
    }
}
