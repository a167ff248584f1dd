//! The rows of the key that comes next.
ghost use Rattle.std.specs.Prelude.{◌≡◌, ◌+◌, ◌^◌, ◌<◌, ◌≤◌, length, slice_get};
ghost use Rattle.ds2_reading.specs.Places.{all_rows};
ghost use Rattle.ds2_merge.specs.KeyPlaces.{HasTables, HaveTablePlaces, IsKeyEnd, IsBetweenKeys, IsKeyRun, IsNextKey, IsTableEnd, is_row_of, most_between};

use crate::key_place::{KeyPlace, KeyRows};
use ds2_reading::SortedRows;

/// Where the rows of each table of a key begin, and where they end.
#[derive(Clone, Copy)]
pub(crate) struct TablePlaces {
    pub begins: [u32; 16],
    pub ends: [u32; 16],
}

// Where the rows of a key end, of which the first one is at a place.
fn end_of_key(rows: &SortedRows, start: usize) -> usize
    requires tables { HasTables rows.now }
    requires there { start < length (all_rows rows.now.descending rows.now.tables) }
    ensures { IsKeyEnd rows.now start result }
{
    let bys = rows.bys();
    let count = rows.len();
    let mut end = start + 1;
    'rows: while end < count {
        if rows.common_at(end) < bys {
            return end;
        }
        end += 1;
    }
    end
}

// Whether the row at a place is one of a table.
fn is_of_table(rows: &SortedRows, table: usize, place: usize) -> bool
    ensures { result ≡ is_row_of table (slice_get (all_rows rows.now.descending rows.now.tables) place) }
{
    match rows.row_at(place) {
        None => false,
        Some(row) => row.table == table,
    }
}

// Where the rows of a table end, from a place on.
fn end_of_table(rows: &SortedRows, table: usize, from: usize, end: usize) -> usize
    requires { from ≤ end }
    ensures { IsTableEnd rows.now table from end result }
{
    let mut place = from;
    'rows: while place < end {
        if !is_of_table(rows, table, place) {
            return place;
        }
        place += 1;
    }
    place
}

// Where the rows of each table begin and end among those of a key.
fn table_places(rows: &SortedRows, start: usize, end: usize) -> TablePlaces
    requires tables { HasTables rows.now }
    requires run { IsKeyRun rows.now start end }
    ensures { HaveTablePlaces rows.now start result.begins result.ends }
{
    let first = start as u32;
    let mut begins = [first; 16];
    let mut ends = [first; 16];
    let mut place = start;
    'tables: for table in 0..rows.tables() {
        begins[table] = place as u32;
        place = end_of_table(rows, table, place, end);
        ends[table] = place as u32;
    }
    TablePlaces { begins, ends }
}

// The greatest number of rows that one of so many tables has between two places.
fn most_between(tables: usize, begins: &[u32; 16], ends: &[u32; 16]) -> usize
    requires { tables ≤ 16 }
    ensures { result ≡ most_between begins.now ends.now tables }
{
    let mut most = 0usize;
    'tables: for table in 0..tables {
        most = most.max(ends[table].saturating_sub(begins[table]) as usize);
    }
    most
}

/// The rows of the key behind a place between keys, none of whose loads were given; None exactly where no row is left.
pub(crate) fn next_key(rows: &SortedRows, place: &KeyPlace) -> Option<KeyRows>
    requires tables { HasTables rows.now }
    requires place { IsBetweenKeys rows.now place.now }
    ensures { IsNextKey rows.now place.now result }
{
    if place.start >= rows.len() {
        return None;
    }
    let end = end_of_key(rows, place.start);
    let places = table_places(rows, place.start, end);
    let count = most_between(rows.tables(), &places.begins, &places.ends);
    Some(KeyRows {
        begins: places.begins,
        ends: places.ends,
        end,
        count,
        given: 0,
    })
}
