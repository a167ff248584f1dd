//! The rows of a statement's tables, row after row and table after table, as loads.
ghost use Rattle.std.specs.Prelude.{◌≡◌, ◌+◌, ◌^◌, ◌<◌, ◌≤◌, ℕ, [], length, drop, replicate, slice_set, IfSome, MatchOption};
ghost use Rattle.ds2_table.specs.Loads.{set_load};
ghost use Rattle.ds2_reading.specs.LoadMeaning.{load_meaning};
ghost use Rattle.ds2_reading.specs.ReadingKeys.{keys_of_table};
ghost use Rattle.ds2_loads.specs.LoadCursors.{load_gone_to};
ghost use Rattle.ds2_loads.specs.RowsBehind.{rows_behind, IsRowNext, IsRowGiven};

use crate::row_place::RowPlace;
use ds2_reading::{Load, ReadTable, Tables, flags};

// How many rows a table has.
#[tactic(auto, using(crate::proofs::RowLists::rows_counted))]
fn row_count(tables: &Tables, read: &ReadTable) -> usize
    ensures { result ≡ length (keys_of_table tables.now [] read.now) }
{
    match tables.get(read.table as usize) {
        None => 0,
        Some(table) => table.len(),
    }
}

// The first row at a place or behind it; None exactly where there is none.
#[tactic(auto, using(crate::proofs::RowLists::rows_in_turn))]
fn row_from(tables: &Tables, reads: &[ReadTable], from: RowPlace) -> Option<RowPlace>
    ensures next { MatchOption result (rows_behind tables.now from.table from.row (drop from.table reads.now) ≡ [])
        (λ place. IsRowNext tables.now reads.now (rows_behind tables.now from.table from.row (drop from.table reads.now)) place) }
    ensures room { IfSome result (λ place. place.row + 1 < 2 ^ 64) }
{
    let mut table = from.table;
    let mut row = from.row;
    'tables: while table < reads.len() {
        let count = row_count(tables, &reads[table]);
        if row < count {
            return Some(RowPlace { table, row });
        }
        table += 1;
        row = 0;
    }
    None
}

// For each table that no row of it is read, and of one table the row of this number.
fn row_alone(place: RowPlace) -> [u64; 16]
    requires table { place.table < 16 }
    ensures { result ≡ slice_set (replicate 16 18446744073709551615) place.table place.row }
{
    let mut rows = [u64::MAX; 16];
    rows[place.table] = place.row as u64;
    rows
}

// Makes a load that of a row alone, without flags of BY variables.
fn set_row_load(place: RowPlace, load: &mut Load)
    requires table { place.table < 16 }
    requires row { place.row + 1 < 2 ^ 64 }
    ensures { (count : ℕ) → count ≤ 16 → load_meaning count 0 load.new ≡ (set_load count (record { table = place.table; number = place.row; key = [] })).load }
{
    load.rows = row_alone(place);
    load.is_fresh = false;
    load.first = 0;
    load.last = 0;
    load.present = flags::one(place.table);
}

/// Makes a load that of the first row at a place or behind it, and goes behind that row; false exactly where there is none.
pub(crate) fn next_row(
    tables: &Tables,
    reads: &[ReadTable],
    place: &mut RowPlace,
    load: &mut Load,
) -> bool
    requires { length reads.now ≤ 16 }
    ensures { MatchOption (load_gone_to result load.new) (rows_behind tables.now place.old.table place.old.row (drop place.old.table reads.now) ≡ [])
        (λ given. IsRowGiven tables.now reads.now place.old place.new given) }
{
    match row_from(tables, reads, *place) {
        None => false,
        Some(here) => {
            place.table = here.table;
            place.row = here.row + 1;
            set_row_load(here, load);
            true
        }
    }
}
