//! The loads of a key.
ghost use Rattle.std.specs.Prelude.{◌≡◌, ◌+◌, ◌<◌, ◌≤◌, length, map, take, slice_get, Some};
ghost use Rattle.std.specs.Option.{option_map};
ghost use Rattle.ds2_table.specs.Loads.{KeyedLoad, rows_with_key, matches, input_rows, merge_loads};
ghost use Rattle.ds2_reading.specs.LoadMeaning.{row_or_none, load_meaning};
ghost use Rattle.ds2_merge.specs.KeyPlaces.{IsAmongLoads, key_at, common_at_load, common_behind_load};

use crate::key_place::{KeyPlace, KeyRows};
use crate::present::tables_between;
use ds2_reading::{Load, SortedRows, flags};

// The number of the row that the next load of a key reads of a table; the greatest number where it reads none.
fn row_of_table(rows: &SortedRows, place: &KeyPlace, key: &KeyRows, table: usize) -> u64
    requires table { table < length rows.now.tables }
    requires here { IsAmongLoads rows.now place.now key.now }
    ensures { row_or_none result ≡ slice_get (rows_with_key table (key_at rows.now place.now.start) (input_rows 0 rows.now.tables)) key.now.given }
{
    let from = key.begins[table] as usize;
    if key.given >= (key.ends[table] as usize).saturating_sub(from) {
        return u64::MAX;
    }
    match rows.row_at(from + key.given) {
        None => u64::MAX,
        Some(row) => row.row as u64,
    }
}

// The rows that the next load of a key reads.
fn rows_of_load(rows: &SortedRows, place: &KeyPlace, key: &KeyRows) -> [u64; 16]
    requires here { IsAmongLoads rows.now place.now key.now }
    ensures { map row_or_none (take (length rows.now.tables) result)
        ≡ map (λ found. slice_get found key.now.given) (matches (length rows.now.tables) (key_at rows.now place.now.start) (input_rows 0 rows.now.tables)) }
{
    let mut numbers = [u64::MAX; 16];
    'tables: for table in 0..rows.tables() {
        numbers[table] = row_of_table(rows, place, key, table);
    }
    numbers
}

// In how many BY variables the next load of a key is equal to the load before; none where there is none.
fn common_before(rows: &SortedRows, place: &KeyPlace, key: &KeyRows) -> usize
    ensures { result ≡ common_at_load rows.now place.now.start key.now.given }
{
    if key.given == 0 {
        rows.common_at(place.start)
    } else {
        rows.bys()
    }
}

// Likewise to the load behind it.
fn common_behind(rows: &SortedRows, key: &KeyRows) -> usize
    requires { key.now.given < key.now.count }
    ensures { result ≡ common_behind_load rows.now key.now }
{
    if key.given + 1 < key.count {
        rows.bys()
    } else {
        rows.common_at(key.end)
    }
}

/// The next load of a key.
pub(crate) fn load_of_key(rows: &SortedRows, place: &KeyPlace, key: &KeyRows) -> Load
    requires { IsAmongLoads rows.now place.now key.now }
    ensures { Some (load_meaning (length rows.now.tables) (length rows.now.descending) result)
        ≡ option_map (λ (l : KeyedLoad). l.load) (slice_get (merge_loads rows.now.descending rows.now.tables) (place.now.loads + key.now.given)) }
{
    let bys = rows.bys();
    let first = common_before(rows, place, key);
    let last = common_behind(rows, key);
    Load {
        rows: rows_of_load(rows, place, key),
        is_fresh: flags::opens_key(place.loads.max(key.given), first, bys),
        first: flags::all_but(first, bys),
        last: flags::all_but(last, bys),
        present: tables_between(rows.tables(), &key.begins, &key.ends),
    }
}
