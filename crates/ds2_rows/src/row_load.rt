//! The load of a row.
ghost use Rattle.std.specs.Prelude.{◌≡◌, ◌+◌, ◌^◌, ◌<◌, ◌≤◌, Some, length, min, slice_get, slice_set, replicate};
ghost use Rattle.std.specs.Option.{option_map};
ghost use Rattle.ds2_table.specs.Loads.{KeyedLoad, set_loads};
ghost use Rattle.ds2_reading.specs.KeyOrder.{IsThere, row_in};
ghost use Rattle.ds2_reading.specs.LoadMeaning.{load_meaning};
ghost use Rattle.ds2_reading.specs.Places.{all_rows};
ghost use Rattle.ds2_rows.specs.SetPlaces.{IsReady};

use ds2_reading::{Load, SortedRows, TableRow, flags};

// For each table that no row of it is read, and of one table the row of this number.
fn one_row(row: TableRow) -> [u64; 16]
    requires table { row.table < 16 }
    ensures { result ≡ slice_set (replicate 16 18446744073709551615) row.table row.row }
{
    let mut rows = [u64::MAX; 16];
    rows[row.table] = row.row as u64;
    rows
}

// The load of the row at a place.
fn load_of_row(rows: &SortedRows, place: usize, row: TableRow) -> Load
    requires ready { IsReady rows.now place }
    requires row { Some (row_in rows.now.tables row) ≡ slice_get (all_rows rows.now.descending rows.now.tables) place }
    requires there { IsThere rows.now.tables row }
    ensures { Some (load_meaning (length rows.now.tables) (length rows.now.descending) result)
        ≡ option_map (λ (l : KeyedLoad). l.load) (slice_get (set_loads rows.now.descending rows.now.tables) place) }
{
    let bys = rows.bys();
    let first = rows.common_at(place);
    let last = rows.common_at(place + 1);
    Load {
        rows: one_row(row),
        is_fresh: flags::opens_key(place, first, bys),
        first: flags::all_but(first, bys),
        last: flags::all_but(last, bys),
        present: flags::one(row.table),
    }
}

/// The load at a place, and the place behind it; None exactly behind the last one.
pub(crate) fn next_load(rows: &SortedRows, place: &mut usize) -> Option<Load>
    requires { IsReady rows.now place.old }
    ensures load { option_map (load_meaning (length rows.now.tables) (length rows.now.descending)) result
        ≡ option_map (λ (l : KeyedLoad). l.load) (slice_get (set_loads rows.now.descending rows.now.tables) place.old) }
    ensures given { place.new ≡ min (place.old + 1) (length (set_loads rows.now.descending rows.now.tables)) }
    ensures place { IsReady rows.now place.new }
{
    let here = *place;
    let row = rows.row_at(here)?;
    *place = here + 1;
    Some(load_of_row(rows, here, row))
}
