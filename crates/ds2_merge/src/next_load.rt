//! The load that comes next.
ghost use Rattle.std.specs.Prelude.{◌≡◌, ◌+◌, length, min, slice_get};
ghost use Rattle.std.specs.Option.{option_map};
ghost use Rattle.ds2_table.specs.Loads.{KeyedLoad, merge_loads};
ghost use Rattle.ds2_reading.specs.LoadMeaning.{load_meaning};
ghost use Rattle.ds2_merge.specs.KeyPlaces.{IsReadyToMerge, IsCurrentKey, loads_given};

use crate::key_load::load_of_key;
use crate::key_place::{KeyRows, MergePlace};
use crate::next_key::next_key;
use ds2_reading::{Load, SortedRows};

// The key whose load comes next; None exactly behind the last load.
fn current_key(rows: &SortedRows, place: &MergePlace) -> Option<KeyRows>
    requires { IsReadyToMerge rows.now place.now }
    ensures { IsCurrentKey rows.now place.now result }
{
    match place.key {
        Some(key) => Some(key),
        None => next_key(rows, &place.place),
    }
}

/// The next load behind a place, and the place behind it; None exactly behind the last one.
pub(crate) fn next_load(rows: &SortedRows, place: &mut MergePlace) -> Option<Load>
    requires { IsReadyToMerge rows.now place.old }
    ensures load { option_map (load_meaning (length rows.now.tables) (length rows.now.descending)) result
        ≡ option_map (λ (l : KeyedLoad). l.load) (slice_get (merge_loads rows.now.descending rows.now.tables) (loads_given place.old)) }
    ensures given { loads_given place.new ≡ min (loads_given place.old + 1) (length (merge_loads rows.now.descending rows.now.tables)) }
    ensures place { IsReadyToMerge rows.now place.new }
{
    let key = current_key(rows, place)?;
    let load = load_of_key(rows, &place.place, &key);
    *place = MergePlace::behind_load(&place.place, &key);
    Some(load)
}
