//! The places where groups begin.
ghost use Rattle.std.specs.Prelude.{◌≤◌, length, IfOk};
ghost use Rattle.ds2_merge.specs.KeyPlaces.{HasTables, IsKeyEntered, HasKeyPlaces, StandAtKeys, key_place_behind};

use crate::key_place::{KeyPlace, KeyRows};
use crate::next_key::next_key;
use ds2_base::{List, OutOfMemory};
use ds2_reading::SortedRows;
use std::alloc::Global;

// The places where groups begin, with the one before a key where it opens a group.
fn with_opening(
    rows: &SortedRows,
    grain: usize,
    place: &KeyPlace,
    key: &KeyRows,
    mut places: List<KeyPlace>,
) -> Result<List<KeyPlace>, OutOfMemory>
    requires grain { grain ≤ length rows.now.descending }
    requires above { 1 ≤ grain }
    requires tables { HasTables rows.now }
    requires key { IsKeyEntered rows.now place.now key.now }
    requires places { HasKeyPlaces rows.now grain place.now places }
    ensures { IfOk result (λ more. HasKeyPlaces rows.now grain (key_place_behind place.now key.now) more) }
{
    if !rows.opens_group(grain, place.start) {
        return Ok(places);
    }
    places.push(*place)?;
    Ok(places)
}

/// The places where the groups of a grain begin, and the one behind the last load.
pub(crate) fn group_places(
    alloc: Global,
    rows: &SortedRows,
    grain: usize,
) -> Result<List<KeyPlace>, OutOfMemory>
    requires grain { grain ≤ length rows.now.descending }
    requires above { 1 ≤ grain }
    requires tables { HasTables rows.now }
    ensures { IfOk result (λ places. StandAtKeys rows.now grain places) }
{
    let mut place = KeyPlace::start();
    let mut places = List::new(alloc);
    'keys: while let Some(key) = next_key(rows, &place) {
        places = with_opening(rows, grain, &place, &key, places)?;
        place = place.behind(&key);
    }
    places.push(place)?;
    Ok(places)
}
