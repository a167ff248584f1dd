//! The places where groups begin.
ghost use Rattle.std.specs.Prelude.{◌+◌, ◌^◌, ◌<◌, ◌≤◌, length, IfOk};
ghost use Rattle.ds2_table.specs.LoadLaws.{HaveTableKeys};
ghost use Rattle.ds2_reading.specs.Places.{all_rows};
ghost use Rattle.ds2_rows.specs.SetPlaces.{HasStarts, StandAtGroups};

use ds2_base::{List, OutOfMemory};
use ds2_reading::SortedRows;
use std::alloc::Global;

// The places where groups begin, with this one where a group opens there.
fn with_opening(
    rows: &SortedRows,
    grain: usize,
    place: usize,
    mut starts: List<u32>,
) -> Result<List<u32>, OutOfMemory>
    requires grain { grain ≤ length rows.now.descending }
    requires keys { HaveTableKeys rows.now.descending rows.now.tables }
    requires place { place < length (all_rows rows.now.descending rows.now.tables) }
    requires bound { place < 2 ^ 32 }
    requires starts { HasStarts rows.now grain place starts }
    ensures { IfOk result (λ more. HasStarts rows.now grain (place + 1) more) }
{
    if !rows.opens_group(grain, place) {
        return Ok(starts);
    }
    starts.push(place as u32)?;
    Ok(starts)
}

/// The places where the groups of a grain begin, and the one behind the last load.
pub(crate) fn group_starts(
    alloc: Global,
    rows: &SortedRows,
    grain: usize,
) -> Result<List<u32>, OutOfMemory>
    requires { grain ≤ length rows.now.descending }
    ensures { IfOk result (λ starts. StandAtGroups rows.now grain starts) }
{
    rows.have_keys();
    let count = rows.len();
    let mut starts = List::new(alloc);
    'places: for place in 0..count {
        starts = with_opening(rows, grain, place, starts)?;
    }
    starts.push(count as u32)?;
    Ok(starts)
}
