//! The cursor over the loads of `merge`.
ghost use Rattle.std.specs.Prelude.{◌≡◌, ◌≤◌, IsTrue, IfOk, length};
ghost use Rattle.std.specs.Option.{option_map};
ghost use Rattle.ds2_table.specs.Loads.{merge_loads};
ghost use Rattle.ds2_reading.specs.ReadingFits.{reading_fits_tables};
ghost use Rattle.ds2_reading.specs.CursorState.{cursor_at_start, next_load_of, behind_next, group_count, start_of_group, before_group};
ghost use Rattle.ds2_reading.specs.LoadMeaning.{load_meaning};
ghost use Rattle.ds2_reading.specs.ReadingKeys.{directions_of, keys_of_reading};

use crate::groups::group_places;
use crate::key_place::{KeyPlace, MergePlace};
use crate::next_load::next_load;
use ds2_base::{List, OutOfMemory};
use ds2_reading::{Load, Reading, SortedRows, Tables};
use std::alloc::Global;
use std::marker::Model;
use std::sync::Arc;

/// A cursor over the loads of `merge`. All its memory is taken at opening.
#[derive(Drop)]
pub struct MergeCursor {
    rows: SortedRows,
    grain: u32,
    place: MergePlace,
    // where each group begins, and behind the last one; copies share it
    groups: Arc<List<KeyPlace>, Global>,
}

impl Model for MergeCursor {
    ghost use Rattle.std.specs.Arc.{arc_value};
    ghost use Rattle.std.specs.Prelude.{length};
    ghost use Rattle.ds2_table.specs.Loads.{merge_loads};
    ghost use Rattle.ds2_reading.specs.CursorState.{Cursor};
    ghost use Rattle.ds2_merge.specs.KeyPlaces.{IsReadyToMerge, StandAtKeys, loads_given};

    ghost Value = { Cursor };

    ghost view = { λ c. record {
      tables = length c.rows.tables;
      bys = length c.rows.descending;
      grain = c.grain;
      loads = merge_loads c.rows.descending c.rows.tables;
      given = loads_given c.place;
    } };

    ghost invariant = { λ c. IsReadyToMerge c.rows c.place × StandAtKeys c.rows c.grain (arc_value c.groups) };
}

impl MergeCursor {
    /// Sorts the rows of the tables and finds where the groups of this grain begin.
    pub fn open(
        alloc: Global,
        reading: &Reading,
        tables: &Tables,
        grain: u32,
    ) -> Result<MergeCursor, OutOfMemory>
        requires fits { IsTrue (reading_fits_tables tables.now reading.now) }
        requires grain { grain ≤ length reading.now.bys }
        requires above { 1 ≤ grain }
        ensures { IfOk result (λ cursor. cursor
            ≡ cursor_at_start (length reading.now.tables) (length reading.now.bys) grain
            (merge_loads (directions_of reading.now.bys) (keys_of_reading tables.now reading.now))) }
    {
        let rows = SortedRows::open(alloc, reading, tables)?;
        let _rows = rows.len();
        rows.have_keys();
        let places = group_places(alloc, &rows, grain as usize)?;
        let groups = Arc::new(alloc, places)?;
        let place = MergePlace::between(KeyPlace::start());
        Ok(MergeCursor {
            rows,
            grain,
            place,
            groups,
        })
    }

    /// The next load; None exactly behind the last one. Takes no memory.
    pub fn next_load(&mut self) -> Option<Load>
        ensures load { option_map (load_meaning self.old.tables self.old.bys) result ≡ next_load_of self.old }
        ensures left { self.new ≡ behind_next self.old }
    {
        next_load(&self.rows, &mut self.place)
    }

    /// The number of groups: at grain p of loads with equal values of the first p BY variables.
    pub fn groups(&self) -> u64
        ensures { result ≡ group_count self.now }
    {
        (self.groups.len() - 1) as u64
    }

    /// The number of the load that opens a group, from 0; behind the last group the number of all loads.
    pub fn group_start(&self, g: u64) -> u64
        requires { g ≤ group_count self.now }
        ensures { result ≡ start_of_group self.now g }
    {
        match self.groups.get(g as usize) {
            None => unreachable!(),
            Some(place) => place.loads as u64,
        }
    }

    /// Goes before the first load of a group, or behind the last load. Takes no memory.
    pub fn seek(&mut self, g: u64)
        requires { g ≤ group_count self.old }
        ensures { self.new ≡ before_group g self.old }
    {
        match self.groups.get(g as usize) {
            None => unreachable!(),
            Some(place) => self.place = MergePlace::between(*place),
        }
    }

    /// A cursor over the same loads, at the same load. What was found at opening is shared, so this takes no walk over the rows.
    pub fn copy(&self, alloc: Global) -> Result<MergeCursor, OutOfMemory>
        ensures { IfOk result (λ cursor. cursor ≡ self.now) }
    {
        Ok(MergeCursor {
            rows: self.rows.copy(alloc)?,
            grain: self.grain,
            place: self.place,
            groups: self.groups.clone()?,
        })
    }
}
