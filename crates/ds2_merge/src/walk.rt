//! The walk over the loads of `merge`.
ghost use Rattle.std.specs.Prelude.{◌≡◌, IsTrue, IfOk, length};
ghost use Rattle.std.specs.Option.{option_map};
ghost use Rattle.ds2_table.specs.Loads.{merge_loads};
ghost use Rattle.ds2_reading.specs.ReadingFits.{reading_fits_tables};
ghost use Rattle.ds2_reading.specs.CursorState.{cursor_at_start, next_load_of, behind_next};
ghost use Rattle.ds2_reading.specs.LoadMeaning.{load_meaning};
ghost use Rattle.ds2_reading.specs.ReadingKeys.{directions_of, keys_of_reading};

use crate::key_place::{KeyPlace, MergePlace};
use crate::next_load::next_load;
use ds2_base::OutOfMemory;
use ds2_reading::{Load, Reading, SortedRows, Tables};
use std::alloc::Global;
use std::marker::Model;

/// A walk over the loads of `merge`, from the first to the last, for those who ask for no groups: it keeps the numbers of the rows in BY
/// order alone. Without BY variables all rows have one key. All its memory is taken at opening. A contract sees a cursor at grain 0.
#[derive(Drop)]
pub struct MergeWalk {
    rows: SortedRows,
    place: MergePlace,
}

impl Model for MergeWalk {
    ghost use Rattle.std.specs.Prelude.{length};
    ghost use Rattle.ds2_table.specs.Loads.{merge_loads};
    ghost use Rattle.ds2_reading.specs.CursorState.{Cursor};
    ghost use Rattle.ds2_merge.specs.KeyPlaces.{IsReadyToMerge, loads_given};

    ghost Value = { Cursor };

    ghost view = { λ w. record {
      tables = length w.rows.tables;
      bys = length w.rows.descending;
      grain = 0;
      loads = merge_loads w.rows.descending w.rows.tables;
      given = loads_given w.place;
    } };

    ghost invariant = { λ w. IsReadyToMerge w.rows w.place };
}

impl MergeWalk {
    /// Sorts the rows of the tables.
    pub fn open(alloc: Global, reading: &Reading, tables: &Tables) -> Result<MergeWalk, OutOfMemory>
        requires fits { IsTrue (reading_fits_tables tables.now reading.now) }
        ensures { IfOk result (λ walk. walk
            ≡ cursor_at_start (length reading.now.tables) (length reading.now.bys) 0
            (merge_loads (directions_of reading.now.bys) (keys_of_reading tables.now reading.now))) }
    {
        let rows = SortedRows::open(alloc, reading, tables)?;
        let _rows = rows.len();
        rows.have_keys();
        let place = MergePlace::between(KeyPlace::start());
        Ok(MergeWalk { rows, place })
    }

    /// The next load; None exactly behind the last one. Takes no memory.
    pub fn next_load(&mut self) -> Option<Load>
        ensures load { option_map (load_meaning self.old.tables self.old.bys) result ≡ next_load_of self.old }
        ensures left { self.new ≡ behind_next self.old }
    {
        next_load(&self.rows, &mut self.place)
    }

    /// A walk over the same loads, at the same load. The numbers of the rows are shared.
    pub fn copy(&self, alloc: Global) -> Result<MergeWalk, OutOfMemory>
        ensures { IfOk result (λ walk. walk ≡ self.now) }
    {
        Ok(MergeWalk {
            rows: self.rows.copy(alloc)?,
            place: self.place,
        })
    }
}
