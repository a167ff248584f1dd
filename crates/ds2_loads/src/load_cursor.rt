//! The place in the loads of a program.
ghost use Rattle.std.specs.Prelude.{◌≡◌, ◌+◌, ◌<◌, ◌≤◌, IfOk, length};
ghost use Rattle.ds2_reading.specs.CursorState.{group_count, start_of_group};
ghost use Rattle.ds2_loads.specs.declared.table_load.TableLoad.{TableLoad as LoadOf};
ghost use Rattle.ds2_loads.specs.LoadCursors.{IsCursorOver, HasGivenNext, HasEntered, cursor_groups, group_number, load_gone_to, tables_by_row};

use crate::kept_loads::KeptLoads;
use crate::row_place::RowPlace;
use crate::rows_in_turn::next_row;
use ds2_base::OutOfMemory;
use ds2_merge::{MergeCursor, MergeWalk};
use ds2_reading::{Load, ReadTable, Tables};
use ds2_rows::{SetCursor, SetWalk};
use std::alloc::Global;

/// A place in the loads of a program, and in their groups: those of `set`, those of `merge` with BY variables, or loads that are kept,
/// each a group. The rows of `set` without BY variables in their order, and walks over `set` and `merge`, have no groups.
#[derive(Drop)]
pub(crate) enum LoadCursor {
    Rows(RowPlace),
    SetWalk(SetWalk),
    MergeWalk(MergeWalk),
    Set(SetCursor),
    Merge(MergeCursor),
    Kept(KeptLoads),
}

impl LoadCursor {
    /// Goes to the next load of a statement over these tables, and makes `load` that one; false exactly behind the last one. Takes no
    /// memory.
    pub(crate) fn next_load(
        &mut self,
        tables: &Tables,
        reads: &[ReadTable],
        load: &mut Load,
    ) -> bool
        requires { tables_by_row (length reads.now) self.old ≤ 16 }
        ensures { (at : LoadOf) → at.tables.now ≡ tables.now → at.reading.now.tables ≡ reads.now → IsCursorOver at.reading.now self.old
            → HasGivenNext at (load_gone_to result load.new) self.old self.new }
    {
        match self {
            LoadCursor::Rows(place) => next_row(tables, reads, place, load),
            LoadCursor::SetWalk(walk) => put(walk.next_load(), load),
            LoadCursor::MergeWalk(walk) => put(walk.next_load(), load),
            LoadCursor::Set(cursor) => put(cursor.next_load(), load),
            LoadCursor::Merge(cursor) => put(cursor.next_load(), load),
            LoadCursor::Kept(loads) => put(loads.next_load(), load),
        }
    }

    /// How many groups there are.
    pub(crate) fn groups(&self) -> u64
        ensures { (at : LoadOf) → result ≡ length (cursor_groups at self.now) }
    {
        match self {
            LoadCursor::Rows(_) => 0,
            LoadCursor::SetWalk(_) => 0,
            LoadCursor::MergeWalk(_) => 0,
            LoadCursor::Set(cursor) => cursor.groups(),
            LoadCursor::Merge(cursor) => cursor.groups(),
            LoadCursor::Kept(loads) => loads.loads.len() as u64,
        }
    }

    /// Goes before the first load of a group, and tells how many loads it has. Takes no memory.
    pub(crate) fn enter(&mut self, g: u64) -> u64
        requires { g < group_number self.old }
        ensures { (at : LoadOf) → HasEntered at g result self.old self.new }
    {
        match self {
            LoadCursor::Rows(_) => unreachable!(),
            LoadCursor::SetWalk(_) => unreachable!(),
            LoadCursor::MergeWalk(_) => unreachable!(),
            LoadCursor::Set(cursor) => {
                let loads = set_group(cursor, g);
                cursor.seek(g);
                loads
            }
            LoadCursor::Merge(cursor) => {
                let loads = merge_group(cursor, g);
                cursor.seek(g);
                loads
            }
            LoadCursor::Kept(loads) => {
                loads.given = g as usize;
                1
            }
        }
    }

    /// An equal cursor.
    pub(crate) fn copy(&self, alloc: Global) -> Result<LoadCursor, OutOfMemory>
        ensures { IfOk result (λ cursor. cursor ≡ self.now) }
    {
        match self {
            LoadCursor::Rows(place) => Ok(LoadCursor::Rows(*place)),
            LoadCursor::SetWalk(walk) => Ok(LoadCursor::SetWalk(walk.copy(alloc)?)),
            LoadCursor::MergeWalk(walk) => Ok(LoadCursor::MergeWalk(walk.copy(alloc)?)),
            LoadCursor::Set(cursor) => Ok(LoadCursor::Set(cursor.copy(alloc)?)),
            LoadCursor::Merge(cursor) => Ok(LoadCursor::Merge(cursor.copy(alloc)?)),
            LoadCursor::Kept(loads) => Ok(LoadCursor::Kept(loads.copy(alloc)?)),
        }
    }
}

// Puts the next load in its place, where there is one, and tells whether there was.
fn put(next: Option<Load>, load: &mut Load) -> bool
    ensures { load_gone_to result load.new ≡ next }
{
    match next {
        None => false,
        Some(there) => {
            *load = there;
            true
        }
    }
}

// How many loads a group of `set` has.
fn set_group(cursor: &SetCursor, g: u64) -> u64
    requires { g < group_count cursor.now }
    ensures { result + start_of_group cursor.now g ≡ start_of_group cursor.now (g + 1) }
{
    let _count = cursor.groups();
    let end = cursor.group_start(g + 1);
    let start = cursor.group_start(g);
    end - start
}

// How many loads a group of `merge` has.
fn merge_group(cursor: &MergeCursor, g: u64) -> u64
    requires { g < group_count cursor.now }
    ensures { result + start_of_group cursor.now g ≡ start_of_group cursor.now (g + 1) }
{
    let _count = cursor.groups();
    let end = cursor.group_start(g + 1);
    let start = cursor.group_start(g);
    end - start
}
