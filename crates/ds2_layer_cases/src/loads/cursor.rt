//! The cursors of both statements as one.
ghost use Rattle.std.specs.Prelude.{◌≡◌, ◌≤◌};
ghost use Rattle.ds2_reading.specs.CursorState.{group_count};
ghost use Rattle.ds2_layer_cases.specs.LoadCursors.{cursor_in};

use ds2_base::OutOfMemory;
use ds2_merge::MergeCursor;
use ds2_reading::Load;
use ds2_rows::SetCursor;
use std::alloc::Global;

/// A cursor over the loads of a statement.
#[derive(Drop)]
pub enum LoadCursor {
    Set(SetCursor),
    Merge(MergeCursor),
}

// The load that a copy of a cursor of `set` gives, set before a group.
fn set_load_from(alloc: Global, cursor: &SetCursor, g: u64) -> Result<Option<Load>, OutOfMemory>
    requires { g ≤ group_count cursor.now }
{
    let mut copy = cursor.copy(alloc)?;
    copy.seek(g);
    Ok(copy.next_load())
}

// The load that a copy of a cursor of `merge` gives, set before a group.
fn merge_load_from(alloc: Global, cursor: &MergeCursor, g: u64) -> Result<Option<Load>, OutOfMemory>
    requires { g ≤ group_count cursor.now }
{
    let mut copy = cursor.copy(alloc)?;
    copy.seek(g);
    Ok(copy.next_load())
}

impl LoadCursor {
    /// The next load.
    pub fn next_load(&mut self) -> Option<Load> {
        match self {
            LoadCursor::Set(cursor) => cursor.next_load(),
            LoadCursor::Merge(cursor) => cursor.next_load(),
        }
    }

    /// The number of groups.
    pub fn groups(&self) -> u64
        ensures { result ≡ group_count (cursor_in self.now) }
    {
        match self {
            LoadCursor::Set(cursor) => cursor.groups(),
            LoadCursor::Merge(cursor) => cursor.groups(),
        }
    }

    /// The number of the load that opens a group; behind the last group that of all loads.
    pub fn group_start(&self, g: u64) -> u64
        requires { g ≤ group_count (cursor_in self.now) }
    {
        match self {
            LoadCursor::Set(cursor) => cursor.group_start(g),
            LoadCursor::Merge(cursor) => cursor.group_start(g),
        }
    }

    /// The load that a copy gives, set before a group.
    pub fn load_from(&self, alloc: Global, g: u64) -> Result<Option<Load>, OutOfMemory>
        requires { g ≤ group_count (cursor_in self.now) }
    {
        match self {
            LoadCursor::Set(cursor) => set_load_from(alloc, cursor, g),
            LoadCursor::Merge(cursor) => merge_load_from(alloc, cursor, g),
        }
    }
}
