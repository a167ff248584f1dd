//! One case.
ghost use Rattle.std.specs.Prelude.{◌≡◌, ◌≤◌, IsTrue, length};
ghost use Rattle.ds2_reading.specs.ReadingFits.{reading_fits_tables};
ghost use Rattle.ds2_reading.specs.CursorState.{group_count};
ghost use Rattle.ds2_layer_cases.specs.LoadCursors.{cursor_in};

use crate::loads::cursor::LoadCursor;
use crate::loads::lines::{grain, is_merge};
use crate::loads::load_line::line_of;
use crate::loads::mistake::Mistake;
use crate::loads::statement::{Statement, statement_of};
use ds2_base::OutOfMemory;
use ds2_merge::MergeCursor;
use ds2_reading::Load;
use ds2_rows::SetCursor;
use std::alloc::{AllocError, Global};
use std::io;

// How many tables and BY variables a statement has.
#[derive(Clone, Copy)]
struct Width {
    tables: usize,
    bys: usize,
}

// A cursor of `set` without BY variables.
fn open_rows(alloc: Global, statement: &Statement) -> Result<LoadCursor, Mistake>
    requires fits { IsTrue (reading_fits_tables statement.now.tables statement.now.reading) }
    requires bys { length statement.now.reading.bys ≡ 0 }
{
    let cursor = SetCursor::open(alloc, &statement.reading, &statement.tables, 0)?;
    Ok(LoadCursor::Set(cursor))
}

// A cursor of `set`.
fn open_set(alloc: Global, statement: &Statement, grain: u32) -> Result<LoadCursor, Mistake>
    requires fits { IsTrue (reading_fits_tables statement.now.tables statement.now.reading) }
    requires grain { grain ≤ length statement.now.reading.bys }
    requires above { 1 ≤ grain }
{
    let cursor = SetCursor::open(alloc, &statement.reading, &statement.tables, grain)?;
    Ok(LoadCursor::Set(cursor))
}

// A cursor of `merge`.
fn open_merge(alloc: Global, statement: &Statement, grain: u32) -> Result<LoadCursor, Mistake>
    requires fits { IsTrue (reading_fits_tables statement.now.tables statement.now.reading) }
    requires grain { grain ≤ length statement.now.reading.bys }
    requires above { 1 ≤ grain }
{
    let cursor = MergeCursor::open(alloc, &statement.reading, &statement.tables, grain)?;
    Ok(LoadCursor::Merge(cursor))
}

// The cursor of a statement with groups by BY variables.
fn open_by(
    alloc: Global,
    statement: &Statement,
    is_merge: bool,
    grain: u32,
) -> Result<LoadCursor, Mistake>
    requires fits { IsTrue (reading_fits_tables statement.now.tables statement.now.reading) }
    requires grain { grain ≤ length statement.now.reading.bys }
    requires above { 1 ≤ grain }
{
    if is_merge {
        open_merge(alloc, statement, grain)
    } else {
        open_set(alloc, statement, grain)
    }
}

// The cursor of a statement.
fn open(
    alloc: Global,
    statement: &Statement,
    is_merge: bool,
    grain: u32,
) -> Result<LoadCursor, Mistake> {
    if !statement.reading.fits(&statement.tables) {
        return Err(Mistake::NoFit);
    }
    if grain as usize > statement.reading.bys.len() {
        return Err(Mistake::GrainTooFine);
    }
    if grain > 0 {
        return open_by(alloc, statement, is_merge, grain);
    }
    if is_merge || !statement.reading.bys.is_empty() {
        return Err(Mistake::NoGrain);
    }
    open_rows(alloc, statement)
}

// A load behind some words, or that there is none.
fn show_load(rt: &HostRuntime, words: &str, load: Option<Load>, width: Width) -> io::Result<()> {
    let Some(load) = load else {
        return println!(rt; "    {words}none");
    };
    match line_of(rt.alloc(), &load, width.tables, width.bys) {
        Ok(line) => println!(rt; "    {words}{line}"),
        Err(AllocError) => println!(rt; "    want of memory"),
    }
}

// All loads, and that there is none behind the last one.
fn show_loads(rt: &HostRuntime, cursor: &mut LoadCursor, width: Width) -> io::Result<()> {
    for _ in 0..u64::MAX {
        let load = cursor.next_load();
        if load.is_none() {
            break;
        }
        show_load(rt, "", load, width)?;
    }
    show_load(rt, "", cursor.next_load(), width)
}

// Where the groups begin, and where the loads end.
fn show_starts(rt: &HostRuntime, cursor: &LoadCursor) -> io::Result<()> {
    let groups = cursor.groups();
    for g in 0..groups {
        let start = cursor.group_start(g);
        println!(rt; "    group at {start}")?;
    }
    let end = cursor.group_start(groups);
    println!(rt; "    end at {end}")
}

// The load that a copy of a cursor gives, set before a group.
fn show_from(rt: &HostRuntime, cursor: &LoadCursor, g: u64, width: Width) -> io::Result<()>
    requires { g ≤ group_count (cursor_in cursor.now) }
{
    match cursor.load_from(rt.alloc(), g) {
        Ok(load) => show_load(rt, "from there ", load, width),
        Err(OutOfMemory) => println!(rt; "    want of memory"),
    }
}

// The first load of each group, and that there is none behind the last one.
fn show_groups(rt: &HostRuntime, cursor: &LoadCursor, width: Width) -> io::Result<()> {
    let groups = cursor.groups();
    for g in 0..groups {
        show_from(rt, cursor, g, width)?;
    }
    show_from(rt, cursor, groups, width)
}

fn cursor_of(alloc: Global, block: &str) -> Result<(LoadCursor, Width), Mistake> {
    let statement = statement_of(alloc, block)?;
    let cursor = open(alloc, &statement, is_merge(block), grain(block)?)?;
    let width = Width {
        tables: statement.reading.tables.len(),
        bys: statement.reading.bys.len(),
    };
    Ok((cursor, width))
}

/// Prints the loads of a case, and its groups.
pub fn run_case(rt: &HostRuntime, block: &str) -> io::Result<()> {
    match cursor_of(rt.alloc(), block) {
        Err(mistake) => println!(rt; "    {mistake}"),
        Ok((cursor, width)) => {
            let mut cursor = cursor;
            show_loads(rt, &mut cursor, width)?;
            show_starts(rt, &cursor)?;
            show_groups(rt, &cursor, width)
        }
    }
}
