//! The loads of a program at their opening.
ghost use Rattle.std.specs.Prelude.{◌≡◌, ◌≤◌, false, IsTrue, IfOk, length};
ghost use Rattle.ds2_table.specs.Loads.{set_loads, merge_loads};
ghost use Rattle.ds2_reading.specs.ReadingKeys.{directions_of, keys_of_reading};
ghost use Rattle.ds2_reading.specs.ReadingFits.{reading_fits_tables};
ghost use Rattle.ds2_code_answer.specs.CodeLoads.{code_keyed_loads, code_reading, retains_columns};
ghost use Rattle.ds2_loads.specs.Readings.{ReadsNoThread};
ghost use Rattle.ds2_loads.specs.Grains.{IsGrainOf, IsGrainOfReading};
ghost use Rattle.ds2_loads.specs.LoadCursors.{IsOpenCursor, IsOpenWalk, bare_loads_of};

use crate::kept_loads::{KeptLoads, kept_walk, no_load};
use crate::load_cursor::LoadCursor;
use crate::row_place::RowPlace;
use crate::statement::{loaded_hashes, statement_over};
use ds2_base::{List, OutOfMemory};
use ds2_code::{ProgramParts, ReadingPart};
use ds2_merge::{MergeCursor, MergeWalk};
use ds2_reading::{Reading, Tables};
use ds2_rows::{SetCursor, SetWalk};
use ds2_table::laws::{groups_divide_loads, loads_stand_in_by_order};
use std::alloc::Global;

/// The statement by which a program reads tables, over the numbers of its tables; it has none where the program reads no tables.
pub fn statement_of(alloc: Global, program: &ProgramParts) -> Result<Reading, OutOfMemory>
    ensures { IfOk result (λ reading. reading ≡ code_reading program.now) }
{
    let first = loaded_hashes(program.hashes.as_slice());
    match &program.reading {
        ReadingPart::Set { tables, bys } => {
            statement_over(alloc, first, tables.as_slice(), bys.as_slice())
        }
        ReadingPart::Merge { tables, bys, .. } => {
            statement_over(alloc, first, tables.as_slice(), bys.as_slice())
        }
        ReadingPart::Stage { .. } => statement_over(alloc, first, &[], &[]),
        ReadingPart::Once => statement_over(alloc, first, &[], &[]),
        ReadingPart::Nothing => statement_over(alloc, first, &[], &[]),
    }
}

/// Whether columns without a row keep their values.
pub(crate) fn retains_of(reading: &ReadingPart) -> bool
    ensures { result ≡ retains_columns reading.now }
{
    match reading {
        ReadingPart::Set { .. } => false,
        ReadingPart::Merge { retains, .. } => *retains,
        ReadingPart::Stage { .. } => false,
        ReadingPart::Once => false,
        ReadingPart::Nothing => false,
    }
}

// The loads of `set`.
fn open_set(
    alloc: Global,
    reading: &Reading,
    tables: &Tables,
    grain: u32,
) -> Result<LoadCursor, OutOfMemory>
    requires fits { IsTrue (reading_fits_tables tables.now reading.now) }
    requires grain { IsGrainOf (length reading.now.bys) grain }
    ensures { IfOk result (λ cursor. IsOpenCursor reading.now grain (set_loads (directions_of reading.now.bys) (keys_of_reading tables.now reading.now)) cursor) }
{
    loads_stand_in_by_order();
    groups_divide_loads();
    let cursor = SetCursor::open(alloc, reading, tables, grain)?;
    Ok(LoadCursor::Set(cursor))
}

// The loads of `merge` with BY variables.
fn open_merge(
    alloc: Global,
    reading: &Reading,
    tables: &Tables,
    grain: u32,
) -> Result<LoadCursor, OutOfMemory>
    requires fits { IsTrue (reading_fits_tables tables.now reading.now) }
    requires grain { IsGrainOf (length reading.now.bys) grain }
    requires some { 1 ≤ length reading.now.bys }
    ensures { IfOk result (λ cursor. IsOpenCursor reading.now grain (merge_loads (directions_of reading.now.bys) (keys_of_reading tables.now reading.now)) cursor) }
{
    loads_stand_in_by_order();
    groups_divide_loads();
    let cursor = MergeCursor::open(alloc, reading, tables, grain)?;
    Ok(LoadCursor::Merge(cursor))
}

// The loads of `merge` without BY variables: all rows have one key, and each load is a group.
fn keep_merge(alloc: Global, reading: &Reading, tables: &Tables) -> Result<LoadCursor, OutOfMemory>
    requires fits { IsTrue (reading_fits_tables tables.now reading.now) }
    ensures { IfOk result (λ cursor. IsOpenCursor reading.now 0 (merge_loads (directions_of reading.now.bys) (keys_of_reading tables.now reading.now)) cursor) }
{
    let walk = MergeWalk::open(alloc, reading, tables)?;
    let loads = kept_walk(alloc, walk)?;
    Ok(LoadCursor::Kept(KeptLoads { loads, given: 0 }))
}

// The loads of a program that reads no tables: one that sets nothing, or none.
fn keep_bare(alloc: Global, reading: &Reading, is_there: bool) -> Result<LoadCursor, OutOfMemory>
    requires tables { length reading.now.tables ≡ 0 }
    requires bys { length reading.now.bys ≡ 0 }
    ensures { IfOk result (λ cursor. IsOpenCursor reading.now 0 (bare_loads_of is_there) cursor) }
{
    let mut loads = List::new(alloc);
    if is_there {
        loads.push(no_load())?;
    }
    Ok(LoadCursor::Kept(KeptLoads { loads, given: 0 }))
}

/// The loads of a program over its tables, in groups at a grain, before the first one.
pub(crate) fn open_cursor(
    alloc: Global,
    program: &ProgramParts,
    reading: &Reading,
    tables: &Tables,
    grain: u32,
) -> Result<LoadCursor, OutOfMemory>
    requires reads { ReadsNoThread program.now.reading }
    requires reading { reading.now ≡ code_reading program.now }
    requires fits { IsTrue (reading_fits_tables tables.now (code_reading program.now)) }
    requires grain { IsGrainOfReading program.now.reading grain }
    ensures { IfOk result (λ cursor. IsOpenCursor reading.now grain (code_keyed_loads program.now tables.now) cursor) }
{
    match &program.reading {
        ReadingPart::Set { .. } => open_set(alloc, reading, tables, grain),
        ReadingPart::Merge { bys, .. } => {
            if bys.is_empty() {
                keep_merge(alloc, reading, tables)
            } else {
                open_merge(alloc, reading, tables, grain)
            }
        }
        ReadingPart::Once => keep_bare(alloc, reading, true),
        ReadingPart::Nothing => keep_bare(alloc, reading, false),
        ReadingPart::Stage { .. } => unreachable!(),
    }
}

// The loads of `set` without BY variables are the rows in their order. No memory is taken for them.
fn walk_rows(reading: &Reading, tables: &Tables) -> LoadCursor
    requires fits { IsTrue (reading_fits_tables tables.now reading.now) }
    requires none { length reading.now.bys ≡ 0 }
    ensures { IsOpenWalk reading.now false tables.now (set_loads (directions_of reading.now.bys) (keys_of_reading tables.now reading.now)) result }
{
    let _reading = reading;
    let _tables = tables;
    LoadCursor::Rows(RowPlace { table: 0, row: 0 })
}

// The loads of `set`, without groups.
fn walk_set(alloc: Global, reading: &Reading, tables: &Tables) -> Result<LoadCursor, OutOfMemory>
    requires { IsTrue (reading_fits_tables tables.now reading.now) }
    ensures { IfOk result (λ cursor. IsOpenWalk reading.now false tables.now (set_loads (directions_of reading.now.bys) (keys_of_reading tables.now reading.now)) cursor) }
{
    if reading.bys.is_empty() {
        return Ok(walk_rows(reading, tables));
    }
    let walk = SetWalk::open(alloc, reading, tables)?;
    Ok(LoadCursor::SetWalk(walk))
}

// The loads of `merge`, without groups.
fn walk_merge(
    alloc: Global,
    reading: &Reading,
    retains: bool,
    tables: &Tables,
) -> Result<LoadCursor, OutOfMemory>
    requires { IsTrue (reading_fits_tables tables.now reading.now) }
    ensures { IfOk result (λ cursor. IsOpenWalk reading.now retains tables.now (merge_loads (directions_of reading.now.bys) (keys_of_reading tables.now reading.now)) cursor) }
{
    let walk = MergeWalk::open(alloc, reading, tables)?;
    Ok(LoadCursor::MergeWalk(walk))
}

// The loads of a program that reads no tables.
fn walk_bare(
    alloc: Global,
    reading: &Reading,
    is_there: bool,
    tables: &Tables,
) -> Result<LoadCursor, OutOfMemory>
    requires none { length reading.now.tables ≡ 0 }
    requires bys { length reading.now.bys ≡ 0 }
    ensures { IfOk result (λ cursor. IsOpenWalk reading.now false tables.now (bare_loads_of is_there) cursor) }
{
    let _tables = tables;
    let cursor = keep_bare(alloc, reading, is_there)?;
    Ok(cursor)
}

/// The loads of a program over its tables, without groups, before the first one.
pub(crate) fn open_walk(
    alloc: Global,
    program: &ProgramParts,
    reading: &Reading,
    tables: &Tables,
) -> Result<LoadCursor, OutOfMemory>
    requires reads { ReadsNoThread program.now.reading }
    requires reading { reading.now ≡ code_reading program.now }
    requires fits { IsTrue (reading_fits_tables tables.now (code_reading program.now)) }
    ensures { IfOk result (λ cursor. IsOpenWalk reading.now (retains_columns program.now.reading) tables.now (code_keyed_loads program.now tables.now) cursor) }
{
    match &program.reading {
        ReadingPart::Set { .. } => walk_set(alloc, reading, tables),
        ReadingPart::Merge { retains, .. } => walk_merge(alloc, reading, *retains, tables),
        ReadingPart::Once => walk_bare(alloc, reading, true, tables),
        ReadingPart::Nothing => walk_bare(alloc, reading, false, tables),
        ReadingPart::Stage { .. } => unreachable!(),
    }
}
