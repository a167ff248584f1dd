//! The reading statement of code, over the numbers of its tables.
ghost use Rattle.std.specs.Prelude.{◌≡◌, ◌<◌, ◌^◌, length, map, IfOk};
ghost use Rattle.ds2_code_answer.specs.CodeLoads.{read_numbered, reads_numbered, by_key_of_part, reading_over};
ghost use Rattle.ds2_code_answer.specs.CodeTables.{hash_references};

use ds2_base::{List, OutOfMemory};
use ds2_code::{ByPart, HashPart, ReadPart};
use ds2_reading::{ByKey, ReadTable, Reading};
use std::alloc::Global;

/// How many of these hash objects are loaded from a table.
pub fn loaded_hashes(hashes: &[HashPart]) -> usize
    ensures { result ≡ length (hash_references hashes.now) }
{
    let mut count: usize = 0;
    let mut rest = hashes;
    'hashes: while let [hash, after @ ..] = rest {
        if hash.loaded.is_some() {
            count += 1;
        }
        rest = after;
    }
    count
}

// A table of a statement under its number. One that is no number of 32 bits is refused as want of memory.
fn read_table(alloc: Global, number: usize, read: &ReadPart) -> Result<ReadTable, OutOfMemory>
    ensures table { IfOk result (λ table. table ≡ read_numbered number read.now) }
    ensures number { IfOk result (λ table. number < 2 ^ 32) }
{
    let Ok(table) = u32::try_from(number) else {
        return Err(OutOfMemory);
    };
    Ok(ReadTable {
        table,
        slots: read.slots.copy(alloc)?,
        in_flag: read.present,
    })
}

// The tables of a statement, numbered from this number on.
fn read_tables(
    alloc: Global,
    first: usize,
    reads: &[ReadPart],
) -> Result<List<ReadTable>, OutOfMemory>
    ensures { IfOk result (λ tables. tables ≡ reads_numbered first reads.now) }
{
    let mut tables = List::new(alloc);
    let mut number = first;
    let mut rest = reads;
    'reads: while let [read, after @ ..] = rest {
        tables.push(read_table(alloc, number, read)?)?;
        number += 1;
        rest = after;
    }
    Ok(tables)
}

// The BY variables of a statement.
fn by_keys(alloc: Global, bys: &[ByPart]) -> Result<List<ByKey>, OutOfMemory>
    ensures { IfOk result (λ keys. keys ≡ map by_key_of_part bys.now) }
{
    let mut keys = List::new(alloc);
    let mut rest = bys;
    'bys: while let [by, after @ ..] = rest {
        keys.push(ByKey {
            slot: by.slot,
            is_descending: by.is_descending,
            first: by.first,
            last: by.last,
        })?;
        rest = after;
    }
    Ok(keys)
}

/// The statement over tables that are numbered from this number on.
pub fn statement_over(
    alloc: Global,
    first: usize,
    reads: &[ReadPart],
    bys: &[ByPart],
) -> Result<Reading, OutOfMemory>
    ensures { IfOk result (λ reading. reading ≡ reading_over first reads.now bys.now) }
{
    let tables = read_tables(alloc, first, reads)?;
    let bys = by_keys(alloc, bys)?;
    Ok(Reading { tables, bys })
}
