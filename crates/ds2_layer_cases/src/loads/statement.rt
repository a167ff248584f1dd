//! The reading statement of a case.
use crate::loads::lines::{ByLine, by_lines, table_of};
use crate::loads::mistake::Mistake;
use ds2_base::{List, Name};
use ds2_reading::{ByKey, HashKey, ReadTable, Reading, Tables};
use ds2_table::Table;
use std::alloc::Global;
use std::sync::Arc;

/// A reading statement, and the tables that it reads.
#[derive(Drop)]
pub struct Statement {
    pub tables: Tables,
    pub reading: Reading,
}

// The place of a name in a list, or the length of the list.
fn place_of(names: &[Name], name: &str) -> usize {
    for (place, other) in names.iter().enumerate() {
        if other.as_str() == name {
            return place;
        }
    }
    names.len()
}

// A place as a number of a slot or a table.
fn number_of(place: usize) -> Result<u32, Mistake> {
    u32::try_from(place).map_err(|_| Mistake::NoFit)
}

// The slot of a column: the same for columns of one name.
fn slot(alloc: Global, names: &mut List<Name>, name: &Name) -> Result<u32, Mistake> {
    let place = place_of(names.as_slice(), name.as_str());
    if place == names.len() {
        names.push(name.copy(alloc)?)?;
    }
    number_of(place)
}

// The slots of the columns of a table.
fn slots(alloc: Global, names: &mut List<Name>, table: &Table) -> Result<List<u32>, Mistake> {
    let mut slots = List::new(alloc);
    for column in table.schema().columns().as_slice() {
        slots.push(slot(alloc, names, &column.name)?)?;
    }
    Ok(slots)
}

// The BY variables; one that is no column has a slot that no column has.
fn by_keys(alloc: Global, names: &[Name], lines: &[ByLine<'_>]) -> Result<List<ByKey>, Mistake> {
    let mut bys = List::new(alloc);
    for line in lines {
        bys.push(ByKey {
            slot: number_of(place_of(names, line.name))?,
            is_descending: line.is_descending,
            first: 0,
            last: 0,
        })?;
    }
    Ok(bys)
}

// A table that is read, where columns of one name have one slot.
fn read(
    alloc: Global,
    names: &mut List<Name>,
    number: usize,
    table: &Table,
) -> Result<ReadTable, Mistake> {
    Ok(ReadTable {
        table: number_of(number)?,
        slots: slots(alloc, names, table)?,
        in_flag: None,
    })
}

// Adds a table.
fn push_table(alloc: Global, tables: &mut Tables, table: Table) -> Result<(), Mistake> {
    match Arc::new(alloc, table) {
        Ok(shared) => Ok(tables.push(shared)?),
        Err(_) => Err(Mistake::OutOfMemory),
    }
}

/// The statement of a case.
pub fn statement_of(alloc: Global, block: &str) -> Result<Statement, Mistake> {
    let lines = by_lines(alloc, block)?;
    let mut names = List::new(alloc);
    let mut tables = Tables::new(alloc, HashKey::new());
    let mut reads = List::new(alloc);
    for file in block.split("table\n").skip(1) {
        let table = table_of(alloc, file)?;
        reads.push(read(alloc, &mut names, tables.len(), &table)?)?;
        push_table(alloc, &mut tables, table)?;
    }
    let bys = by_keys(alloc, names.as_slice(), lines.as_slice())?;
    Ok(Statement {
        tables,
        reading: Reading { tables: reads, bys },
    })
}
