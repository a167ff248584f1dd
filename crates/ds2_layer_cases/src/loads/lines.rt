//! The lines of a case.
use crate::loads::mistake::Mistake;
use ds2_base::{List, Stop};
use ds2_csv::read_table;
use ds2_table::Table;
use std::alloc::Global;

/// The table of a file.
pub fn table_of(alloc: Global, file: &str) -> Result<Table, Mistake> {
    let bytes = List::from_slice(alloc, file.as_bytes())?;
    match read_table(alloc, &bytes) {
        Ok(table) => Ok(table),
        Err(Stop::Refused(_)) => Err(Mistake::NoTable),
        Err(Stop::OutOfMemory) => Err(Mistake::OutOfMemory),
    }
}

/// A BY variable, as a line says it.
#[derive(Clone, Copy)]
pub struct ByLine<'a> {
    pub name: &'a str,
    pub is_descending: bool,
}

// The BY variable of what stands behind `by `.
fn by_line(words: &str) -> Result<ByLine<'_>, Mistake> {
    match words.split_once(' ') {
        None => Ok(ByLine {
            name: words,
            is_descending: false,
        }),
        Some((name, "descending")) => Ok(ByLine {
            name,
            is_descending: true,
        }),
        Some(_) => Err(Mistake::NoLine),
    }
}

// What stands in front of the first table.
fn front(block: &str) -> &str {
    match block.split_once("table\n") {
        None => block,
        Some((front, _)) => front,
    }
}

/// The BY variables of a case, in order.
pub fn by_lines(alloc: Global, block: &str) -> Result<List<ByLine<'_>>, Mistake> {
    let mut bys = List::new(alloc);
    for line in front(block).lines() {
        if let Some(words) = line.strip_prefix("by ") {
            bys.push(by_line(words)?)?;
        }
    }
    Ok(bys)
}

/// Whether the statement of a case is a `merge`.
pub fn is_merge(block: &str) -> bool {
    for line in front(block).lines() {
        if line == "merge" {
            return true;
        }
    }
    false
}

/// The grain of a case.
pub fn grain(block: &str) -> Result<u32, Mistake> {
    for line in front(block).lines() {
        if let Some(digits) = line.strip_prefix("grain ") {
            return digits.parse::<u32>().map_err(|_| Mistake::NoLine);
        }
    }
    Ok(0)
}
