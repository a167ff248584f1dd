//! Loads, as lines.
use ds2_reading::Load;
use std::alloc::{AllocError, Global};

// One flag after the other.
fn push_flags(line: &mut String, flags: u16, count: usize) -> Result<(), AllocError> {
    let mut left = flags;
    for _ in 0..count {
        line.push(if left % 2 == 1 { '1' } else { '0' })?;
        left /= 2;
    }
    Ok(())
}

// The number of a row from 1, or `-` where no row is read.
fn push_row(alloc: Global, line: &mut String, row: u64) -> Result<(), AllocError> {
    match row.checked_add(1) {
        None => line.push_str(" -"),
        Some(number) => {
            let text = format!(in alloc; " {number}")?;
            line.push_str(text.as_str())
        }
    }
}

/// A load of a statement of so many tables and BY variables.
pub fn line_of(
    alloc: Global,
    load: &Load,
    tables: usize,
    bys: usize,
) -> Result<String, AllocError> {
    let mut line = String::from_str(alloc, if load.is_fresh { "fresh" } else { "further" })?;
    for row in load.rows.iter().take(tables) {
        push_row(alloc, &mut line, *row)?;
    }
    line.push_str(" first ")?;
    push_flags(&mut line, load.first, bys)?;
    line.push_str(" last ")?;
    push_flags(&mut line, load.last, bys)?;
    line.push_str(" in ")?;
    push_flags(&mut line, load.present, tables)?;
    Ok(line)
}
