//! The loads of `set` and of `merge` over small tables.
//!
//! An empty line stands between two cases. A case is a statement and its tables:
//!
//! - `merge`, where the statement is one, and `set` where no line says so;
//! - `by NAME` and `by NAME descending`, its BY variables in order;
//! - `grain P`, by how many of them loads are in one group; 0, which a statement with BY variables cannot have, where no line says it;
//! - `table`, and below it a table as a CSV file has it.
//!
//! The answer is the case again and, below it, its loads in order: for each table the number of its row, from 1, or `-`; `fresh`
//! where the load opens a key; the flags `first` and `last` of the BY variables and those of `in=`. Behind them stand the numbers of the
//! loads that open groups, from 0, and that of all loads; then for each group, and behind the last one, the load that a copy of the
//! cursor gives that was set there. A block that begins with `##` is a heading.
mod case;
mod cursor;
mod lines;
mod load_line;
mod mistake;
mod statement;

use crate::loads::case::run_case;
use std::io;

/// Prints each case, its loads and its groups.
pub fn run(rt: &HostRuntime, cases: &str) -> io::Result<()> {
    for block in cases.split("\n\n") {
        let block = block.trim_end();
        println!(rt; "{block}")?;
        if !block.starts_with("##") {
            run_case(rt, block)?;
        }
        println!(rt; "")?;
    }
    Ok(())
}
