//! Codes: whether they are valid, and what their units do in the machine.
//!
//! An empty line stands between two cases. A case is a code, as `text` tells. Behind one that is to be run
//! stand lines that begin with `> `:
//!
//! - `> open PROGRAM PARAMETERS`, the program whose units are run (0 for the data program, k for the k-th thread program below it), and
//!   the number of parameters of the thread program that it reads from; `open 0 0` where no line says it;
//! - `> table` and below it `> row VALUES`, the tables of the hash objects that name one, in their order; values have `|` between them;
//! - `> init BUDGET`, `> run BUDGET`, `> term BUDGET`, a unit; `> run BUDGET SLOT INTEGER` sets a slot by its load;
//! - `> parameters`, what was set for the parameters of the thread program;
//! - `> copy`, from where on a copy of the machine goes on in its place.
//!
//! The answer is the case again and, below a code that is not run, `valid` or `not valid`; below each unit its ending, with the
//! budget left and the number of instructions, the rows and lines that it wrote, and whether the machine is spent. A block that begins with
//! `##` is a heading.
mod case;
mod lines;
mod text;
mod units;

use crate::codes::case::run_case;
use std::io;

/// Prints each case, and what comes of each of its lines.
pub fn run(rt: &HostRuntime, cases: &str) -> io::Result<()> {
    for block in cases.split("\n\n") {
        run_case(rt, block.trim_end())?;
        println!(rt; "")?;
    }
    Ok(())
}
