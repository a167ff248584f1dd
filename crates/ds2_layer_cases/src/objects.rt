//! Object files, whole and spoiled.
//!
//! An empty line stands between two cases. A case is a line that names it, and a line with a word and a file in
//! hexadecimal digits, none for a file without a byte. The answer is the name again and, below it:
//!
//! - `object`, what `decode` says of the file: `Ok` where it is an object that is written as the same bytes again, or the refusal;
//! - `cuts`, whether each beginning of the file is `Truncated`, and the others;
//! - `bytes`, what `decode` says of the file with each of its bytes set to 255, byte after byte; `Read` is said for `Ok` and `NotValid`;
//! - `time`, how long decoding it and encoding its object takes, the least of five turns each.
//!
//! A block that begins with `##` is a heading.
mod answers;
mod spoiled;
mod timed;

use crate::objects::answers::answer;
use std::io;

/// Prints the name of each case, and the answer.
pub fn run(rt: &HostRuntime, cases: &str) -> io::Result<()> {
    for block in cases.split("\n\n") {
        let answer = answer(rt, block.trim_end())?;
        println!(rt; "{answer}\n")?;
    }
    Ok(())
}
