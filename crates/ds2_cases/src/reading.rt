//! Reading of cases.
//!
//! A line begins with a word, which says what it is:
//!
//! - `case TITLE` begins a case, and `given` begins what holds for all cases up to the next `given`; what stands before both
//!   is given too. A case's own words, calls that fail, and files of the same name take the place of the given ones.
//! - `words WORD WORD ..` has the words after the program's name. `first WORD WORD ..` has those of a command that runs over the
//!   given files before the case's own files take their places; of what it leaves, the files alone stand.
//! - `file NAME` begins a file. `| TEXT` adds a line to it, `+ TEXT` a text without a line feed, and `repeat N TEXT` a text so
//!   many times. Texts and words may have escapes.
//! - `without NAME` leaves out a given file, or one that the first command has written.
//! - `fail store N N ..` and `fail log N N ..` let these calls fail, counted from 1.
//! - `tear store N K` lets this call fail, and where it is a write, the first `K` bytes stand behind it.
//! - `spoil NAME BYTE` runs the case once for each byte of the file, which becomes `BYTE`, and `cut NAME` once for each byte of the file,
//!   which ends before it. The answer has a line for bytes behind each other, counted from 0, that end alike.
//! - `show calls` lets the answer tell the calls of the store, `show counts` the numbers of instructions and the lengths of
//!   objects, for which a letter stands otherwise, and `show objects` their bytes. `alone` leaves out the run by the call with
//!   threads.
//! - `gate HELD AWAITED WORKERS` lets the call with threads run at a gate where whoever holds the one group waits until the other was handed
//!   in, which only another worker can do. The answer tells whether one of so many workers waited there for another.
//!
//! Empty lines, and lines that begin with `#`, say nothing.

use crate::block::Block;
use crate::mistake::{CaseError, Mistake};
use ds2_base::Stop;
use std::alloc::Global;

// The first word of a line, and what stands behind the blank after it.
fn first_word(line: &str) -> (&str, &str) {
    match line.split_once(' ') {
        Some(parts) => parts,
        None => (line, ""),
    }
}

// Adds a line to the block that was begun last.
fn add_to_last(
    alloc: Global,
    blocks: &mut Vec<Block>,
    word: &str,
    rest: &str,
) -> Result<(), Stop<Mistake>> {
    match blocks.last_mut() {
        Some(block) => block.setting.add_line(alloc, word, rest),
        None => Err(Stop::Refused(Mistake::UnknownWord)),
    }
}

fn add_line(alloc: Global, blocks: &mut Vec<Block>, line: &str) -> Result<(), Stop<Mistake>> {
    let (word, rest) = first_word(line);
    match word {
        "case" => blocks.push(Block::case(alloc, rest)?)?,
        "given" => blocks.push(Block::given(alloc))?,
        _ => add_to_last(alloc, blocks, word, rest)?,
    }
    Ok(())
}

// Whether a line says nothing.
fn is_silent(line: &str) -> bool {
    line.is_empty() || line.starts_with('#')
}

/// The blocks of a text, the first of them given.
pub(crate) fn read_blocks(alloc: Global, text: &str) -> Result<Vec<Block>, CaseError> {
    let mut blocks = Vec::new(alloc);
    if blocks.push(Block::given(alloc)).is_err() {
        return Err(CaseError::OutOfMemory);
    }
    let mut number = 0usize;
    for line in text.lines() {
        number = number.saturating_add(1);
        if is_silent(line) {
            continue;
        }
        if let Err(stop) = add_line(alloc, &mut blocks, line) {
            return Err(CaseError::of_line(number, stop));
        }
    }
    Ok(blocks)
}
