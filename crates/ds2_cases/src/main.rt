//! Cases of the command, as a person reads and writes them.
//!
//! Standard input holds cases: a title, the words of a command, files with their contents, and the calls of the store or of
//! the log that fail. Each is run by the top call over a store and a log in memory, once without threads and once with them.
//! Standard output gets the answers: the status, the log, and the files that were made or changed.
//!
//! `reading` tells the form of a case, `escape` that of its texts, and `telling` that of an answer. A case that lacks a
//! part, or a line that can't be read, ends the program with status 1 and the number of the line.
#![tactic(auto)]

mod block;
mod contents;
mod damage;
mod escape;
mod meeting;
mod mistake;
mod reading;
mod running;
mod telling;
mod watched;

use crate::block::{Block, Setting};
use crate::mistake::CaseError;
use crate::reading::read_blocks;
use crate::running::answer;
use crate::telling::add_named;
use std::alloc::{AllocError, Global};
use std::io;
use std::sync::Wait;
use std::thread::Threads;

// The text of a case's title and answer.
fn told(alloc: Global, title: &str, answer: &str) -> Result<String, AllocError> {
    let mut text = String::new(alloc);
    add_named(alloc, "case", title, &mut text)?;
    text.push_str(answer)?;
    text.push('\n')?;
    Ok(text)
}

// Runs a case and prints its answer.
fn run_case(
    rt: &(impl Print + Threads + Wait + Sync),
    alloc: Global,
    title: &str,
    given: &Setting,
    own: &Setting,
) -> anyhow::Result<()> {
    let answer = answer(rt, alloc, given, own)?;
    let text = told(alloc, title, answer.as_str())?;
    print!(rt; "{text}")?;
    Ok(())
}

// Runs the cases of these blocks, of which the first is given, and counts them.
fn run_blocks(
    rt: &(impl Print + Threads + Wait + Sync),
    alloc: Global,
    first: &Block,
    blocks: &[Block],
) -> anyhow::Result<u64> {
    let mut given = &first.setting;
    let mut count = 0u64;
    for block in blocks {
        match &block.title {
            None => given = &block.setting,
            Some(title) => {
                run_case(rt, alloc, title.as_str(), given, &block.setting)?;
                count = count.saturating_add(1);
            }
        }
    }
    Ok(count)
}

fn main(rt: HostRuntime) -> anyhow::Result<()> {
    let text = io::read_to_string(rt.alloc(), rt.reader())?;
    let blocks = read_blocks(rt.alloc(), text.as_str())?;
    let count = match blocks.as_slice() {
        [first, others @ ..] => run_blocks(&rt, rt.alloc(), first, others)?,
        [] => 0,
    };
    println!(rt; "{count} cases")?;
    Ok(())
}
