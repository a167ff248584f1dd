//! Sources and their trees.
//!
//! Each line is a source. The answer is the line again and, below it, the kind and the place of its
//! refusal, or that it is accepted and how its tree is grouped; an accepted source whose tree does not give back its very tokens
//! is said to be so.
//!
//! A line has the escapes of `texts`, as `\n` for a line feed and `\{64:ab}` for `ab` 64 times. A line that begins with
//! `: ` holds what stands in front of each source below it. A line that begins with `#` is a heading, and nothing stands in front
//! of the sources below it.
mod answer;
mod controls;
mod expressions;
mod statements;
mod tokens;
mod units;

use crate::texts::unescaped;
use crate::trees::answer::answer;
use std::alloc::{AllocError, Global};

// The answer to a source behind what stands in front of it.
fn answered(alloc: Global, front: &str, line: &str) -> Result<String, AllocError> {
    let whole = format!(in alloc; "{front}{line}")?;
    match unescaped(alloc, whole.as_str())? {
        Some(text) => answer(alloc, text),
        None => String::from_str(alloc, "an escape that is none"),
    }
}

// What stands in front of the sources below a line that says so.
fn front_of(line: &str) -> Option<&str> {
    match line.starts_with('#') {
        true => Some(""),
        false => line.strip_prefix(": "),
    }
}

/// Prints each source, and its refusal or its tree.
pub fn run(rt: &HostRuntime, cases: &str) -> anyhow::Result<()> {
    let mut front = String::new(rt.alloc());
    for line in cases.lines() {
        println!(rt; "{line}")?;
        if let Some(next) = front_of(line) {
            front = String::from_str(rt.alloc(), next)?;
        } else if !line.is_empty() {
            let answer = answered(rt.alloc(), front.as_str(), line)?;
            println!(rt; "    {answer}")?;
        }
    }
    Ok(())
}
