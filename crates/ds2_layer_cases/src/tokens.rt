//! Texts and their tokens.
//!
//! Each line is a text. The answer is the line again and, below it, the place, the kind and the
//! spelling of each of its tokens and the place of its end, or the place and the kind of its first refusal.
//!
//! A line has the escapes of `texts`, as `\n` for a line feed and `\{64:ab}` for `ab` 64 times. A line that begins with
//! `#` is a heading.
mod answer;

use crate::texts::unescaped;
use crate::tokens::answer::answer;
use std::alloc::Global;

// The answer to a line.
fn answered(alloc: Global, line: &str) -> anyhow::Result<String> {
    match unescaped(alloc, line)? {
        Some(text) => Ok(answer(alloc, text)?),
        None => Ok(String::from_str(alloc, "an escape that is none")?),
    }
}

/// Prints each text, and its tokens.
pub fn run(rt: &HostRuntime, cases: &str) -> anyhow::Result<()> {
    for line in cases.lines() {
        println!(rt; "{line}")?;
        if !line.starts_with('#') && !line.is_empty() {
            let answer = answered(rt.alloc(), line)?;
            println!(rt; "    {answer}")?;
        }
    }
    Ok(())
}
