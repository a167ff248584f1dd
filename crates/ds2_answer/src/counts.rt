//! The lines of a text without those that count instructions.
ghost use Rattle.std.specs.Prelude.{◌≡◌, ◌++◌, ◌∷◌, List as Items, ℕ, IfOk, OnOk};
ghost use Rattle.std.specs.List.{concat};
ghost use Rattle.ds2_answer.specs.CountLines.{is_count_line, kept_behind, line_kept, lines_without_counts};

use crate::words::has_digits;
use ds2_base::{Bytes, List, OutOfMemory};
use std::alloc::Global;

// Whether a line is `NOTE: `, digits and ` instructions.`, and nothing else.
fn is_count_line(line: &[u8]) -> bool
    ensures { result ≡ is_count_line line.now }
{
    line.len() > 21
        && line.starts_with(b"NOTE: ")
        && line.ends_with(b" instructions.\n")
        && has_digits(line.split_at(line.len() - 15).0.split_at(6).1)
}

// Adds a line, unless it counts instructions.
#[tactic(auto, unfolding(crate::specs::CountLines::line_kept))]
fn say_unless_count(line: &[u8], log: &mut Bytes) -> Result<(), OutOfMemory>
    ensures { OnOk result (log.new ≡ log.old ++ line_kept line.now) }
{
    if is_count_line(line) {
        return Ok(());
    }
    log.append(line)
}

// The line so far with one more byte. Where that ends it, it is said unless it counts instructions, and the next one begins.
fn with_byte(alloc: Global, line: Bytes, byte: u8, log: &mut Bytes) -> Result<Bytes, OutOfMemory>
    ensures { (rest : Items ℕ) → IfOk result (λ next. log.new ++ kept_behind next rest ≡ log.old ++ kept_behind line (byte ∷ rest)) }
{
    let mut longer = line;
    longer.push(byte)?;
    if byte != b'\n' {
        return Ok(longer);
    }
    say_unless_count(longer.as_slice(), log)?;
    Ok(List::new(alloc))
}

/// Adds the lines of a text that do not count instructions.
pub fn say_without_counts(alloc: Global, text: &[u8], log: &mut Bytes) -> Result<(), OutOfMemory>
    ensures { OnOk result (log.new ≡ log.old ++ concat (lines_without_counts text.now)) }
{
    let mut line = List::new(alloc);
    let mut rest = text;
    'bytes: while let [byte, after @ ..] = rest {
        line = with_byte(alloc, line, *byte, log)?;
        rest = after;
    }
    say_unless_count(line.as_slice(), log)?;
    Ok(())
}
