//! Texts of cases, as a person writes them into a line.
//!
//! In a line `\n`, `\r` and `\t` stand for a line feed, a carriage return and a tab, `\m` for a byte order mark, and
//! `\{64:ab}` for `ab` 64 times.
use std::alloc::{AllocError, Global};

// The number that these digits write, of at most four digits.
fn number(digits: &str) -> Option<u32> {
    let mut value: u32 = 0;
    for c in digits.bytes() {
        value = value
            .checked_mul(10)?
            .checked_add(u32::from(c.checked_sub(b'0')?))?;
    }
    Some(value)
}

fn push_repeated(text: &mut String, piece: &str, count: u32) -> Result<(), AllocError> {
    for _ in 0..count {
        text.push_str(piece)?;
    }
    Ok(())
}

// Adds what the front of `rest`, behind a backslash, stands for, and gives what follows it.
fn push_escaped<'r>(text: &mut String, rest: &'r str) -> Result<Option<&'r str>, AllocError> {
    let mut chars = rest.chars();
    match chars.next() {
        Some('n') => text.push('\n')?,
        Some('r') => text.push('\r')?,
        Some('t') => text.push('\t')?,
        Some('m') => text.push('\u{feff}')?,
        Some('{') => return push_group(text, chars.as_str()),
        _ => return Ok(None),
    }
    Ok(Some(chars.as_str()))
}

// The same for `64:ab}`.
fn push_group<'r>(text: &mut String, rest: &'r str) -> Result<Option<&'r str>, AllocError> {
    let Some((digits, rest)) = rest.split_once(':') else {
        return Ok(None);
    };
    let Some((piece, rest)) = rest.split_once('}') else {
        return Ok(None);
    };
    match number(digits) {
        Some(count) if count <= 10_000 => {
            push_repeated(text, piece, count)?;
            Ok(Some(rest))
        }
        _ => Ok(None),
    }
}

/// The text of a line, where each backslash begins an escape; None where one of them is none.
pub fn unescaped(alloc: Global, line: &str) -> Result<Option<String>, AllocError> {
    let mut text = String::new(alloc);
    let mut rest = line;
    for _ in 0..u64::MAX {
        let Some((before, after)) = rest.split_once('\\') else {
            break;
        };
        text.push_str(before)?;
        match push_escaped(&mut text, after)? {
            Some(left) => rest = left,
            None => return Ok(None),
        }
    }
    text.push_str(rest)?;
    Ok(Some(text))
}

/// The answer where there was no memory for one.
pub fn want_of_memory(alloc: Global) -> Result<String, AllocError> {
    String::from_str(alloc, "want of memory")
}
