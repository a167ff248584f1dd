//! Escapes: bytes as a person writes them.
//!
//! `\\` stands for a backslash, `\n` for a line feed, `\r` for a carriage return, `\t` for a tab, `\s` for a blank, `\e` for
//! nothing, `\xHH` for a byte, and `\i` for the number of the turn where a text is repeated.

use crate::mistake::Mistake;
use ds2_base::{Bytes, List, OutOfMemory, Stop, Text};
use std::alloc::Global;

// What was read of an escape.
#[derive(Clone, Copy, PartialEq, Eq)]
enum Escape {
    None,
    Begun,
    Hex,
    HexDigit(u8),
}

fn hex_digit(byte: u8) -> Option<u8> {
    match byte {
        b'0'..=b'9' => Some(byte - b'0'),
        b'a'..=b'f' => Some(byte - b'a' + 10),
        b'A'..=b'F' => Some(byte - b'A' + 10),
        _ => None,
    }
}

// The byte that stands behind a backslash and is no number.
fn escaped_byte(letter: u8) -> Option<u8> {
    match letter {
        b'\\' => Some(b'\\'),
        b'n' => Some(b'\n'),
        b'r' => Some(b'\r'),
        b't' => Some(b'\t'),
        b's' => Some(b' '),
        _ => None,
    }
}

fn add_number(alloc: Global, number: u64, bytes: &mut Bytes) -> Result<(), OutOfMemory> {
    let digits = format!(in alloc; "{number}")?;
    bytes.append(digits.as_bytes())
}

// Adds what a backslash and this letter stand for.
fn add_escaped(
    alloc: Global,
    letter: u8,
    turn: u64,
    bytes: &mut Bytes,
) -> Result<Escape, Stop<Mistake>> {
    match letter {
        b'x' => return Ok(Escape::Hex),
        b'e' => return Ok(Escape::None),
        b'i' => {
            add_number(alloc, turn, bytes)?;
            return Ok(Escape::None);
        }
        _ => {}
    }
    match escaped_byte(letter) {
        Some(byte) => {
            bytes.push(byte)?;
            Ok(Escape::None)
        }
        None => Err(Stop::Refused(Mistake::BadEscape)),
    }
}

// Adds what a byte of a text stands for behind what was read of an escape.
fn add_byte(
    alloc: Global,
    escape: Escape,
    byte: u8,
    turn: u64,
    bytes: &mut Bytes,
) -> Result<Escape, Stop<Mistake>> {
    match escape {
        Escape::None => {
            if byte == b'\\' {
                return Ok(Escape::Begun);
            }
            bytes.push(byte)?;
            Ok(Escape::None)
        }
        Escape::Begun => add_escaped(alloc, byte, turn, bytes),
        Escape::Hex => match hex_digit(byte) {
            Some(high) => Ok(Escape::HexDigit(high)),
            None => Err(Stop::Refused(Mistake::BadEscape)),
        },
        Escape::HexDigit(high) => match hex_digit(byte) {
            Some(low) => {
                bytes.push(high.wrapping_mul(16).wrapping_add(low))?;
                Ok(Escape::None)
            }
            None => Err(Stop::Refused(Mistake::BadEscape)),
        },
    }
}

/// The bytes that a text stands for at the turn of this number.
pub(crate) fn unescape(alloc: Global, text: &str, turn: u64) -> Result<Bytes, Stop<Mistake>> {
    let mut bytes = List::new(alloc);
    let mut escape = Escape::None;
    for byte in text.as_bytes() {
        escape = add_byte(alloc, escape, *byte, turn, &mut bytes)?;
    }
    if escape != Escape::None {
        return Err(Stop::Refused(Mistake::BadEscape));
    }
    Ok(bytes)
}

/// The text that a title, a name or a word stands for.
pub(crate) fn unescape_text(alloc: Global, text: &str) -> Result<Text, Stop<Mistake>> {
    match Text::from_bytes(alloc, unescape(alloc, text, 1)?)? {
        Some(text) => Ok(text),
        None => Err(Stop::Refused(Mistake::NotUtf8)),
    }
}

/// Whether a text stands for other bytes at other turns.
pub(crate) fn is_numbered(text: &str) -> bool {
    text.contains("\\i")
}
