//! What a file of a case holds: pieces one behind the other.

use crate::escape::{is_numbered, unescape};
use crate::mistake::Mistake;
use ds2_base::{Bytes, List, OutOfMemory, Stop, Text};
use std::alloc::Global;

/// A piece of a file.
#[derive(Drop)]
pub(crate) enum Piece {
    /// The same bytes so many times.
    Same { times: u64, bytes: Bytes },
    /// A text with escapes, which has the number of its turn in it, at so many turns.
    Numbered { times: u64, text: Text },
}

impl Piece {
    /// A text with escapes so many times.
    pub(crate) fn repeated(alloc: Global, times: u64, text: &str) -> Result<Piece, Stop<Mistake>> {
        let bytes = unescape(alloc, text, 1)?;
        if is_numbered(text) {
            let text = Text::of(alloc, text)?;
            return Ok(Piece::Numbered { times, text });
        }
        Ok(Piece::Same { times, bytes })
    }

    /// A text with escapes and a line feed behind it.
    pub(crate) fn line(alloc: Global, text: &str) -> Result<Piece, Stop<Mistake>> {
        let mut bytes = unescape(alloc, text, 1)?;
        bytes.push(b'\n')?;
        Ok(Piece::Same { times: 1, bytes })
    }
}

/// A file of a case.
#[derive(Drop)]
pub(crate) struct CaseFile {
    pub(crate) name: Text,
    pub(crate) pieces: Vec<Piece>,
}

fn add_same(times: u64, piece: &[u8], bytes: &mut Bytes) -> Result<(), OutOfMemory> {
    for _ in 0..times {
        bytes.append(piece)?;
    }
    Ok(())
}

fn add_numbered(
    alloc: Global,
    times: u64,
    text: &str,
    bytes: &mut Bytes,
) -> Result<(), Stop<Mistake>> {
    for turn in 0..times {
        let piece = unescape(alloc, text, turn.saturating_add(1))?;
        bytes.append(piece.as_slice())?;
    }
    Ok(())
}

fn add_piece(alloc: Global, piece: &Piece, bytes: &mut Bytes) -> Result<(), Stop<Mistake>> {
    match piece {
        Piece::Same { times, bytes: same } => {
            add_same(*times, same.as_slice(), bytes)?;
            Ok(())
        }
        Piece::Numbered { times, text } => add_numbered(alloc, *times, text.as_str(), bytes),
    }
}

/// The bytes of these pieces.
pub(crate) fn contents(alloc: Global, pieces: &[Piece]) -> Result<Bytes, Stop<Mistake>> {
    let mut bytes = List::new(alloc);
    for piece in pieces {
        add_piece(alloc, piece, &mut bytes)?;
    }
    Ok(bytes)
}
