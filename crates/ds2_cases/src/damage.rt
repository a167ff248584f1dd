//! A file that is damaged before a command runs.

use crate::mistake::Mistake;
use ds2_base::{Bytes, List, OutOfMemory, Text};
use std::alloc::Global;

/// What is done to a file at a byte.
#[derive(Clone, Copy)]
pub(crate) enum Damage {
    /// The byte becomes this one.
    Spoiled(u8),
    /// The file ends before the byte.
    Cut,
}

/// The file for each of whose bytes a case is run, and what is done to it there.
#[derive(Drop)]
pub(crate) struct Damaged {
    pub(crate) name: Text,
    pub(crate) damage: Damage,
}

/// The name and the byte that a line `NAME BYTE` tells.
pub(crate) fn spoiled_by(line: &str) -> Result<(&str, u8), Mistake> {
    let Some((name, byte)) = line.rsplit_once(' ') else {
        return Err(Mistake::BadSpoil);
    };
    match byte.parse::<u8>() {
        Ok(byte) => Ok((name, byte)),
        Err(_) => Err(Mistake::BadSpoil),
    }
}

impl Damage {
    /// The bytes of a file with the damage at one of them.
    pub(crate) fn at(
        self,
        alloc: Global,
        bytes: &[u8],
        place: usize,
    ) -> Result<Bytes, OutOfMemory> {
        let (before, rest) = bytes.split_at(place.min(bytes.len()));
        let mut damaged = List::from_slice(alloc, before)?;
        if let (Damage::Spoiled(byte), [_, behind @ ..]) = (self, rest) {
            damaged.push(byte)?;
            damaged.append(behind)?;
        }
        Ok(damaged)
    }
}
