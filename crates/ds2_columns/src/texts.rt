//! Texts in one run of bytes.
ghost use Rattle.std.specs.Prelude.{◌≡◌, ◌++◌, ◌∷◌, [], ◌<◌, ◌≤◌, ◌-◌, length, take, drop, slice_get, option_copied, Some, OnOk, OnErr};
ghost use Rattle.ds2_columns.specs.Texts.{texts_between, texts_end, AreEnds};

use ds2_base::{Bytes, List, OutOfMemory};
use std::alloc::Global;
use std::marker::Model;
use std::str;

// The most bytes that texts have together, so that a place among them has 32 bits.
const MOST_BYTES: usize = 0xffff_ffff;

/// Texts. A contract sees the list of their UTF-8 bytes.
#[derive(Drop)]
pub(crate) struct Texts {
    // where each text ends among the bytes
    ends: List<u32>,
    bytes: Bytes,
}

impl Model for Texts {
    ghost use Rattle.std.specs.Prelude.{List as Items, ℕ};
    ghost use Rattle.ds2_columns.specs.Texts.{texts_between, AreTexts};

    ghost Value = { Items (Items ℕ) };

    ghost view = { λ t. texts_between 0 t.ends t.bytes };

    ghost invariant = { λ t. AreTexts t.ends t.bytes };
}

// Where the first `count` texts end.
#[inline]
fn texts_end(ends: &[u32], count: usize) -> usize
    requires { count ≤ length ends.now }
    ensures { result ≡ texts_end 0 ends.now count }
{
    if count == 0 {
        0
    } else {
        ends[count - 1] as usize
    }
}

// The bytes from one place to another.
#[inline]
fn bytes_between(bytes: &[u8], from: usize, to: usize) -> &[u8]
    requires start { from ≤ to }
    requires end { to ≤ length bytes.now }
    ensures { result.now ≡ take (to - from) (drop from bytes.now) }
{
    &bytes[from..to]
}

// The bytes of the text in a row.
#[inline]
fn bytes_in_row<'a>(ends: &[u32], bytes: &'a [u8], row: usize) -> &'a [u8]
    requires texts { AreEnds 0 ends.now bytes.now }
    requires within { row < length ends.now }
    ensures { Some result.now ≡ slice_get (texts_between 0 ends.now bytes.now) row }
{
    bytes_between(bytes, texts_end(ends, row), texts_end(ends, row + 1))
}

impl Texts {
    /// No texts. Takes no memory.
    pub(crate) fn new(alloc: Global) -> Texts
        ensures { result ≡ [] }
    {
        Texts {
            ends: List::new(alloc),
            bytes: List::new(alloc),
        }
    }

    /// The number of texts.
    pub(crate) fn len(&self) -> usize
        ensures { result ≡ length self.now }
    {
        self.ends.len()
    }

    /// The text at `row`, counted from 0; None exactly past the end.
    #[inline]
    pub(crate) fn get(&self, row: usize) -> Option<&str>
        ensures { option_copied result ≡ slice_get self.now row }
    {
        let ends = self.ends.as_slice();
        if row >= ends.len() {
            return None;
        }
        let bytes = bytes_in_row(ends, self.bytes.as_slice(), row);
        Some(unsafe { str::from_utf8_unchecked(bytes) })
    }

    /// Adds a text at the end. After a refusal, which also comes where all of them would have 2 ^ 32 bytes, they are as they were.
    #[inline]
    pub(crate) fn push(&mut self, text: &str) -> Result<(), OutOfMemory>
        ensures ok { OnOk result (self.new ≡ self.old ++ text.now ∷ []) }
        ensures err { OnErr result (self.new ≡ self.old) }
    {
        let from = self.bytes.len();
        if text.len() > MOST_BYTES - from {
            return Err(OutOfMemory);
        }
        self.bytes.append(text.as_bytes())?;
        match self.ends.push((from + text.len()) as u32) {
            Ok(()) => Ok(()),
            Err(refusal) => {
                self.bytes.truncate(from);
                Err(refusal)
            }
        }
    }

    /// Makes room for the ends of `count` more texts.
    pub(crate) fn reserve(&mut self, count: usize) -> Result<(), OutOfMemory>
        ensures { self.new ≡ self.old }
    {
        self.ends.reserve(count)
    }

    /// Drops all texts but the first `count`.
    pub(crate) fn truncate(&mut self, count: usize)
        ensures { self.new ≡ take count self.old }
    {
        if count < self.ends.len() {
            self.bytes.truncate(texts_end(self.ends.as_slice(), count));
            self.ends.truncate(count);
        }
    }
}
