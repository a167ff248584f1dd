//! The bytes that are left to read.
ghost use Rattle.std.specs.Prelude.{◌≡◌, length};
ghost use Rattle.ds2_object_words.specs.Parts.{ReadsPart, ReadsPartAs, byte_part, number16_part, number32_part, number64_part, bytes_part, listed_read};

use crate::Flaw;
use ds2_base::Stop;
use std::marker::Model;

/// The bytes that are left to read. Each call takes a field off their front; after a refusal they are no longer of use.
#[derive(Drop)]
pub struct Unread<'a> {
    bytes: &'a [u8],
}

impl<'a> Model for Unread<'a> {
    ghost use Rattle.std.specs.Prelude.{List, ℕ};

    ghost Value = { List ℕ };

    ghost view = { λ u. u.bytes.now };
}

// The bytes end within a field.
fn truncated() -> Stop<Flaw>
    ensures { result ≡ Stop.Refused Flaw.Truncated }
{
    Stop::Refused(Flaw::Truncated)
}

/// A field with so many bytes left from its first byte on has a value that it may not have.
pub fn bad(left: usize) -> Stop<Flaw>
    ensures { result ≡ Stop.Refused (Flaw.Bad left) }
{
    Stop::Refused(Flaw::Bad { left })
}

impl<'a> Unread<'a> {
    /// All of these bytes.
    pub fn of(bytes: &'a [u8]) -> Unread<'a>
        ensures { result ≡ bytes.now }
    {
        Unread { bytes }
    }

    /// How many bytes are left.
    pub fn left(&self) -> usize
        ensures { result ≡ length self.now }
    {
        self.bytes.len()
    }

    /// A byte.
    #[tactic(auto, unfolding(crate::specs::Parts::byte_part))]
    pub fn byte(&mut self) -> Result<u8, Stop<Flaw>>
        ensures { ReadsPart result (byte_part.read self.old) self.new }
    {
        match self.bytes {
            [] => Err(truncated()),
            [first, rest @ ..] => {
                self.bytes = rest;
                Ok(*first)
            }
        }
    }

    /// A number of 16 bits, its lowest byte first.
    #[tactic(auto, unfolding(crate::specs::Parts::number16_part))]
    pub fn number16(&mut self) -> Result<u16, Stop<Flaw>>
        ensures { ReadsPart result (number16_part.read self.old) self.new }
    {
        match self.bytes.split_first_chunk::<2>() {
            None => Err(truncated()),
            Some((front, rest)) => {
                self.bytes = rest;
                Ok(u16::from_le_bytes(*front))
            }
        }
    }

    /// A number of 32 bits, its lowest byte first.
    #[tactic(auto, unfolding(crate::specs::Parts::number32_part))]
    pub fn number32(&mut self) -> Result<u32, Stop<Flaw>>
        ensures { ReadsPart result (number32_part.read self.old) self.new }
    {
        match self.bytes.split_first_chunk::<4>() {
            None => Err(truncated()),
            Some((front, rest)) => {
                self.bytes = rest;
                Ok(u32::from_le_bytes(*front))
            }
        }
    }

    /// A number of 64 bits, its lowest byte first.
    #[tactic(auto, unfolding(crate::specs::Parts::number64_part))]
    pub fn number64(&mut self) -> Result<u64, Stop<Flaw>>
        ensures { ReadsPart result (number64_part.read self.old) self.new }
    {
        match self.bytes.split_first_chunk::<8>() {
            None => Err(truncated()),
            Some((front, rest)) => {
                self.bytes = rest;
                Ok(u64::from_le_bytes(*front))
            }
        }
    }

    /// So many bytes.
    pub fn bytes(&mut self, n: usize) -> Result<&'a [u8], Stop<Flaw>>
        ensures { ReadsPartAs (λ taken. taken.now) result ((bytes_part n).read self.old) self.new }
    {
        if self.bytes.len() < n {
            return Err(truncated());
        }
        let (front, rest) = self.bytes.split_at(n);
        self.bytes = rest;
        Ok(front)
    }

    /// The value of a list whose number is a byte.
    pub fn listed<T: Copy>(&mut self, values: &[T]) -> Result<T, Stop<Flaw>>
        ensures { ReadsPart result (listed_read values.now self.old) self.new }
    {
        let left = self.left();
        let number = self.byte()?;
        match values.get(number as usize) {
            Some(value) => Ok(*value),
            None => Err(bad(left)),
        }
    }
}
