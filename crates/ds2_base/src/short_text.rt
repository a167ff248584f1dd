//! Short texts, which take no memory beside themselves.
ghost use Rattle.std.specs.Prelude.{◌≡◌, ◌+◌, ◌-◌, ◌≤◌, ◌++◌, length, replicate, take, IfSome, IsSome, IsTrue, ◌↔◌};
ghost use Rattle.std.specs.Str.{is_utf8};
ghost use Rattle.std.specs.String.Boundary.{IsSplitPoint};

use std::marker::Model;
use std::str;

/// The most bytes of a short text.
pub(crate) const SHORT_TEXT_BYTES: usize = 22;

/// A text of at most 22 bytes. A contract sees its UTF-8 bytes.
#[derive(Drop)]
pub(crate) struct ShortText {
    length: u8,
    bytes: [u8; SHORT_TEXT_BYTES],
}

impl Model for ShortText {
    ghost use Rattle.std.specs.Prelude.{List, ℕ, ◌≤◌, take, IsUtf8};

    ghost Value = { List ℕ };

    ghost view = { λ t. take t.length t.bytes };

    ghost invariant = { λ t. (t.length ≤ 22) × ∥ IsUtf8 (take t.length t.bytes) ∥₁ };
}

// The bytes of a text, with blanks behind them.
fn with_blanks(text: &[u8]) -> [u8; SHORT_TEXT_BYTES]
    requires { length text.now ≤ 22 }
    ensures { result ≡ text.now ++ replicate (22 - length text.now) 32 }
{
    let mut bytes = [b' '; SHORT_TEXT_BYTES];
    bytes[..text.len()].copy_from_slice(text);
    bytes
}

impl ShortText {
    /// The text with blanks behind it; None exactly where they have more than 22 bytes.
    pub(crate) fn filled(text: &str, blanks: usize) -> Option<ShortText>
        ensures variant { IsSome result ↔ (length text.now + blanks ≤ 22) }
        ensures bytes { IfSome result (λ short. short ≡ text.now ++ replicate blanks 32) }
        ensures utf8 { IfSome result (λ short. IsTrue (is_utf8 short)) }
    {
        if text.len() > SHORT_TEXT_BYTES || blanks > SHORT_TEXT_BYTES - text.len() {
            return None;
        }
        Some(ShortText {
            length: (text.len() + blanks) as u8,
            bytes: with_blanks(text.as_bytes()),
        })
    }

    pub(crate) fn as_str(&self) -> &str
        ensures { result.now ≡ self.now }
    {
        unsafe { str::from_utf8_unchecked(&self.bytes[..self.length as usize]) }
    }

    /// Keeps the first `n` bytes, which end at a character boundary.
    pub(crate) fn truncate(&mut self, n: usize)
        requires { n ≤ length self.old → IsSplitPoint self.old n }
        ensures { self.new ≡ take n self.old }
    {
        if n < self.length as usize {
            self.length = n as u8;
        }
    }
}
