//! Texts.
ghost use Rattle.std.specs.Prelude.{◌≡◌, ◌^◌, ◌<◌, ◌≤◌, ◌++◌, IfOk, IsTrue, length, replicate, take, string_bytes};
ghost use Rattle.std.specs.Str.{IsUtf8, is_utf8};
ghost use Rattle.std.specs.String.Boundary.{IsSplitPoint};
ghost use Rattle.ds2_base.specs.Text.{text_of};

use crate::short_text::ShortText;
use crate::{Bytes, OutOfMemory};
use std::alloc::Global;
use std::marker::Model;
use std::mem::size_of;

/// A text. A contract sees its UTF-8 bytes; its characters are std's `chars` of them. One of at most 22 bytes takes no memory
/// beside itself.
pub struct Text {
    held: Held,
}

// A text is let go by a call, so that whoever lets one go need not know where its bytes are.
impl Drop for Text {
    fn drop(self) {
        let Text { held: _ } = self;
    }
}

// Where the characters are.
#[derive(Drop)]
enum Held {
    Within(ShortText),
    Apart(Box<String>),
}

// A table holds many texts, so one is small.
const _: () = prove!(size_of::<Text>() <= 24);

impl Model for Text {
    ghost use Rattle.std.specs.Prelude.{List, ℕ};
    ghost use Rattle.ds2_base.specs.Held.{held_bytes};

    ghost Value = { List ℕ };

    ghost view = { λ t. held_bytes t.held };
}

impl Text {
    /// The text with the characters of `s`.
    pub fn of(alloc: Global, s: &str) -> Result<Text, OutOfMemory>
        ensures text { IfOk result (λ text. text ≡ s.now) }
        ensures utf8 { IfOk result (λ text. IsTrue (is_utf8 text)) }
    {
        match ShortText::filled(s, 0) {
            Some(short) => Ok(Text {
                held: Held::Within(short),
            }),
            None => Text::apart(alloc, String::from_str(alloc, s)?),
        }
    }

    /// The text with the characters of `s` and blanks behind them.
    pub fn filled(alloc: Global, s: &str, blanks: usize) -> Result<Text, OutOfMemory>
        ensures text { IfOk result (λ text. text ≡ s.now ++ replicate blanks 32) }
        ensures utf8 { IfOk result (λ text. IsTrue (is_utf8 text)) }
    {
        if let Some(short) = ShortText::filled(s, blanks) {
            return Ok(Text {
                held: Held::Within(short),
            });
        }
        let mut text = String::from_str(alloc, s)?;
        'blanks: for i in 0..blanks {
            text.push(' ')?;
        }
        Text::apart(alloc, text)
    }

    /// The text of a string.
    pub fn from_string(alloc: Global, text: String) -> Result<Text, OutOfMemory>
        ensures text { IfOk result (λ made. made ≡ string_bytes text) }
        ensures utf8 { IfOk result (λ made. IsTrue (is_utf8 made)) }
    {
        match ShortText::filled(text.as_str(), 0) {
            Some(short) => Ok(Text {
                held: Held::Within(short),
            }),
            None => Text::apart(alloc, text),
        }
    }

    // The text that keeps its string.
    fn apart(alloc: Global, text: String) -> Result<Text, OutOfMemory>
        ensures text { IfOk result (λ made. made ≡ string_bytes text) }
        ensures utf8 { IfOk result (λ made. IsTrue (is_utf8 made)) }
    {
        Ok(Text {
            held: Held::Apart(Box::new(alloc, text)?),
        })
    }

    /// The text with these UTF-8 bytes; None exactly where they are no UTF-8.
    pub fn from_bytes(alloc: Global, bytes: Bytes) -> Result<Option<Text>, OutOfMemory>
        ensures { IfOk result (λ text. text ≡ text_of bytes) }
    {
        match String::from_utf8(bytes.into_vec()) {
            Ok(text) => Ok(Some(Text::from_string(alloc, text)?)),
            Err(_) => Ok(None),
        }
    }

    /// The number of bytes.
    pub fn len(&self) -> usize
        ensures value { result ≡ length self.now }
        ensures small { result < 2 ^ 63 }
    {
        self.as_str().len()
    }

    pub fn as_str(&self) -> &str
        ensures { result.now ≡ self.now }
    {
        match &self.held {
            Held::Within(short) => short.as_str(),
            Held::Apart(text) => text.as_str(),
        }
    }

    /// The UTF-8 bytes.
    pub fn as_bytes(&self) -> &[u8]
        ensures bytes { result.now ≡ self.now }
        ensures utf8 { IsUtf8 self.now }
    {
        self.as_str().as_bytes()
    }

    /// Keeps the first `n` bytes, which end at a character boundary. Takes no memory.
    pub fn truncate(&mut self, n: usize)
        requires { n ≤ length self.old → IsSplitPoint self.old n }
        ensures { self.new ≡ take n self.old }
    {
        match &mut self.held {
            Held::Within(short) => short.truncate(n),
            Held::Apart(text) => text.truncate(n),
        }
    }

    /// The same text once more.
    pub fn copy(&self, alloc: Global) -> Result<Text, OutOfMemory>
        ensures { IfOk result (λ text. text ≡ self.now) }
    {
        Text::of(alloc, self.as_str())
    }
}
