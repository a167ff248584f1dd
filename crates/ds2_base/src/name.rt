//! Names.
ghost use Rattle.std.specs.Prelude.{◌≡◌, IfOk};
ghost use Rattle.std.specs.List.{list_all};
ghost use Rattle.std.specs.Str.{chars, IsUtf8};
ghost use Rattle.ds2_base.specs.Name.{IsOwnName, is_name_char, is_name, name_of};
ghost use Rattle.ds2_base.specs.Says.{Says};

use crate::{OutOfMemory, Stop, char_count};
use std::alloc::Global;
use std::marker::Model;

/// The text is no name: it has 0 or more than 64 characters, holds a byte order mark (U+FEFF), a delete (U+007F) or a
/// character below U+0020, or begins or ends with a blank.
#[derive(Clone, Copy, PartialEq, Eq)]
pub struct BadName;

/// The most characters of a name.
pub const NAME_CHARACTERS: usize = 64;

/// A name of a program, a table, a column or a variable, its ASCII letters in lower case. A contract sees its UTF-8 bytes.
#[derive(Drop)]
pub struct Name {
    text: String,
}

impl Model for Name {
    ghost use Rattle.std.specs.Prelude.{List, ℕ, string_bytes};

    ghost Value = { List ℕ };

    ghost view = { λ t. string_bytes t.text };

    ghost use Rattle.ds2_base.specs.Name.{IsOwnName};

    ghost invariant = { λ t. IsOwnName (string_bytes t.text) };
}

fn has_name_chars(s: &str) -> bool
    ensures { result ≡ list_all is_name_char (chars s.now) }
{
    s.chars()
        .all(|c| c >= ' ' && c != '\u{7f}' && c != '\u{feff}')
}

fn is_name(s: &str) -> bool
    ensures { result ≡ is_name s.now }
{
    match s.as_bytes() {
        [] => false,
        [first, ..] if *first == b' ' => false,
        [.., last] => *last != b' ' && char_count(s) <= NAME_CHARACTERS && has_name_chars(s),
    }
}

impl Name {
    /// The name with the characters of `s`, its ASCII letters in lower case. Refuses exactly what is no name ([`BadName`]).
    pub fn new(alloc: Global, s: &str) -> Result<Name, Stop<BadName>>
        ensures { Says result (name_of s.now) }
    {
        if !is_name(s) {
            return Err(Stop::Refused(BadName));
        }
        let mut text = String::from_str(alloc, s)?;
        text.make_ascii_lowercase();
        Ok(Name { text })
    }

    /// The characters. A name is its own name: it holds no ASCII letter in upper case.
    pub fn as_str(&self) -> &str
        ensures bytes { result.now ≡ self.now }
        ensures own { IsOwnName self.now }
        ensures utf8 { IsUtf8 self.now }
    {
        self.text.as_str()
    }

    /// The same name once more.
    pub fn copy(&self, alloc: Global) -> Result<Name, OutOfMemory>
        ensures { IfOk result (λ name. name ≡ self.now) }
    {
        Ok(Name {
            text: String::from_str(alloc, self.as_str())?,
        })
    }
}
