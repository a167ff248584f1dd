//! Tokens.
ghost use Rattle.std.specs.Prelude.{◌≡◌, IfOk};

use crate::TokenKind;
use ds2_base::{OutOfMemory, Place, Text};
use std::alloc::Global;

/// A token: its kind, the characters that it is written with, and the place of the first of them.
#[derive(Drop, PartialEq, Eq)]
pub struct Token {
    pub kind: TokenKind,
    pub spelling: Text,
    pub place: Place,
}

impl Token {
    /// The same token once more.
    pub fn copy(&self, alloc: Global) -> Result<Token, OutOfMemory>
        ensures { IfOk result (λ token. token ≡ self.now) }
    {
        Ok(Token {
            kind: self.kind,
            spelling: self.spelling.copy(alloc)?,
            place: self.place,
        })
    }
}
