//! What has a spelling.
ghost use Rattle.std.specs.Prelude.{Bool, IsTrue, OnOk};
ghost use Rattle.ds2_object_words.specs.Parts.{FormatPart, ReadsPart, Writes};

use crate::{Flaw, Unread};
use ds2_base::{Bytes, OutOfMemory, Stop};
use std::alloc::Global;

/// What has a spelling in an object file.
pub trait Spelled: Drop + Sized {
    /// How it is spelled and read.
    ghost part: { FormatPart Self };

    /// What has to hold of it, beside what its type keeps, for it to have a spelling.
    ghost rules: { Self → Bool };

    /// Takes one off the front of the bytes. Refuses bytes that do not begin with one, by what is wrong first.
    fn read(alloc: Global, bytes: &mut Unread<'_>) -> Result<Self, Stop<Flaw>>
        ensures { ReadsPart result (part.read bytes.old) bytes.new };

    /// Puts its spelling behind the bytes. After a refusal a part of it may stand there.
    fn write(&self, out: &mut Bytes) -> Result<(), OutOfMemory>
        requires { IsTrue (rules self.now) }
        ensures { OnOk result (Writes part out.old self.now out.new) };
}
