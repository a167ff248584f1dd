//! Texts and names.
ghost use Rattle.std.specs.Prelude.{◌^◌, ◌<◌, IsTrue, OnOk, length, true, if◌then◌else◌};
ghost use Rattle.ds2_base.specs.Says.{Says};
ghost use Rattle.ds2_token.specs.Words.{is_table_name};
ghost use Rattle.ds2_object_words.specs.Parts.{ReadsPart, ReadsPartAs, Writes};
ghost use Rattle.ds2_object_words.specs.Words.{counted_part, text_part, is_own_name, name_part, table_name_part};

use crate::unread::bad;
use crate::{Flaw, Spelled, Unread};
use ds2_base::{Bytes, Name, OutOfMemory, Stop};
use ds2_token::is_table_name;
use std::alloc::Global;
use std::str::from_utf8;

// A length, and so many bytes.
fn counted<'a>(bytes: &mut Unread<'a>) -> Result<&'a [u8], Stop<Flaw>>
    ensures { ReadsPartAs (λ taken. taken.now) result (counted_part.read bytes.old) bytes.new }
{
    let n = bytes.number32()?;
    bytes.bytes(n as usize)
}

/// A text in UTF-8.
#[tactic(auto, unfolding(crate::specs::Words::text_part))]
pub fn read_text<'a>(bytes: &mut Unread<'a>) -> Result<&'a str, Stop<Flaw>>
    ensures { ReadsPartAs (λ text. text.now) result (text_part.read bytes.old) bytes.new }
{
    let left = bytes.left();
    let taken = counted(bytes)?;
    match from_utf8(taken) {
        Ok(text) => Ok(text),
        Err(_) => Err(bad(left)),
    }
}

/// Puts the spelling of a text behind the bytes.
#[tactic(auto, unfolding(crate::specs::Words::text_part))]
pub fn write_text(text: &str, out: &mut Bytes) -> Result<(), OutOfMemory>
    requires { length text.now < 2 ^ 32 }
    ensures { OnOk result (Writes text_part out.old text.now out.new) }
{
    (text.len() as u32).write(out)?;
    out.append(text.as_bytes())?;
    Ok(())
}

// The name that a text is; from the text's first byte on so many bytes are left.
fn own_name(alloc: Global, text: &str, left: usize) -> Result<Name, Stop<Flaw>>
    ensures { Says result (if is_own_name text.now then Ok text.now else Err (Flaw.Bad left)) }
{
    match Name::new(alloc, text) {
        Ok(name) => {
            if name.as_str() == text {
                Ok(name)
            } else {
                Err(bad(left))
            }
        }
        Err(Stop::Refused(_)) => Err(bad(left)),
        Err(Stop::OutOfMemory) => Err(Stop::OutOfMemory),
    }
}

impl Spelled for Name {
    ghost part = { name_part };

    ghost rules = { λ name. true };

    #[tactic(auto, unfolding(crate::specs::Words::name_part))]
    fn read(alloc: Global, bytes: &mut Unread<'_>) -> Result<Name, Stop<Flaw>> {
        let left = bytes.left();
        let text = read_text(bytes)?;
        own_name(alloc, text, left)
    }

    #[tactic(auto, unfolding(crate::specs::Words::name_part))]
    fn write(&self, out: &mut Bytes) -> Result<(), OutOfMemory> {
        write_text(self.as_str(), out)?;
        Ok(())
    }
}

/// The name of a table.
#[tactic(auto, unfolding(crate::specs::Words::table_name_part))]
pub fn read_table_name(alloc: Global, bytes: &mut Unread<'_>) -> Result<Name, Stop<Flaw>>
    ensures { ReadsPart result (table_name_part.read bytes.old) bytes.new }
{
    let left = bytes.left();
    let name = Name::read(alloc, bytes)?;
    if is_table_name(name.as_str().as_bytes()) {
        Ok(name)
    } else {
        Err(bad(left))
    }
}

/// Puts the spelling of a table's name behind the bytes.
#[tactic(auto, unfolding(crate::specs::Words::table_name_part))]
pub fn write_table_name(name: &Name, out: &mut Bytes) -> Result<(), OutOfMemory>
    requires { IsTrue (is_table_name name.now) }
    ensures { OnOk result (Writes table_name_part out.old name.now out.new) }
{
    name.write(out)?;
    Ok(())
}
