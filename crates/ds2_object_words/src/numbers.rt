//! Numbers and flags.
ghost use Rattle.std.specs.Prelude.{◌≡◌, true};
ghost use Rattle.ds2_object_words.specs.Parts.{byte_part, number16_part, number32_part};
ghost use Rattle.ds2_object_words.specs.Words.{flag_part, flag_code};

use crate::{Flaw, Spelled, Unread};
use ds2_base::{Bytes, OutOfMemory, Stop};
use std::alloc::Global;

impl Spelled for u8 {
    ghost part = { byte_part };

    ghost rules = { λ n. true };

    fn read(_alloc: Global, bytes: &mut Unread<'_>) -> Result<u8, Stop<Flaw>> {
        bytes.byte()
    }

    #[tactic(auto, unfolding(crate::specs::Parts::byte_part))]
    fn write(&self, out: &mut Bytes) -> Result<(), OutOfMemory> {
        out.push(*self)?;
        Ok(())
    }
}

impl Spelled for u16 {
    ghost part = { number16_part };

    ghost rules = { λ n. true };

    fn read(_alloc: Global, bytes: &mut Unread<'_>) -> Result<u16, Stop<Flaw>> {
        bytes.number16()
    }

    #[tactic(auto, unfolding(crate::specs::Parts::number16_part))]
    fn write(&self, out: &mut Bytes) -> Result<(), OutOfMemory> {
        out.append(&self.to_le_bytes())?;
        Ok(())
    }
}

impl Spelled for u32 {
    ghost part = { number32_part };

    ghost rules = { λ n. true };

    fn read(_alloc: Global, bytes: &mut Unread<'_>) -> Result<u32, Stop<Flaw>> {
        bytes.number32()
    }

    #[tactic(auto, unfolding(crate::specs::Parts::number32_part))]
    fn write(&self, out: &mut Bytes) -> Result<(), OutOfMemory> {
        out.append(&self.to_le_bytes())?;
        Ok(())
    }
}

// The number of a flag.
fn flag_code(flag: bool) -> u8
    ensures { result ≡ flag_code flag }
{
    if flag { 1 } else { 0 }
}

impl Spelled for bool {
    ghost part = { flag_part };

    ghost rules = { λ flag. true };

    #[tactic(auto, unfolding(crate::specs::Words::flag_part))]
    fn read(_alloc: Global, bytes: &mut Unread<'_>) -> Result<bool, Stop<Flaw>> {
        bytes.listed(&[false, true])
    }

    #[tactic(auto, unfolding(crate::specs::Words::flag_part))]
    fn write(&self, out: &mut Bytes) -> Result<(), OutOfMemory> {
        out.push(flag_code(*self))?;
        Ok(())
    }
}
