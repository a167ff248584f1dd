//! Objects of bytes.
ghost use Rattle.std.specs.Prelude.{◌≡◌, IfOk, IsTrue, SomeIff};
ghost use Rattle.std.specs.List.{AllByRecursion};
ghost use Rattle.ds2_code.specs.ValidCode.{IsValidStaged};
ghost use Rattle.ds2_base.specs.Says.{Says};
ghost use Rattle.ds2_object_words.specs.Parts.{ReadsPart, items_read};
ghost use Rattle.ds2_object_programs.specs.ProgramSpelling.{data_program_part, read_as};
ghost use Rattle.ds2_object.specs.ObjectSpelling.{programs_part, object_parts, nothing_behind, then_reads, version_read, magic_read, object_read, then_parts, stop_of_flaw, object_linked, IsValidObject, DecodesTo};

use crate::linked::links_hold;
use crate::{ObjectCode, ObjectRefusal};
use ds2_base::{Bytes, List, OutOfMemory, Stop};
use ds2_code::StagedParts;
use ds2_object_programs::{push_made, read_data_program};
use ds2_object_words::{Flaw, Unread};
use ds2_valid_code::{ProgramCode, verify};
use std::alloc::Global;

/// The bytes with which an object file begins.
pub const MAGIC: [u8; 4] = *b"DS2O";

/// The version of the format.
pub const VERSION: u16 = 1;

// ---- programs

// So many programs; None where an instruction of one is none.
#[tactic(auto, using(ds2_object_programs::proofs::MadeSteps::none_begun, ds2_object_programs::proofs::MadeSteps::one_taken, ds2_object_programs::proofs::MadeSteps::none_made, ds2_object_programs::proofs::MadeSteps::all_items_made))]
fn read_programs_of(
    alloc: Global,
    count: u32,
    bytes: &mut Unread<'_>,
) -> Result<Option<List<StagedParts>>, Stop<Flaw>>
    ensures { ReadsPart result (read_as object_parts (items_read data_program_part count bytes.old)) bytes.new }
{
    let mut programs = List::new(alloc);
    let mut is_whole = true;
    'programs: for i in 0..count {
        let made = read_data_program(alloc, bytes)?;
        is_whole = push_made(made, is_whole, &mut programs)?;
    }
    if is_whole {
        Ok(Some(programs))
    } else {
        Ok(None)
    }
}

// The programs of an object; None where an instruction of one is none.
#[tactic(auto, unfolding(crate::specs::ObjectSpelling::programs_part))]
fn read_programs(
    alloc: Global,
    bytes: &mut Unread<'_>,
) -> Result<Option<List<StagedParts>>, Stop<Flaw>>
    ensures { ReadsPart result (read_as object_parts (programs_part.read bytes.old)) bytes.new }
{
    let count = bytes.number32()?;
    read_programs_of(alloc, count, bytes)
}

// ---- files

// What is wrong in a file of so many bytes.
fn refusal(total: usize, stop: Stop<Flaw>) -> Stop<ObjectRefusal>
    ensures { result ≡ stop_of_flaw total stop }
{
    match stop {
        Stop::Refused(Flaw::Truncated) => Stop::Refused(ObjectRefusal::Truncated),
        Stop::Refused(Flaw::Bad { left }) => Stop::Refused(ObjectRefusal::BadField {
            offset: total.saturating_sub(left) as u64,
        }),
        Stop::OutOfMemory => Stop::OutOfMemory,
    }
}

// The programs behind the version, all that is left; None where an instruction of one is none.
#[tactic(auto, using(crate::proofs::ObjectSteps::programs_stop, crate::proofs::ObjectSteps::programs_whole, crate::proofs::ObjectSteps::programs_before))]
fn read_last(
    alloc: Global,
    total: usize,
    bytes: &mut Unread<'_>,
) -> Result<Option<List<StagedParts>>, Stop<ObjectRefusal>>
    ensures { Says result (then_parts (then_reads total (programs_part.read bytes.old) nothing_behind)) }
{
    match read_programs(alloc, bytes) {
        Ok(programs) => {
            let is_whole = bytes.left() == 0;
            if is_whole {
                Ok(programs)
            } else {
                Err(Stop::Refused(ObjectRefusal::TrailingBytes))
            }
        }
        Err(stop) => Err(refusal(total, stop)),
    }
}

// The version, and what stands behind it.
#[tactic(auto, using(crate::proofs::ObjectSteps::version_stops))]
fn read_version(
    alloc: Global,
    total: usize,
    bytes: &mut Unread<'_>,
) -> Result<Option<List<StagedParts>>, Stop<ObjectRefusal>>
    ensures { Says result (then_parts (version_read total bytes.old)) }
{
    match bytes.number16() {
        Ok(version) => {
            if version == VERSION {
                read_last(alloc, total, bytes)
            } else {
                Err(Stop::Refused(ObjectRefusal::BadVersion))
            }
        }
        Err(stop) => Err(refusal(total, stop)),
    }
}

// The magic, and what stands behind it.
#[tactic(auto, using(crate::proofs::ObjectSteps::magic_stops))]
fn read_magic(
    alloc: Global,
    total: usize,
    bytes: &mut Unread<'_>,
) -> Result<Option<List<StagedParts>>, Stop<ObjectRefusal>>
    ensures { Says result (then_parts (magic_read total bytes.old)) }
{
    match bytes.bytes(MAGIC.len()) {
        Ok(magic) => {
            if magic == MAGIC.as_slice() {
                read_version(alloc, total, bytes)
            } else {
                Err(Stop::Refused(ObjectRefusal::BadMagic))
            }
        }
        Err(stop) => Err(refusal(total, stop)),
    }
}

// The programs of a file; None where an instruction of one is none.
#[tactic(auto, using(crate::proofs::ObjectSteps::whole_read))]
fn read_object(alloc: Global, file: &[u8]) -> Result<Option<List<StagedParts>>, Stop<ObjectRefusal>>
    ensures { Says result (then_parts (object_read file.now)) }
{
    let mut bytes = Unread::of(file);
    read_magic(alloc, file.len(), &mut bytes)
}

// ---- valid code

// The code of programs, in order, where each of them is valid.
#[tactic(auto, using(crate::proofs::ObjectSteps::valid_begun, crate::proofs::ObjectSteps::valid_more, crate::proofs::ObjectSteps::valid_none, crate::proofs::ObjectSteps::valid_all))]
fn valid_programs(
    alloc: Global,
    programs: List<StagedParts>,
) -> Result<Option<List<ProgramCode>>, OutOfMemory>
    ensures { IfOk result (λ codes. SomeIff codes (AllByRecursion IsValidStaged programs) programs) }
{
    let mut codes = List::new(alloc);
    let mut items = programs.into_vec();
    items.reverse();
    let mut rest = List::of(items);
    'programs: while let Some(program) = rest.pop() {
        match verify(alloc, program)? {
            Some(code) => codes.push(code)?,
            None => return Ok(None),
        }
    }
    Ok(Some(codes))
}

// The object of these programs, where they are linked.
fn linked_object(alloc: Global, codes: List<ProgramCode>) -> Result<Option<ObjectCode>, OutOfMemory>
    ensures { IfOk result (λ object. SomeIff object (IsTrue (object_linked codes)) codes) }
{
    if links_hold(alloc, codes.as_slice())? {
        Ok(Some(ObjectCode::of_linked(codes)))
    } else {
        Ok(None)
    }
}

// The object of programs that are valid and linked.
#[tactic(auto, using(crate::proofs::ObjectSteps::valid_linked, crate::proofs::ObjectSteps::not_each_valid))]
fn valid_object(
    alloc: Global,
    programs: List<StagedParts>,
) -> Result<Option<ObjectCode>, OutOfMemory>
    ensures { IfOk result (λ object. SomeIff object (IsValidObject programs) programs) }
{
    match valid_programs(alloc, programs)? {
        Some(codes) => linked_object(alloc, codes),
        None => Ok(None),
    }
}

/// The object that the bytes spell. Refuses exactly what is no spelling of valid code, by what is wrong first: a field that is cut
/// short, the magic, the version, or a field with a value that it may not have, whichever comes first; then bytes behind the object;
/// then code that is not valid.
#[tactic(auto, using(crate::proofs::ObjectSteps::decodes_none, crate::proofs::ObjectSteps::decodes_invalid, crate::proofs::ObjectSteps::decodes_valid, crate::proofs::ObjectSteps::decodes_refused))]
pub fn decode(alloc: Global, bytes: &Bytes) -> Result<ObjectCode, Stop<ObjectRefusal>>
    ensures { DecodesTo result bytes.now }
{
    match read_object(alloc, bytes.as_slice())? {
        Some(programs) => match valid_object(alloc, programs)? {
            Some(object) => Ok(object),
            None => Err(Stop::Refused(ObjectRefusal::NotValid)),
        },
        None => Err(Stop::Refused(ObjectRefusal::NotValid)),
    }
}
