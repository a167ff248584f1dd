//! Objects as bytes.
ghost use Rattle.std.specs.Prelude.{◌≡◌, [], IfOk, OnOk, IsTrue, map};
ghost use Rattle.std.specs.List.{list_all};
ghost use Rattle.ds2_object_words.specs.Parts.{ItemsWritten};
ghost use Rattle.ds2_object_programs.specs.ProgramRules.{data_spelled};
ghost use Rattle.ds2_object_programs.specs.ProgramSpelling.{data_program_part, written_data};
ghost use Rattle.ds2_object.specs.ObjectSpelling.{has_no_name, linked_behind, IsSpellingOf};

use crate::ObjectCode;
use crate::decoding::{MAGIC, VERSION};
use ds2_base::{Bytes, List, OutOfMemory};
use ds2_code::StagedParts;
use ds2_object_programs::write_data_program;
use ds2_object_words::Spelled;
use ds2_valid_code::ProgramCode;
use std::alloc::Global;

// The parts of a program without a name, which have a spelling since they are valid code.
#[tactic(auto, using(crate::proofs::ValidLemmas::valid_spelled))]
fn spelled_parts(program: &ProgramCode) -> &StagedParts
    requires { IsTrue (has_no_name program.now) }
    ensures value { result.now ≡ program.now }
    ensures spelled { IsTrue (data_spelled program.now) }
{
    program.parts()
}

// Puts the spellings of programs behind the bytes.
#[tactic(auto, using(crate::proofs::ObjectSteps::programs_begun, crate::proofs::ObjectSteps::first_unnamed, crate::proofs::ObjectSteps::program_written, crate::proofs::ObjectSteps::programs_written))]
fn write_programs(programs: &[ProgramCode], out: &mut Bytes) -> Result<(), OutOfMemory>
    requires { IsTrue (list_all has_no_name programs.now) }
    ensures { OnOk result (ItemsWritten data_program_part out.old (map written_data programs.now) out.new) }
{
    let mut rest = programs;
    'programs: while let [first, after @ ..] = rest {
        write_data_program(spelled_parts(first), out)?;
        rest = after;
    }
    Ok(())
}

/// The spellings of programs, one behind the other. They are programs of an object.
#[tactic(auto, using(crate::proofs::ValidLemmas::behind_unnamed))]
pub fn encode_programs(alloc: Global, programs: &[ProgramCode]) -> Result<Bytes, OutOfMemory>
    requires { IsTrue (linked_behind [] programs.now) }
    ensures { IfOk result (λ bytes. ItemsWritten data_program_part [] (map written_data programs.now) bytes) }
{
    let mut out = List::new(alloc);
    write_programs(programs, &mut out)?;
    Ok(out)
}

/// The one spelling of an object.
#[tactic(auto, using(crate::proofs::ObjectSteps::object_written, crate::proofs::ValidLemmas::linked_unnamed, crate::proofs::ValidLemmas::linked_fits))]
pub fn encode(alloc: Global, object: &ObjectCode) -> Result<Bytes, OutOfMemory>
    ensures { IfOk result (λ bytes. IsSpellingOf bytes object.now) }
{
    let programs = object.programs().as_slice();
    let mut out = List::from_slice(alloc, &MAGIC)?;
    VERSION.write(&mut out)?;
    (programs.len() as u32).write(&mut out)?;
    write_programs(programs, &mut out)?;
    Ok(out)
}
