//! The question whether the files of outputs are there.
ghost use Rattle.std.specs.Prelude.{◌≡◌, ◌∷◌, [], ℕ, List as Items, flat_map, map, nat_eq, OnOk};
ghost use Rattle.std.specs.Cmp.Lexicographic.{pointwise};
ghost use Rattle.std.specs.HashSet.{contains};
ghost use Rattle.ds2_answer.specs.Answer.{table_file};
ghost use Rattle.ds2_answer.specs.Lines.{exists_line};
ghost use Rattle.ds2_answer.specs.ObjectPlans.{outputs_of_code};
ghost use Rattle.ds2_answer.specs.TablePlans.{none_made};
ghost use Rattle.ds2_store_steps.specs.Halts.{CausedByStore, InSession, StopsAs};
ghost use Rattle.ds2_store_steps.specs.OutputAsks.{AsksNewOutput, AsksOutputs, made_behind, output_named};

use crate::Halt;
use crate::files::{has_file, table_file};
use crate::halt::refuse_output;
use crate::session::Session;
use ds2_answer::Status;
use ds2_base::{Bytes, Name, OutOfMemory};
use ds2_code::OutputPart;
use ds2_outside::Store;
use ds2_scope::{NameSet, add_name};
use ds2_valid_code::ProgramCode;
use std::alloc::Global;

// Refuses an output whose table an earlier one makes.
fn refuse_made(alloc: Global, name: &Name, log: &mut Bytes) -> Halt
    ensures { StopsAs Status.Exists (exists_line (table_file name.now)) log.old result log.new }
{
    match table_file(alloc, name) {
        Ok(file) => refuse_output(alloc, &file, log),
        Err(OutOfMemory) => Halt::OutOfMemory,
    }
}

// Refuses an output whose file is there.
fn ask_file<S: Store>(session: &mut Session<S>, name: &Name) -> Result<(), Halt>
    ensures asks { InSession S.files (AsksNewOutput name.now) session.old result session.new }
    ensures cause { CausedByStore S.read_faults S.write_faults session.old result session.new }
{
    let file = table_file(session.alloc, name)?;
    let there = has_file(session, &file)?;
    if there {
        Err(refuse_output(session.alloc, &file, &mut session.log))
    } else {
        Ok(())
    }
}

// Refuses an output that is there and may not be written over, and adds its name to those that are made.
fn ask_output<S: Store>(
    session: &mut Session<S>,
    made: &mut NameSet,
    output: &OutputPart,
) -> Result<(), Halt>
    ensures asks { InSession S.files (AsksOutputs (contains (pointwise nat_eq) made.old) (output_named output.now ∷ [])) session.old result session.new }
    ensures made { OnOk result ((name : Items ℕ) → contains (pointwise nat_eq) made.new name ≡ made_behind (contains (pointwise nat_eq) made.old) (output_named output.now ∷ []) name) }
    ensures cause { CausedByStore S.read_faults S.write_faults session.old result session.new }
{
    let is_new = add_name(session.alloc, made, output.name.as_str().as_bytes())?;
    if output.overwrites {
        Ok(())
    } else if is_new {
        ask_file(session, &output.name)
    } else {
        Err(refuse_made(session.alloc, &output.name, &mut session.log))
    }
}

// The same of the outputs of a program.
fn ask_program<S: Store>(
    session: &mut Session<S>,
    made: &mut NameSet,
    outputs: &[OutputPart],
) -> Result<(), Halt>
    ensures asks { InSession S.files (AsksOutputs (contains (pointwise nat_eq) made.old) (map output_named outputs.now)) session.old result session.new }
    ensures made { OnOk result ((name : Items ℕ) → contains (pointwise nat_eq) made.new name ≡ made_behind (contains (pointwise nat_eq) made.old) (map output_named outputs.now) name) }
    ensures cause { CausedByStore S.read_faults S.write_faults session.old result session.new }
{
    let mut left = outputs;
    'outputs: while let [output, after @ ..] = left {
        ask_output(session, made, output)?;
        left = after;
    }
    Ok(())
}

/// Asks for the file of each output that may not be written over, program by program. The first that is there, or whose table an earlier
/// output makes, ends the command.
pub fn ask_outputs<S: Store>(session: &mut Session<S>, codes: &[ProgramCode]) -> Result<(), Halt>
    ensures asks { InSession S.files (AsksOutputs none_made (flat_map outputs_of_code codes.now)) session.old result session.new }
    ensures cause { CausedByStore S.read_faults S.write_faults session.old result session.new }
{
    let mut made = NameSet::new(session.alloc);
    let mut left = codes;
    'codes: while let [code, after @ ..] = left {
        let outputs = code.parts().program.outputs.as_slice();
        ask_program(session, &mut made, outputs)?;
        left = after;
    }
    Ok(())
}
