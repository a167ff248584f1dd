//! `exec`: the file of an object is read, and its programs run.
ghost use Rattle.std.specs.Prelude.{◌≤◌, IsTrue};
ghost use Rattle.ds2_answer.specs.CommandLines.{is_object_name};
ghost use Rattle.ds2_answer.specs.declared.kinds.TheConstants.{OBJECT_LIMIT};
ghost use Rattle.ds2_answer.specs.declared.words.TheConstants.{MOST_BUDGET};
ghost use Rattle.ds2_store_steps.specs.Halts.{CausedByStore, InSession};
ghost use Rattle.ds2_commands.specs.ObjectRuns.{RunsBytes, RunsFile};

use crate::refusals::refuse_object;
use ds2_answer::OBJECT_LIMIT;
use ds2_base::{Bytes, Stop, Text};
use ds2_exec::run_object;
use ds2_object::decode;
use ds2_outside::Store;
use ds2_store_steps::{Halt, Session, read_file};

// Runs the object of these bytes, or refuses it.
fn run_bytes<S: Store>(session: &mut Session<S>, bytes: &Bytes, budget: u64) -> Result<(), Halt>
    requires { budget ≤ MOST_BUDGET }
    ensures does { InSession S.files (RunsBytes bytes.now budget) session.old result session.new }
    ensures cause { CausedByStore S.read_faults S.write_faults session.old result session.new }
{
    match decode(session.alloc, bytes) {
        Ok(object) => run_object(session, &object, budget),
        Err(Stop::Refused(refusal)) => {
            Err(refuse_object(session.alloc, &refusal, &mut session.log))
        }
        Err(Stop::OutOfMemory) => Err(Halt::OutOfMemory),
    }
}

/// Reads the file of an object and runs it, or refuses it.
pub(crate) fn exec_object<S: Store>(
    session: &mut Session<S>,
    name: &Text,
    budget: u64,
) -> Result<(), Halt>
    requires named { IsTrue (is_object_name name.now) }
    requires budget { budget ≤ MOST_BUDGET }
    ensures does { InSession S.files (RunsFile name.now budget) session.old result session.new }
    ensures cause { CausedByStore S.read_faults S.write_faults session.old result session.new }
{
    let bytes = read_file(session, name, OBJECT_LIMIT)?;
    run_bytes(session, &bytes, budget)
}
