//! The run of an object.
ghost use Rattle.std.specs.Prelude.{◌≤◌};
ghost use Rattle.ds2_machine.specs.declared.machine.TheConstants.{MOST_BUDGET};
ghost use Rattle.ds2_answer.specs.ObjectPlans.{object_plan};
ghost use Rattle.ds2_exec.specs.ExecOutcomes.{ExecutesPlan, OverStore, ExecEndsAs};
ghost use Rattle.ds2_store_steps.specs.Halts.{CausedByStore, FollowsAll, InSession};
ghost use Rattle.ds2_outside.specs.Causes.{HasCause};

use crate::programs::run_programs;
use crate::run_codes::RunCodes;
use crate::run_input::RunInput;
use ds2_answer::Status;
use ds2_base::{Bytes, List, OutOfMemory};
use ds2_group_job::StageRun;
use ds2_object::ObjectCode;
use ds2_outside::Store;
use ds2_store_steps::{Halt, Session, ask_outputs, inputs_of, read_tables};
use ds2_value::Value;
use std::alloc::Global;

/// What the run of an object leaves beside its tables.
#[derive(Drop)]
pub struct ExecEnd {
    pub status: Status,
    /// The text for the log.
    pub log: Bytes,
}

/// Reads the tables of an object, asks for its outputs, and runs its programs, with the text for the log.
pub fn run_object<S: Store>(
    session: &mut Session<S>,
    object: &ObjectCode,
    budget: u64,
) -> Result<(), Halt>
    requires budget { budget ≤ MOST_BUDGET }
    ensures does { OverStore (S.files session.old.store.now) (λ files there. InSession S.files (FollowsAll (object_plan object.now budget files there)) session.old result session.new) }
    ensures cause { CausedByStore S.read_faults S.write_faults session.old result session.new }
{
    let alloc = session.alloc;
    let codes = object.programs().as_slice();
    let named = RunCodes::of(alloc, codes)?;
    let references = named.references();
    let names = inputs_of(alloc, references)?;
    let stored = read_tables(session, references, names.as_slice())?;
    ask_outputs(session, codes)?;
    let input = RunInput {
        codes: &named,
        stored: stored.as_slice(),
        verdicts: &[],
        threads: None,
        budget,
    };
    run_programs(
        session,
        &input,
        &|a: Global, stage: &StageRun, given: &[Value]| stage.run(a, given),
    )
}

/// Runs an object: reads the tables of the store that its programs name, each with the columns that they name, asks for its outputs, runs
/// each program on one worker with this budget of at most [`ds2_machine::MOST_BUDGET`] steps and calls a unit, and writes its tables. An
/// object carries no verdicts, so none is told in the log.
///
/// The status and the log's text are those of the object's plan, or of the plan up to a call of the store that failed. After want of memory
/// the files are those behind some first calls of the plan, the last of them perhaps a refused write.
pub fn exec<S: Store>(
    alloc: Global,
    object: &ObjectCode,
    store: &mut S,
    budget: u64,
) -> Result<ExecEnd, OutOfMemory>
    requires budget { budget ≤ MOST_BUDGET }
    ensures does { OverStore (S.files store.old) (λ files there. ExecutesPlan (object_plan object.now budget files there) (S.files store.old) result (S.files store.new)) }
    ensures read { HasCause (S.read_faults store.old) (S.read_faults store.new) (ExecEndsAs Status.Read result) }
    ensures write { HasCause (S.write_faults store.old) (S.write_faults store.new) (ExecEndsAs Status.Write result) }
{
    let mut session = Session {
        alloc,
        log: List::new(alloc),
        store,
    };
    let ran = run_object(&mut session, object, budget);
    let Session {
        alloc: _,
        log,
        store: _store,
    } = session;
    match ran {
        Ok(()) => Ok(ExecEnd {
            status: Status::Done,
            log,
        }),
        Err(Halt::Ended(status)) => Ok(ExecEnd { status, log }),
        Err(Halt::OutOfMemory) => Err(OutOfMemory),
    }
}
