//! `demo`: a job of its own is run over sales that are made for it, both in files of its own.
ghost use Rattle.std.specs.Prelude.{◌≡◌, ◌++◌, OnOk};
ghost use Rattle.ds2_compile.specs.AnswersOfTexts.{SourcesRead};
ghost use Rattle.ds2_answer.specs.Status.{IsAnswerStatus};
ghost use Rattle.ds2_answer.specs.CommandLines.{HasRowsWithin};
ghost use Rattle.ds2_answer.specs.DemoPlans.{total_line};
ghost use Rattle.ds2_answer.specs.declared.command_line.CommandLine.TheVariants.{Demo};
ghost use Rattle.ds2_exec.specs.StageRuns.{RunsStages};
ghost use Rattle.ds2_store_steps.specs.Halts.{HaltsAs};
ghost use Rattle.ds2_commands.specs.DemoOutcomes.{DoesDemo, EndsDemo, FollowsBeside, told_of_end};

use crate::run::run_source;
use crate::source_run::SourceRun;
use ds2_answer::lines::say_demo;
use ds2_answer::{DEFAULT_BUDGET, Status, demo_files, demo_job, sales_total, say_without_counts};
use ds2_base::{Bytes, List, OutOfMemory};
use ds2_compile::sources_are_read;
use ds2_exec::{StageRun, ThreadEnd};
use ds2_store_steps::{Halt, Session};
use ds2_value::Value;
use std::alloc::Global;

// How many workers share the groups of the job's thread program, where they run on workers.
const WORKERS: u32 = 4;

// Says how many sales there were, and their total.
fn say_sales(alloc: Global, n: u32, log: &mut Bytes) -> Result<(), OutOfMemory>
    requires { HasRowsWithin (Demo n) }
    ensures { OnOk result (log.new ≡ log.old ++ total_line n) }
{
    say_demo(alloc, n, sales_total(n), log)
}

// Says what the run inside has said, but for its counts of instructions, and ends with its status; where it was done, with a line on the sales.
fn tell_end(
    alloc: Global,
    n: u32,
    status: Status,
    text: &Bytes,
    log: &mut Bytes,
) -> Result<(), Halt>
    requires { HasRowsWithin (Demo n) }
    ensures { IsAnswerStatus status → FollowsBeside (told_of_end text.now status n) log.old result log.new }
{
    say_without_counts(alloc, text.as_slice(), log)?;
    match status {
        Status::Done => {
            say_sales(alloc, n, log)?;
            Ok(())
        }
        other => Err(Halt::Ended(other)),
    }
}

// Ends the command as the run inside has ended.
fn end_demo(
    alloc: Global,
    n: u32,
    ran: Result<(), Halt>,
    text: &Bytes,
    log: &mut Bytes,
) -> Result<(), Halt>
    requires { HasRowsWithin (Demo n) }
    ensures { EndsDemo n ran text.now log.old result log.new }
{
    match ran {
        Ok(()) => tell_end(alloc, n, Status::Done, text, log),
        Err(Halt::Ended(status)) => tell_end(alloc, n, status, text, log),
        Err(Halt::OutOfMemory) => Err(Halt::OutOfMemory),
    }
}

/// `demo`: runs its job over `n` sales, its thread program by `run`, and says what the job has said, but for its counts of instructions. No
/// store is asked.
pub(crate) fn show_demo<F: Fn(Global, &StageRun, &[Value]) -> Result<ThreadEnd, OutOfMemory>>(
    alloc: Global,
    n: u32,
    run: &F,
    log: &mut Bytes,
) -> Result<(), Halt>
    requires callable { F.IsAlwaysCallable run.now }
    requires right { RunsStages (F.post run.now) }
    requires rows { HasRowsWithin (Demo n) }
    ensures does { (sources : SourcesRead) → DoesDemo sources n log.old result log.new }
    ensures unread { HaltsAs Status.Read result → ⊥ }
    ensures unwritten { HaltsAs Status.Write result → ⊥ }
{
    sources_are_read();
    let job = demo_job(alloc)?;
    let mut files = demo_files(alloc, n)?;
    let mut session = Session {
        alloc,
        log: List::new(alloc),
        store: &mut files,
    };
    let asked = SourceRun {
        source: &job,
        threads: Some(WORKERS),
        budget: DEFAULT_BUDGET,
    };
    let ran = run_source(&mut session, &asked, run);
    let Session {
        alloc: _,
        log: text,
        store: _store,
    } = session;
    end_demo(alloc, n, ran, &text, log)
}
