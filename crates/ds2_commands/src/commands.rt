//! Any command.
ghost use Rattle.ds2_compile.specs.AnswersOfTexts.{SourcesRead};
ghost use Rattle.ds2_answer.specs.CommandLines.{command_line_of};
ghost use Rattle.ds2_exec.specs.StageRuns.{RunsStages};
ghost use Rattle.ds2_store_steps.specs.Halts.{CausedByStore, InSession};
ghost use Rattle.ds2_commands.specs.CommandOutcomes.{DoesCommand};

use crate::check::check_source;
use crate::compile::compile_source;
use crate::demo::show_demo;
use crate::exec::exec_object;
use crate::refusals::refuse_words;
use crate::run::run_source;
use crate::source_run::SourceRun;
use ds2_answer::{CommandLine, read_command_line};
use ds2_base::{OutOfMemory, Text};
use ds2_exec::{StageRun, ThreadEnd};
use ds2_outside::Store;
use ds2_store_steps::{Halt, Session};
use ds2_value::Value;
use std::alloc::Global;

/// Does what a line of words says, but for the writing of the log: what the plan of its command asks of the store is asked, in order, and
/// its lines are added to the text for the log; words that are no command are refused. `run` runs the thread programs: on the caller's
/// thread, or the groups of those that are local on as many workers as the line of `run` asks for or, where it doesn't, the source, and those
/// of `demo` on four; the answer is the same. The error is the status with which the command has ended before its plan was done or, since a
/// call of the store has failed, Read or Write with the line on that; or there was no memory.
pub fn do_command<F: Fn(Global, &StageRun, &[Value]) -> Result<ThreadEnd, OutOfMemory>, S: Store>(
    session: &mut Session<S>,
    words: &[Text],
    run: &F,
) -> Result<(), Halt>
    requires callable { F.IsAlwaysCallable run.now }
    requires right { RunsStages (F.post run.now) }
    ensures does { (sources : SourcesRead) → InSession S.files (DoesCommand sources (command_line_of words.now)) session.old result session.new }
    ensures cause { CausedByStore S.read_faults S.write_faults session.old result session.new }
{
    let read = read_command_line(session.alloc, words)?;
    let Some(line) = read else {
        return Err(refuse_words(&mut session.log));
    };
    match &line {
        CommandLine::Run {
            source,
            threads,
            budget,
        } => run_source(
            session,
            &SourceRun {
                source,
                threads: *threads,
                budget: *budget,
            },
            run,
        ),
        CommandLine::Compile { source } => compile_source(session, source),
        CommandLine::Exec { object, budget } => exec_object(session, object, *budget),
        CommandLine::Check { source } => check_source(session, source),
        CommandLine::Demo { n } => show_demo(session.alloc, *n, run, &mut session.log),
    }
}
