//! `run`: a source is compiled, its object stored, and its programs run.
ghost use Rattle.std.specs.Prelude.{◌≤◌, IsTrue};
ghost use Rattle.ds2_compile.specs.AnswersOfTexts.{SourcesRead};
ghost use Rattle.ds2_answer.specs.Words.{is_source};
ghost use Rattle.ds2_answer.specs.declared.words.TheConstants.{MOST_BUDGET};
ghost use Rattle.ds2_exec.specs.StageRuns.{RunsStages};
ghost use Rattle.ds2_store_steps.specs.Halts.{CausedByStore, InSession};
ghost use Rattle.ds2_commands.specs.CommandOutcomes.{DoesSource, runs_with};

use crate::source_run::SourceRun;
use crate::sources::load_source;
use crate::storing::store_new;
use ds2_answer::laws::codes_do_as_programs;
use ds2_base::OutOfMemory;
use ds2_compile::sources_are_read;
use ds2_exec::{RunCodes, RunInput, StageRun, ThreadEnd, run_programs};
use ds2_outside::Store;
use ds2_store_steps::{Halt, Session};
use ds2_value::Value;
use std::alloc::Global;

/// `run`: compiles a source and, unless an output is there already, stores its object and runs its programs, their thread programs by `run`.
pub(crate) fn run_source<
    F: Fn(Global, &StageRun, &[Value]) -> Result<ThreadEnd, OutOfMemory>,
    S: Store,
>(session: &mut Session<S>, asked: &SourceRun, run: &F) -> Result<(), Halt>
    requires callable { F.IsAlwaysCallable run.now }
    requires right { RunsStages (F.post run.now) }
    requires named { IsTrue (is_source asked.now.source.now) }
    requires budget { asked.now.budget ≤ MOST_BUDGET }
    ensures does { (sources : SourcesRead) → InSession S.files (DoesSource sources asked.now.source.now (runs_with asked.now.source.now asked.now.budget)) session.old result session.new }
    ensures cause { CausedByStore S.read_faults S.write_faults session.old result session.new }
{
    sources_are_read();
    codes_do_as_programs();
    let loaded = load_source(session, asked.source)?;
    store_new(session, asked.source, &loaded.object)?;
    let codes = RunCodes::of(session.alloc, loaded.object.programs().as_slice())?;
    let stored = loaded.stored.as_slice();
    let verdicts = loaded.verdicts.as_slice();
    let input = RunInput {
        codes: &codes,
        stored,
        verdicts,
        threads: asked.threads,
        budget: asked.budget,
    };
    run_programs(session, &input, run)
}
