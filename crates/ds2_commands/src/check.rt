//! `check`: whether a source is refused, and the verdicts on its thread programs.
ghost use Rattle.std.specs.Prelude.{◌≡◌, ◌++◌, IsTrue, OnOk};
ghost use Rattle.ds2_compile.specs.AnswersOfTexts.{SourcesRead};
ghost use Rattle.ds2_answer.specs.Words.{is_source};
ghost use Rattle.ds2_store_steps.specs.Halts.{CausedByStore, InSession};
ghost use Rattle.ds2_commands.specs.CommandOutcomes.{DoesSource, checks, verdicts_said};

use crate::sources::load_source;
use ds2_answer::lines::say_checked_thread;
use ds2_base::{Bytes, OutOfMemory, Text};
use ds2_outside::Store;
use ds2_store_steps::{Halt, Session};
use ds2_verdicts::ThreadVerdict;
use std::alloc::Global;

// Tells the verdicts on thread programs, in order.
fn say_verdicts(
    alloc: Global,
    verdicts: &[ThreadVerdict],
    log: &mut Bytes,
) -> Result<(), OutOfMemory>
    ensures { OnOk result (log.new ≡ log.old ++ verdicts_said verdicts.now) }
{
    let mut left = verdicts;
    'verdicts: while let [verdict, after @ ..] = left {
        say_checked_thread(alloc, &verdict.name, &verdict.verdict, log)?;
        left = after;
    }
    Ok(())
}

/// `check`: tells whether a source is refused, and the verdicts on its thread programs.
pub(crate) fn check_source<S: Store>(session: &mut Session<S>, source: &Text) -> Result<(), Halt>
    requires { IsTrue (is_source source.now) }
    ensures does { (sources : SourcesRead) → InSession S.files (DoesSource sources source.now checks) session.old result session.new }
    ensures cause { CausedByStore S.read_faults S.write_faults session.old result session.new }
{
    let loaded = load_source(session, source)?;
    say_verdicts(session.alloc, loaded.verdicts.as_slice(), &mut session.log)?;
    Ok(())
}
