//! On how many workers the groups of a thread program run.
ghost use Rattle.std.specs.Prelude.{◌≡◌, ◌≤◌, IfSome, Some};
ghost use Rattle.std.specs.Option.{option_copied};
ghost use Rattle.ds2_locality.specs.declared.locality.Verdict.TheVariants.{Local};
ghost use Rattle.ds2_exec.specs.LocalCodes.{IsLocalVerdict};
ghost use Rattle.ds2_exec.specs.Workers.{threads_of_reading, within_workers, workers_given};

use ds2_code::{ProgramParts, ReadingPart};
use ds2_verdicts::Verdict;

/// The most workers of a thread program.
const MOST_WORKERS: u32 = 64;

// How many threads the source of a program asks for, where it reads from a thread program.
fn threads_asked(program: &ProgramParts) -> u32
    ensures { result ≡ threads_of_reading program.now.reading }
{
    match &program.reading {
        ReadingPart::Stage { threads, .. } => u32::from(*threads),
        _ => 1,
    }
}

// So many workers, within the bounds.
fn within_workers(asked: u32) -> u32
    ensures { result ≡ within_workers asked }
{
    if asked < 1 {
        1
    } else if asked > MOST_WORKERS {
        MOST_WORKERS
    } else {
        asked
    }
}

// How many workers the thread program of a program gets.
fn workers_given(program: &ProgramParts, threads: Option<u32>) -> u32
    ensures given { result ≡ workers_given threads program.now.reading }
    ensures within { (1 ≤ result) × (result ≤ 64) }
{
    let asked = match threads {
        None => threads_asked(program),
        Some(workers) => workers,
    };
    within_workers(asked)
}

// The grain of a verdict that says that a thread program is local.
fn local_grain(verdict: Option<&Verdict>) -> Option<u32>
    ensures { IfSome result (λ grain. option_copied verdict.entry ≡ Some (Local grain)) }
{
    match verdict {
        Some(Verdict::Local { grain }) => Some(*grain),
        Some(Verdict::NotLocal { .. }) => None,
        None => None,
    }
}

/// On how many workers the groups of the thread program may run from which a program reads: on as many as it gets, where its verdict is local.
pub(crate) fn workers_of(
    program: &ProgramParts,
    verdict: Option<&Verdict>,
    threads: Option<u32>,
) -> Option<u32>
    ensures given { IfSome result (λ n. n ≡ workers_given threads program.now.reading) }
    ensures within { IfSome result (λ n. (1 ≤ n) × (n ≤ 64)) }
    ensures local { IfSome result (λ _. IsLocalVerdict (option_copied verdict.entry)) }
{
    match local_grain(verdict) {
        None => None,
        Some(_) => Some(workers_given(program, threads)),
    }
}
