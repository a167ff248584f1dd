//! How a program has ended.
ghost use Rattle.std.specs.Prelude.{◌≡◌, []};

use crate::units_end::UnitsEnd;
use ds2_base::List;
use ds2_value::Ending;
use std::alloc::Global;

/// What is known of a thread program from which a program read.
#[derive(Clone, Copy, PartialEq, Eq)]
pub struct StageNote {
    /// How many groups its loads make at its grain; 0 where it ended by a fault.
    pub groups: u64,
    /// How many instructions its own units executed.
    pub executed: u128,
}

/// How a program has ended whose rows and lines went to a sink.
#[derive(Drop)]
pub struct RunEnd {
    pub ending: Ending,
    /// How many instructions its own units executed together, without those of its thread programs.
    pub executed: u128,
    /// The thread programs that were begun, the innermost first.
    pub stages: List<StageNote>,
}

/// How a program has ended whose units ended so, and that began no thread program.
pub fn ended_alone(alloc: Global, end: UnitsEnd) -> RunEnd
    ensures ending { result.ending ≡ end.ending }
    ensures executed { result.executed ≡ end.executed }
    ensures stages { result.stages ≡ [] }
{
    RunEnd {
        ending: end.ending,
        executed: end.executed,
        stages: List::new(alloc),
    }
}
