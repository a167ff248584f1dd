//! What a stage runs.

use crate::group_end::GroupEnd;
use ds2_base::OutOfMemory;
use std::alloc::Global;

/// The groups of a stage. Each has one answer, whoever runs it and whatever ran before.
pub trait Answers: Sync {
    ghost use Rattle.std.specs.Prelude.{◌≡◌, ℕ};
    ghost use Rattle.ds2_bags.specs.declared.group_end.GroupEnd.{GroupEnd};

    // How many groups there are.
    ghost count: { Self → ℕ };

    // What each of them gives.
    ghost answer: { Self → ℕ → GroupEnd };

    /// How many groups there are.
    fn groups(&self) -> u64
        ensures { result ≡ count self.now };
}

/// Work in groups. Each worker runs groups on a state of its own, which begins as a copy of the one that all begin with.
pub trait Job: Answers {
    ghost use Rattle.std.specs.Prelude.{◌≡◌, ◌<◌, false, IfOk};
    ghost use Rattle.ds2_bags.specs.Endings.{ended_by_fault};

    type Worker: Drop + Send;

    // Whether a group may be run on a worker's state.
    ghost fits: { Self → Self.Worker → Type 0 };

    /// A new worker's state.
    fn start(&self, alloc: Global) -> Result<Self::Worker, OutOfMemory>
        ensures { IfOk result (λ w. fits self.now w) };

    /// Runs a group, which gives its answer. After a fault and after want of memory no further group is run on the same state.
    fn run(&self, alloc: Global, worker: &mut Self::Worker, g: u64) -> Result<GroupEnd, OutOfMemory>
        requires { (g < Self.count self.now) × fits self.now worker.old }
        ensures answer { IfOk result (λ e. e ≡ Self.answer self.now g) }
        ensures fits { IfOk result (λ e. ended_by_fault e.ending ≡ false → fits self.now worker.new) };
}
