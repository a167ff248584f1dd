//! Laws over the definitions alone.
ghost use Rattle.ds2_schedule.specs.Runs.{RunsAreLeast, SomeCuts};
ghost use Rattle.ds2_schedule.specs.Stage.{EachGroupOnce};
ghost use Rattle.ds2_schedule.specs.Sums.{FaultIsLeast};

/// The number of runs is the least that holds all groups.
pub fn runs_are_least()
    ensures { RunsAreLeast }
{}

/// The runs of some stages.
pub fn some_cuts()
    ensures { SomeCuts }
{}

/// In every replay the groups of the runs drawn are left or handed in, each exactly once.
pub fn each_group_once()
    ensures { EachGroupOnce }
{}

/// The least fault of a list of hand-ins is a group that faulted, and none below it did.
pub fn fault_is_least()
    ensures { FaultIsLeast }
{}
