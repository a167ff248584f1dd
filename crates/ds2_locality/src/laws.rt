//! Laws of locality, over the definitions alone.
ghost use Rattle.ds2_locality.specs.FurtherVerdicts.{FurtherVerdicts, JobVerdicts};
ghost use Rattle.ds2_locality.specs.Independence.{RunLeavesFixed, UnitsJoin, IndependentOverTables};
ghost use Rattle.ds2_locality.specs.IndependentSums.{IndependentSums};
ghost use Rattle.ds2_locality.specs.LocalityExamples.{GrainVerdicts, ReadVerdicts, CallVerdicts, OutsideVerdicts};
ghost use Rattle.ds2_locality.specs.Soundness.{AllObjectsAreTold, LocalIsIndependent};
ghost use Rattle.ds2_locality.specs.Verdict.{CoarserHolds, LocalIsGreatest, NotLocalIsGrounded};

/// `run` on the loads of a group leaves what it can't change as it was.
pub fn run_leaves_fixed()
    ensures { RunLeavesFixed }
{}

/// What the units of a thread program gave is put together as the law on stages asks.
pub fn units_join()
    ensures { UnitsJoin }
{}

/// The groups of a thread program over its tables are independent at a grain, as the law on stages asks, where it is group independent
/// there.
pub fn independent_over_tables()
    ensures { IndependentOverTables }
{}

/// A typed thread program that the verdict calls local at a grain is group independent there: what it may have left before never shows.
pub fn local_is_independent()
    ensures { LocalIsIndependent }
{}

/// A thread program whose hash objects and iterators are told in the order of some names of declarations has told them all.
pub fn all_objects_are_told()
    ensures { AllObjectsAreTold }
{}

/// Sums by groups are typed, local and so group independent; a sum that runs on is not group independent.
pub fn independent_sums()
    ensures { IndependentSums }
{}

/// The grain of a local thread program is the greatest one at which the rules on walks hold.
pub fn local_is_greatest()
    ensures { LocalIsGreatest }
{}

/// Where the rules on walks hold at a grain they hold at each coarser one, so the first one at which they do not ends a search upward.
pub fn coarser_holds()
    ensures { CoarserHolds }
{}

/// A thread program that is not local breaks a rule, and it is told the first one that it breaks.
pub fn not_local_is_grounded()
    ensures { NotLocalIsGrounded }
{}

/// The grains of small thread programs.
pub fn grain_verdicts()
    ensures { GrainVerdicts }
{}

/// What reads and what cleans, in small thread programs.
pub fn read_verdicts()
    ensures { ReadVerdicts }
{}

/// Calls of methods, hash objects and iterators, in small thread programs.
pub fn call_verdicts()
    ensures { CallVerdicts }
{}

/// Statements outside of `run`, in small thread programs.
pub fn outside_verdicts()
    ensures { OutsideVerdicts }
{}

/// Sums of sales as jobs, with lines and columns.
pub fn job_verdicts()
    ensures { JobVerdicts }
{}

/// Further operands, constructs and calls, in small thread programs.
pub fn further_verdicts()
    ensures { FurtherVerdicts }
{}
