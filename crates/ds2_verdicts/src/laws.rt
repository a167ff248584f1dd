//! Laws of verdicts, over the definitions alone: each function's contract is one.
ghost use Rattle.ds2_verdicts.specs.OwnVerdicts.{ProgramsHaveVerdicts};
ghost use Rattle.ds2_verdicts.specs.SourceVerdicts.{TypedThreadsAreJudged};

/// The verdict on a typed thread program of a source is the one that the source has on it.
pub fn typed_threads_are_judged()
    ensures { TypedThreadsAreJudged }
{}

/// Each thread program that a program of a source reads from has its verdict among those of the source, under its name.
pub fn programs_have_verdicts()
    ensures { ProgramsHaveVerdicts }
{
    ds2_locality::laws::all_objects_are_told();
}
