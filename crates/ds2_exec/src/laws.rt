//! Laws of the run of objects, over the definitions alone: each function's contract is one, and its body does nothing.
ghost use Rattle.ds2_exec.specs.VerdictGrains.{VerdictGrainsFit};

/// The loads of a thread program can be put into groups at the grain of its verdict.
pub fn verdict_grains_fit()
    ensures { VerdictGrainsFit }
{
    ds2_locality::laws::local_is_greatest();
}
