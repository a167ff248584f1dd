//! A law of verdicts and code, over the definitions alone.
ghost use Rattle.ds2_compile.specs.LocalStages.{LocalStagesAreIndependent};

/// The code of each thread program over tables that a program of a source reads from is independent at the grain at which its verdict among
/// those of the source calls it local: its groups give the same over any tables, whatever groups ran before.
pub fn local_stages_are_independent()
    ensures { LocalStagesAreIndependent }
{
    ds2_verdicts::laws::programs_have_verdicts();
    ds2_same_meaning::locality_laws::local_code_has_independent_groups();
}
