//! Laws of the code of independent thread programs, over the definitions alone.
ghost use Rattle.ds2_exec.specs.LocalThreads.{IndependentCodeGivesThread, IndependentCodeGivesStages};

/// A thread program whose code is independent at a grain gives, in its groups there and in its `term`, the same whatever groups ran before,
/// behind an `init` with any values of its parameters.
pub fn independent_code_gives_thread()
    ensures { IndependentCodeGivesThread }
{}

/// So does the thread program from which a program reads, over the tables of the program.
pub fn independent_code_gives_stages()
    ensures { IndependentCodeGivesStages }
{
    independent_code_gives_thread();
}
