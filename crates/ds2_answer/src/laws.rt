//! Laws of the answer, over the definitions alone: each function's contract is one, and its body does nothing.
ghost use Rattle.ds2_answer.specs.ProgramEndings.{EveryProgramHasEnding};
ghost use Rattle.ds2_answer.specs.StoredCodes.{CodesDoAsPrograms};

use ds2_code_answer::laws::valid_code_has_endings;

/// What `run` does with the programs of a source is what `exec` does with codes that mean the same.
pub fn codes_do_as_programs()
    ensures { CodesDoAsPrograms }
{}

/// Each program that a command runs ends normally or by a fault, over whatever tables: those of a source, and those of valid code.
pub fn every_program_has_ending()
    ensures { EveryProgramHasEnding }
{
    valid_code_has_endings();
}
