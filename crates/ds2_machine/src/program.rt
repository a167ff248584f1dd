//! The program that a machine runs.
ghost use Rattle.std.specs.Prelude.{◌≡◌};
ghost use Rattle.ds2_machine.specs.AtRest.{staged_program, IsProgramOfValid};

use ds2_code::ProgramParts;
use ds2_valid_code::ProgramCode;

/// The program of a number in valid code: 0 for the data program, k for the k-th thread program below it; the data program where
/// there is none.
#[tactic(auto, using(crate::proofs::ProgramLemmas::programs))]
pub(crate) fn program_of(code: &ProgramCode, number: usize) -> &ProgramParts
    ensures program { result.now ≡ staged_program code.now number }
    ensures valid { IsProgramOfValid result.now }
{
    let parts = code.parts();
    if number == 0 {
        return &parts.program;
    }
    match parts.stages.get(number - 1) {
        None => &parts.program,
        Some(stage) => stage,
    }
}
