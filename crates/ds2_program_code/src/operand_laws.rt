//! Laws of the operands of typed code, over the definitions alone.
ghost use Rattle.ds2_program_code.specs.TypedOperands.{ExpressionsLead};
ghost use Rattle.ds2_program_code.specs.TypedRuns.{StatementsRun};

/// The code of a typed expression finds the operands that it needs, and leaves one of the expression's type.
pub fn expressions_have_types()
    ensures { ExpressionsLead }
{}

/// The code of typed statements finds the operands that it needs and leaves none, and each of its jumps leads to where none stands.
pub fn statements_have_types()
    ensures { StatementsRun }
{}
