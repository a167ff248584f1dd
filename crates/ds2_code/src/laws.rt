//! What holds of any list of instructions, and of valid code.
ghost use Rattle.ds2_code.specs.CodeLaws.{RunHasOneEnd, RunsCountAlike, UnitsCountAlike, InstructionsLeaveLess, UnitsBeginWithLittle, UnitsEndInTime, UnitsArePaid, UnitsHaveTheirEnd};
ghost use Rattle.ds2_code.specs.ValidCode.{ValidCodeEnds};

/// A run has one end, after one number of instructions, however long it is followed.
pub fn run_has_one_end()
    ensures { RunHasOneEnd }
{}

/// The way of a run tells how many instructions it executes.
pub fn runs_count_alike()
    ensures { RunsCountAlike }
{}

/// The way of a unit tells how many instructions it executes, whatever its budget and data.
pub fn units_count_alike()
    ensures { UnitsCountAlike }
{}

/// Where each jump goes forward or to a step of the budget, each instruction that does not end a run leaves less work: the
/// measure of a loop that executes code.
pub fn instructions_leave_less()
    ensures { InstructionsLeaveLess }
{}

/// A unit begins with at most (budget + 1) times as much work as the list is long.
pub fn units_begin_with_little()
    ensures { UnitsBeginWithLittle }
{}

/// So it has come to an end, or has left the list, after at most (budget + 1) times as many instructions as the list is long.
pub fn units_end_in_time()
    ensures { UnitsEndInTime }
{}

/// It executes at most (steps and calls begun + 1) times as many.
pub fn units_are_paid()
    ensures { UnitsArePaid }
{}

/// Where no run leaves the list either, its run is over within the bound, and has no other end.
pub fn units_have_their_end()
    ensures { UnitsHaveTheirEnd }
{}

/// A unit of valid code ends, at its end or by a fault, and executes at most (budget + 1) times as many instructions as the list has,
/// whatever its data and load: no operand, caller, method, output, hash object or iterator is ever missing.
pub fn valid_code_ends()
    ensures { ValidCodeEnds }
{}
