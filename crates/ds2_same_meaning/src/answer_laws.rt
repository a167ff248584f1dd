//! The law that a program's code answers as the program means, over the definitions alone.
ghost use Rattle.ds2_same_meaning.specs.SameAnswer.{TypedProgramsAnswerAlike};
ghost use Rattle.ds2_same_meaning.specs.SameLoads.{TypedLoadsAreAlike};

/// Over its tables the code of a typed program has the program's loads, and each sets the slots that the program's load sets; and before the
/// first unit the data hold what the program opens with.
pub fn typed_loads_are_alike()
    ensures { TypedLoadsAreAlike }
{
    ds2_program_code::laws::typed_programs_open_alike();
}

/// The code of a typed program, over tables or with the thread programs that it reads from, leaves on one thread the rows and lines, the ending,
/// the budgets and the groups that the program means, and of each thread program its ending and groups, over any tables and for every budget,
/// whatever values its parameters have.
pub fn typed_programs_answer_alike()
    ensures { TypedProgramsAnswerAlike }
{
    ds2_program_code::laws::typed_programs_open_alike();
    ds2_program_code::laws::typed_units_run_as_meant();
    ds2_program_code::laws::stage_rows_set_slots();
}
