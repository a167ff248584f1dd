//! Laws over the definitions alone, for any choice of what states are and which locations are fixed.
ghost use Rattle.ds2_code_answer.specs.CodeSample.{CodeSampleMeetsPremises};
ghost use Rattle.ds2_code_answer.specs.StageSchedules.{AnySchedule, AnyScheduleOfCode};

/// A stage whose groups are independent at a grain gives, for every number of workers and every legal and complete history, its one-thread answer: the results of groups in order, up to and with the least fault.
pub fn any_schedule<State, Location, Content, Target, Value>()
    ensures { AnySchedule State Location Content Target Value }
{
    ds2_table::laws::groups_divide_loads();
}

/// So does a stage of code, with the units of the machine.
pub fn any_schedule_of_code<Location, Content>()
    ensures { AnyScheduleOfCode Location Content }
{
    ds2_table::laws::groups_divide_loads();
}

/// The premises of that law hold of a small stage of code.
pub fn code_sample_meets_premises()
    ensures { CodeSampleMeetsPremises }
{}
