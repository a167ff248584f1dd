//! Laws over the definitions alone, for any types of states, locations, contents, loads and results.
ghost use Rattle.ds2_schedule.specs.Bags.{EndedIsComplete, EndedIsCarried, EndedIsOneThread, WholeBagsHaveAll};
ghost use Rattle.ds2_schedule.specs.Groups.{AllAreStates, EveryStage};
ghost use Rattle.ds2_schedule.specs.Histories.{HistoriesReplay};
ghost use Rattle.ds2_schedule.specs.Numbers.{DrawsTheNext, StillAscends};
ghost use Rattle.ds2_schedule.specs.Sample.{SampleMeetsPremises};
ghost use Rattle.ds2_schedule.specs.Schedule.{EverySchedule, OneThreadAgrees};

/// Where groups are independent, the results of every legal and complete history, put in order, are those of one thread.
pub fn every_schedule<State, Location, Content, Answer>()
    ensures { EverySchedule State Location Content Answer }
{}

/// Where groups are independent, one thread gives what each group gives from the first state, and leaves a state that agrees with it.
pub fn one_thread_agrees<State, Location, Content, Answer>()
    ensures { OneThreadAgrees State Location Content Answer }
{}

/// A stage whose groups are independent at a grain gives on many workers what its loads in turn and `term` give on one thread.
pub fn every_stage<State, Location, Content, Target, Value, Answer>()
    ensures { EveryStage State Location Content Target Value Answer }
{}

/// Where every value of the type is a state of the program, independence between values that agree is independence between states.
pub fn all_are_states<State, Location, Content, Target, Value, Answer>()
    ensures { AllAreStates State Location Content Target Value Answer }
{}

/// The history of a stage that has ended is legal and complete.
pub fn ended_is_complete()
    ensures { EndedIsComplete }
{}

/// Through that history each party carries a state.
pub fn ended_is_carried<State, Location, Content, Answer>()
    ensures { EndedIsCarried State Location Content Answer }
{}

/// What the parties have when a stage has ended are the results of one thread.
pub fn ended_is_one_thread<State, Location, Content, Answer>()
    ensures { EndedIsOneThread State Location Content Answer }
{}

/// Bags that have all groups of their runs, of which one was drawn past the last, have every group once.
pub fn whole_bags_have_all()
    ensures { WholeBagsHaveAll }
{}

/// A seat that shows every number drawn draws the next one.
pub fn draws_the_next()
    ensures { DrawsTheNext }
{}

/// A seat whose draws are each above those before has ascending numbers.
pub fn still_ascends()
    ensures { StillAscends }
{}

/// Some histories, with faults early and late, one and many workers, none and many groups, and histories that are not legal.
pub fn histories_replay()
    ensures { HistoriesReplay }
{}

/// The premises of the law on stages hold of a small stage with a fault.
pub fn sample_meets_premises()
    ensures { SampleMeetsPremises }
{}
