//! The laws at types of their callers.
ghost use Rattle.std.specs.Prelude.{ℕ, List, Bool};
ghost use Rattle.ds2_code_answer.specs.StageSchedules.{AnySchedule, AnyScheduleOfCode};
ghost use Rattle.ds2_schedule.specs.Groups.{EveryStage};
ghost use Rattle.ds2_schedule.specs.Schedule.{EverySchedule};

use ds2_base::List as Items;
use ds2_code_answer::schedule_laws::{any_schedule, any_schedule_of_code};
use ds2_schedule::laws;

fn schedule_of_lists()
    ensures { EverySchedule (List ℕ) ℕ Bool ℕ }
{
    laws::every_schedule::<Items<u64>, u64, bool, u64>()
}

fn stage_of_numbers()
    ensures { EveryStage ℕ ℕ ℕ ℕ Bool (List ℕ) }
{
    laws::every_stage::<u64, u64, u64, u64, bool, Items<u64>>()
}

fn schedule_of_numbers()
    ensures { AnySchedule ℕ ℕ Bool ℕ (List ℕ) }
{
    any_schedule::<u64, u64, bool, u64, Items<u64>>()
}

fn schedule_of_code()
    ensures { AnyScheduleOfCode ℕ Bool }
{
    any_schedule_of_code::<u64, bool>()
}

#[test]
fn laws_at_types() {
    schedule_of_lists();
    stage_of_numbers();
    schedule_of_numbers();
    schedule_of_code();
}
