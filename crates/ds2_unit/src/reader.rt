//! A program behind the thread program that it reads from.
ghost use Rattle.std.specs.Prelude.{◌≡◌, ◌+◌, ◌++◌, ◌≤◌, [], ◌∷◌, length, IfOk, OnOk};
ghost use Rattle.ds2_table.specs.OneThread.{Answer};
ghost use Rattle.ds2_code.specs.CodeUnit.{opening_data};
ghost use Rattle.ds2_code_answer.specs.CodeLoads.{slots_of_stage};
ghost use Rattle.ds2_code_answer.specs.CodeTables.{rows_of_each};
ghost use Rattle.ds2_machine.specs.Sink.{SinkTakes};
ghost use Rattle.ds2_machine.specs.declared.machine.TheConstants.{MOST_BUDGET};
ghost use Rattle.ds2_unit.specs.UnitsRun.{HasRunAnswer};
ghost use Rattle.ds2_unit.specs.Places.{IsMachineAt};
ghost use Rattle.ds2_unit.specs.Readers.{IsReadyReader};
ghost use Rattle.ds2_unit.specs.Threads.{IsThreadEnd, answer_behind};

use crate::place::{ProgramPlace, open_machine};
use crate::program_end::RunEnd;
use crate::thread::ThreadEnd;
use crate::units::{run_to_end, sum_of};
use crate::units_end::UnitsEnd;
use ds2_base::{OutOfMemory, Text};
use ds2_code::{ProgramParts, ReadingPart};
use ds2_loads::StageRows;
use ds2_machine::{Machine, UnitEnd, UnitSink};
use ds2_value::{Ending, Value};
use std::alloc::Global;

/// What stays the same while a program runs that reads from a thread program.
#[derive(Clone, Copy)]
pub struct ReaderRun<'a> {
    pub place: ProgramPlace<'a>,
    /// The thread program that it reads from, the next one below it.
    pub stage: &'a ProgramParts,
}

/// The machine of a program before its `init`, with these values of its own parameters; those of the thread program are null.
///
/// A decimal of another scale than its parameter's, which valid code does not set, would be refused as want of memory.
pub fn open_reader(alloc: Global, run: &ReaderRun, given: &[Value]) -> Result<Machine, OutOfMemory>
    requires { IsReadyReader run.now }
    ensures machine { IfOk result (λ machine. IsMachineAt run.now.place machine) }
    ensures begun { IfOk result (λ machine. machine.state
        ≡ opening_data run.now.place.program.now given.now (rows_of_each run.now.place.tables.now) (length run.now.stage.now.parameters)) }
{
    open_machine(alloc, &run.place, given, run.stage.parameters.len())
}

// The slots of the columns of the thread program that a reading reads from; none where it reads from none.
fn thread_slots(reading: &ReadingPart) -> &[u32]
    ensures { slots_of_stage reading.now ≡ result.now }
{
    match reading {
        ReadingPart::Once => &[],
        ReadingPart::Nothing => &[],
        ReadingPart::Set { .. } => &[],
        ReadingPart::Merge { .. } => &[],
        ReadingPart::Stage { slots, .. } => slots.as_slice(),
    }
}

// Hands lines on to a sink, in order.
fn hand_on<S: UnitSink>(alloc: Global, lines: &[Text], sink: &mut S) -> Result<(), OutOfMemory>
    ensures { OnOk result (SinkTakes S.has_taken sink.old sink.new [] lines.now) }
{
    'lines: for line in lines {
        sink.take_line(alloc, line.as_str())?;
    }
    Ok(())
}

/// Goes on behind a thread program: its lines come first, its fault ends the program that reads from it, and its rows are the loads of `run`.
pub fn run_rows<S: UnitSink>(
    alloc: Global,
    run: &ReaderRun,
    thread: &ThreadEnd,
    machine: &mut Machine,
    budget: u64,
    sink: &mut S,
) -> Result<UnitsEnd, OutOfMemory>
    requires reader { IsReadyReader run.now }
    requires machine { IsMachineAt run.now.place machine.old }
    requires budget { budget ≤ MOST_BUDGET }
    ensures { IfOk result (λ end. (answer : Answer) → IsThreadEnd answer thread.now → HasRunAnswer S.has_taken sink.old sink.new
        (answer_behind run.now.place.program.now budget machine.old.state answer) end) }
{
    let program = run.place.program;
    let into = thread_slots(&program.reading);
    let slots = program.slots.as_slice();
    let lines = thread.written.lines.as_slice();
    hand_on(alloc, lines, sink)?;
    match thread.ending {
        Ending::Faulted { kind, place } => Ok(UnitsEnd {
            ending: Ending::Faulted { kind, place },
            executed: 0,
        }),
        Ending::Normal => {
            let rest = thread.written.rows.as_slice();
            let mut source = StageRows {
                slots,
                into,
                row: &[],
                rest,
                all: rest,
            };
            let end = run_to_end(alloc, run.place.code, machine, &mut source, budget, sink)?;
            Ok(end)
        }
    }
}

/// How a program has ended behind `init` and its thread program.
pub fn ended_behind(
    first: UnitEnd,
    thread: ThreadEnd,
    rest: UnitsEnd,
) -> Result<RunEnd, OutOfMemory>
    ensures ending { IfOk result (λ end. end.ending ≡ rest.ending) }
    ensures executed { IfOk result (λ end. end.executed ≡ first.executed + rest.executed) }
    ensures stages { IfOk result (λ end. end.stages ≡ thread.below ++ thread.note ∷ []) }
{
    let executed = sum_of(rest.executed, u128::from(first.executed))?;
    let note = thread.note;
    let mut stages = thread.below;
    stages.push(note)?;
    Ok(RunEnd {
        ending: rest.ending,
        executed,
        stages,
    })
}
