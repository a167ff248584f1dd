//! A program, with the thread programs below it. What runs the one that reads tables is a parameter.
ghost use Rattle.std.specs.Prelude.{◌≡◌, ◌+◌, [], drop, IfOk};
ghost use Rattle.ds2_value.specs.Row.{Row};
ghost use Rattle.ds2_code_answer.specs.CodeLoads.{code_reading};
ghost use Rattle.ds2_code_answer.specs.CodeTables.{tables_of_stage};
ghost use Rattle.ds2_unit.specs.Places.{IsMachineAt};
ghost use Rattle.ds2_unit.specs.ProgramRun.{IsRunEnd};
ghost use Rattle.ds2_unit.specs.Readers.{IsReadyReader};
ghost use Rattle.ds2_unit.specs.Threads.{IsThreadEnd};
ghost use Rattle.ds2_group_job.specs.ProgramRuns.{IsProgramReady, IsReadyBelow, answer_below, answer_of_program, answer_of_reader};
ghost use Rattle.ds2_group_job.specs.StageRuns.{RunsStages, answer_of_thread};

use crate::program_run::ProgramRun;
use crate::stage_run::StageRun;
use ds2_base::OutOfMemory;
use ds2_code_answer::laws::readings_fit_tables;
use ds2_loads::{loaded_hashes, statement_of};
use ds2_machine::{Machine, UnitEnd, UnitRecord, UnitSink};
use ds2_reading::{Reading, Tables};
use ds2_unit::{
    ProgramPlace, ReaderRun, RunEnd, ThreadEnd, ThreadRun, UnitsEnd, ended_alone, ended_behind,
    first_grain, open_reader, run_rows, tables_behind, thread_end,
};
use ds2_value::Value;
use std::alloc::Global;

// How a program has ended whose `init` has ended it.
fn ended_at_init(alloc: Global, first: UnitEnd) -> RunEnd
    ensures ending { result.ending ≡ first.ending }
    ensures executed { result.executed ≡ first.executed }
    ensures stages { result.stages ≡ [] }
{
    let end = UnitsEnd {
        ending: first.ending,
        executed: u128::from(first.executed),
    };
    ended_alone(alloc, end)
}

// The thread program from which a program reads, where it reads tables: these ones, by this statement.
fn last_stage<'a>(
    program: &ProgramRun,
    reader: &'a ReaderRun,
    reading: &'a Reading,
    tables: &'a Tables,
) -> StageRun<'a>
    requires ready { IsReadyBelow program.now reader.now }
    requires statement { reading.now ≡ code_reading reader.now.stage.now }
    requires tables { tables.now ≡ tables_of_stage reader.now.place.program.now reader.now.place.tables.now }
    requires last { drop (reader.now.place.number + 1) reader.now.place.code.now.stages ≡ [] }
    ensures { (given : Row) → answer_of_thread result given ≡ answer_below program.now reader.now given }
{
    readings_fit_tables();
    let code = reader.place.code;
    let _valid = code.parts();
    let asked = program.grains.as_slice();
    let thread = ThreadRun {
        code,
        number: reader.place.number + 1,
        stage: reader.stage,
        reading,
        tables,
        budget: program.budget,
        grain: first_grain(asked),
    };
    StageRun::new(thread, program.workers)
}

// Runs the thread program from which a program reads, with these values of its parameters, whole: by `run` where it reads tables. Where it
// reads from one below it, that one runs behind its `init`.
#[cycle(below)]
fn run_below<F: Fn(Global, &StageRun, &[Value]) -> Result<ThreadEnd, OutOfMemory>>(
    alloc: Global,
    program: &ProgramRun,
    reader: &ReaderRun,
    given: &[Value],
    run: &F,
) -> Result<ThreadEnd, OutOfMemory>
    requires callable { F.IsAlwaysCallable run.now }
    requires right { RunsStages (F.post run.now) }
    requires ready { IsReadyBelow program.now reader.now }
    ensures { IfOk result (λ end. IsThreadEnd (answer_below program.now reader.now given.now) end) }
{
    let code = reader.place.code;
    let parts = code.parts();
    let number = reader.place.number + 1;
    let hashes = reader.place.program.hashes.as_slice();
    let own = tables_behind(alloc, reader.place.tables, loaded_hashes(hashes))?;
    let Some(stage) = parts.stages.get(number) else {
        let reading = statement_of(alloc, reader.stage)?;
        let last = last_stage(program, &*reader, &reading, &own);
        return run(alloc, &last, given);
    };
    let place = ProgramPlace {
        code,
        number,
        program: reader.stage,
        tables: &own,
    };
    let below = ReaderRun { place, stage };
    let mut machine = open_reader(alloc, &below, given)?;
    run_kept(alloc, program, &below, &mut machine, run)
}

// Runs a thread program that reads from the one below it, from a machine for it. What it writes is kept.
#[cycle(below)]
fn run_kept<F: Fn(Global, &StageRun, &[Value]) -> Result<ThreadEnd, OutOfMemory>>(
    alloc: Global,
    program: &ProgramRun,
    reader: &ReaderRun,
    machine: &mut Machine,
    run: &F,
) -> Result<ThreadEnd, OutOfMemory>
    requires callable { F.IsAlwaysCallable run.now }
    requires right { RunsStages (F.post run.now) }
    requires reader { IsReadyReader reader.now }
    requires ready { IsReadyBelow program.now reader.now }
    requires machine { IsMachineAt reader.now.place machine.old }
    ensures { IfOk result (λ end. IsThreadEnd (answer_of_reader program.now reader.now machine.old.state) end) }
{
    let budget = program.budget;
    let mut written = UnitRecord::new(alloc);
    let first = machine.call_init(alloc, reader.place.code, budget, &mut written)?;
    if machine.spent() {
        return Ok(thread_end(written, ended_at_init(alloc, first), 0));
    }
    let below = run_below(alloc, program, reader, machine.stage_parameters(), run)?;
    let groups = below.written.rows.len() as u64;
    let rest = run_rows(alloc, reader, &below, machine, budget, &mut written)?;
    let whole = ended_behind(first, below, rest)?;
    Ok(thread_end(written, whole, groups))
}

// Runs a data program that reads from a thread program, from a machine for it.
fn run_opened<F: Fn(Global, &StageRun, &[Value]) -> Result<ThreadEnd, OutOfMemory>, S: UnitSink>(
    alloc: Global,
    program: &ProgramRun,
    reader: &ReaderRun,
    machine: &mut Machine,
    run: &F,
    sink: &mut S,
) -> Result<RunEnd, OutOfMemory>
    requires callable { F.IsAlwaysCallable run.now }
    requires right { RunsStages (F.post run.now) }
    requires reader { IsReadyReader reader.now }
    requires ready { IsReadyBelow program.now reader.now }
    requires machine { IsMachineAt reader.now.place machine.old }
    ensures { IfOk result (λ end. IsRunEnd S.has_taken sink.old sink.new (answer_of_reader program.now reader.now machine.old.state) end) }
{
    let budget = program.budget;
    let first = machine.call_init(alloc, reader.place.code, budget, sink)?;
    if machine.spent() {
        return Ok(ended_at_init(alloc, first));
    }
    let thread = run_below(alloc, program, reader, machine.stage_parameters(), run)?;
    let rest = run_rows(alloc, reader, &thread, machine, budget, sink)?;
    let end = ended_behind(first, thread, rest)?;
    Ok(end)
}

// Runs a data program that reads from no thread program.
fn run_plain<S: UnitSink>(
    alloc: Global,
    program: &ProgramRun,
    sink: &mut S,
) -> Result<RunEnd, OutOfMemory>
    requires ready { IsProgramReady program.now }
    requires stages { program.now.code.now.stages ≡ [] }
    ensures { IfOk result (λ end. IsRunEnd S.has_taken sink.old sink.new (answer_of_program program.now) end) }
{
    let code = program.code;
    let _valid = code.parts();
    ds2_unit::run_into(
        alloc,
        code,
        program.tables,
        program.budget,
        program.grains,
        sink,
    )
}

/// Runs a data program: `init`, `run` on each of its loads, `term`, up to the first fault. Rows and lines go to the sink as they are written.
///
/// Where it reads from a thread program, that one is run whole behind `init`, with the parameters that were set last: its lines go to the
/// sink when it has ended, its fault ends the data program, and its rows are the loads of `run`. So it is with each thread program that reads
/// from another, and `run` runs the one that reads tables. Whatever runs it, on one thread or with its groups on many workers in whatever
/// order, the program leaves its one-thread answer.
pub fn run_into<F: Fn(Global, &StageRun, &[Value]) -> Result<ThreadEnd, OutOfMemory>, S: UnitSink>(
    alloc: Global,
    program: &ProgramRun,
    run: &F,
    sink: &mut S,
) -> Result<RunEnd, OutOfMemory>
    requires callable { F.IsAlwaysCallable run.now }
    requires right { RunsStages (F.post run.now) }
    requires ready { IsProgramReady program.now }
    ensures { IfOk result (λ end. IsRunEnd S.has_taken sink.old sink.new (answer_of_program program.now) end) }
{
    let parts = program.code.parts();
    let Some(stage) = parts.stages.get(0) else {
        return run_plain(alloc, program, sink);
    };
    let place = ProgramPlace {
        code: program.code,
        number: 0,
        program: &parts.program,
        tables: program.tables,
    };
    let reader = ReaderRun { place, stage };
    let mut machine = open_reader(alloc, &reader, &[])?;
    run_opened(alloc, program, &reader, &mut machine, run, sink)
}
