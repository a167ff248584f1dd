//! The run of programs of code over tables that are held.
ghost use Rattle.std.specs.Prelude.{◌≡◌, ◌≤◌, ◌∷◌, ◌++◌, [], map, nat_eq, IfOk, OnOk};
ghost use Rattle.std.specs.Cmp.Lexicographic.{pointwise};
ghost use Rattle.std.specs.HashSet.{contains};
ghost use Rattle.std.specs.List.{AllByRecursion};
ghost use Rattle.ds2_value.specs.declared.fault.Ending.TheVariants.{Normal};
ghost use Rattle.ds2_code_answer.specs.CodeTables.{AreTablesOfCode, program_references};
ghost use Rattle.ds2_machine.specs.declared.machine.TheConstants.{MOST_BUDGET};
ghost use Rattle.ds2_group_job.specs.StageRuns.{RunsStages};
ghost use Rattle.ds2_answer.specs.HeldTables.{held_from_store, tables_held};
ghost use Rattle.ds2_answer.specs.Lines.{count_line};
ghost use Rattle.ds2_answer.specs.ObjectPlans.{answer_over, run_of_code};
ghost use Rattle.ds2_answer.specs.Plan.{Plan, each_in_turn};
ghost use Rattle.ds2_answer.specs.ProgramPlans.{programs_plan};
ghost use Rattle.ds2_verdicts.specs.ThreadVerdicts.{verdict_named};
ghost use Rattle.ds2_store_steps.specs.Halts.{CausedByStore, Follows, FollowsAll, InSession};
ghost use Rattle.ds2_exec.specs.CodeRuns.{AreLinked, rows_counted};
ghost use Rattle.ds2_exec.specs.LocalCodes.{IsIndependentWhereLocal};
ghost use Rattle.ds2_exec.specs.OutputSinks.{IsCodeEnd, code_end_then, left_by_run, sinks_then, tables_kept, write_sink_then};
ghost use Rattle.ds2_exec.specs.StageEnds.{GrainsFit, stages_counted};

use crate::key::key_of_run;
use crate::output_rows::sinks_of;
use crate::output_sink::OutputSink;
use crate::run_input::{RunInput, Running};
use crate::stages::{
    StageEnd, StageVerdict, count_stages, grains_of, last_verdict, stage_ends, stages_judged,
};
use crate::workers::workers_of;
use ds2_answer::lines::{say_count, say_lines, say_table};
use ds2_base::{Bytes, List, OutOfMemory, Text};
use ds2_code::TableReference;
use ds2_group_job::{ProgramRun, StageRun, ThreadEnd, run_into};
use ds2_outside::Store;
use ds2_reading::HashKey;
use ds2_scope::NameSet;
use ds2_store_steps::{
    Halt, KeptTable, Session, end_in_fault, names_kept, table_file, tables_referred, write_file,
};
use ds2_unit::{OutputSinks, RunEnd};
use ds2_valid_code::ProgramCode;
use ds2_value::{Ending, Value};
use std::alloc::Global;

/// What a program's code leaves: the tables of its outputs, the lines that it put, its ending, how many instructions its units executed, and
/// what is told of the thread programs that it has begun.
#[derive(Drop)]
pub(crate) struct CodeEnd {
    pub(crate) tables: List<OutputSink>,
    pub(crate) lines: List<Text>,
    pub(crate) ending: Ending,
    pub(crate) executed: u128,
    pub(crate) stages: List<StageEnd>,
}

// ---- one program

// What a program's code leaves whose run has ended so, with what its sink has taken and the verdicts on its thread programs.
fn code_end(
    alloc: Global,
    stages: &List<StageVerdict>,
    sink: OutputSinks<OutputSink>,
    end: RunEnd,
) -> Result<CodeEnd, OutOfMemory>
    ensures { IfOk result (λ left. left ≡ left_by_run stages.now sink end) }
{
    let stages = stage_ends(alloc, stages, end.stages.as_slice())?;
    Ok(CodeEnd {
        tables: List::of(sink.outputs),
        lines: sink.lines,
        ending: end.ending,
        executed: end.executed,
        stages,
    })
}

// Runs a program's code over those of the tables that are held that it names: these. Rows are kept of tables of the names that are kept.
fn run_code<F: Fn(Global, &StageRun, &[Value]) -> Result<ThreadEnd, OutOfMemory>>(
    alloc: Global,
    running: &Running<F>,
    code: &ProgramCode,
    references: &[TableReference],
    made: &[List<KeptTable>],
) -> Result<CodeEnd, OutOfMemory>
    requires callable { F.IsAlwaysCallable running.now.run.now }
    requires right { RunsStages (F.post running.now.run.now) }
    requires references { references.now ≡ program_references code.now.program code.now.stages }
    requires fit { GrainsFit (verdict_named running.now.verdicts.now) code.now }
    requires tables { AreTablesOfCode code.now (tables_held (record { stored = running.now.stored.now; made = made.now }) code.now) }
    requires budget { running.now.budget ≤ MOST_BUDGET }
    requires independent { IsIndependentWhereLocal (verdict_named running.now.verdicts.now) code.now }
    ensures { IfOk result (λ end. IsCodeEnd (contains (pointwise nat_eq) running.now.kept.now) (verdict_named running.now.verdicts.now) code.now
        (answer_over (verdict_named running.now.verdicts.now) code.now running.now.budget (record { stored = running.now.stored.now; made = made.now })) end) }
{
    let tables = tables_referred(alloc, references, running.stored, made, running.key)?;
    let parts = code.parts();
    let stages = stages_judged(alloc, parts.stages.as_slice(), running.verdicts)?;
    let judged = stages.as_slice();
    let verdict = last_verdict(judged);
    let grains = grains_of(alloc, judged)?;
    let program = ProgramRun {
        code,
        tables: &tables,
        budget: running.budget,
        grains: &grains,
        workers: workers_of(&parts.program, verdict, running.threads),
    };
    let mut sink = sinks_of(alloc, code, running.kept)?;
    let end = run_into(alloc, &program, running.run, &mut sink)?;
    code_end(alloc, &stages, sink, end)
}

// Writes a table.
fn write_one<S: Store>(session: &mut Session<S>, table: &OutputSink) -> Result<(), Halt>
    ensures does { (rest : Plan) → InSession S.files (Follows (write_sink_then table.now rest) (λ _. rest)) session.old result session.new }
    ensures cause { CausedByStore S.read_faults S.write_faults session.old result session.new }
{
    let file = table_file(session.alloc, &table.written.name)?;
    write_file(session, &file, &table.written.text)
}

// Writes tables in their order, up to the first that fails.
fn write_tables<S: Store>(session: &mut Session<S>, tables: &[OutputSink]) -> Result<(), Halt>
    ensures does { (rest : Plan) → InSession S.files (Follows (each_in_turn write_sink_then tables.now rest) (λ _. rest)) session.old result session.new }
    ensures cause { CausedByStore S.read_faults S.write_faults session.old result session.new }
{
    let mut left = tables;
    while let [table, after @ ..] = left {
        write_one(session, table)?;
        left = after;
    }
    Ok(())
}

// Counts the rows of tables in the log.
fn count_rows(alloc: Global, tables: &[OutputSink], log: &mut Bytes) -> Result<(), OutOfMemory>
    ensures { OnOk result (log.new ≡ log.old ++ rows_counted tables.now) }
{
    let mut left = tables;
    'tables: while let [table, after @ ..] = left {
        say_table(alloc, &table.written.name, table.written.rows, log)?;
        left = after;
    }
    Ok(())
}

// Counts a program's instructions in the log, and then the rows of its tables.
fn say_numbers(
    alloc: Global,
    executed: u128,
    tables: &[OutputSink],
    log: &mut Bytes,
) -> Result<(), OutOfMemory>
    ensures { OnOk result (log.new ≡ log.old ++ (count_line executed ++ rows_counted tables.now)) }
{
    say_count(alloc, executed, log)?;
    count_rows(alloc, tables, log)
}

// Counts in the log what the thread programs of a program did, and then its instructions and rows.
fn say_counts(alloc: Global, end: &CodeEnd, log: &mut Bytes) -> Result<(), OutOfMemory>
    ensures { OnOk result (log.new ≡ log.old ++ (stages_counted end.now.stages ++ (count_line end.now.executed ++ rows_counted end.now.tables))) }
{
    count_stages(alloc, end.stages.as_slice(), log)?;
    say_numbers(alloc, end.executed, end.tables.as_slice(), log)
}

// Writes the tables of a program that has ended normally, and counts in the log what it did.
fn finish<S: Store>(session: &mut Session<S>, end: &CodeEnd) -> Result<(), Halt>
    ensures does { (rest : Plan) → InSession S.files (Follows (sinks_then Normal end.now.stages end.now.executed end.now.tables rest) (λ _. rest)) session.old result session.new }
    ensures cause { CausedByStore S.read_faults S.write_faults session.old result session.new }
{
    write_tables(session, end.tables.as_slice())?;
    say_counts(session.alloc, end, &mut session.log)?;
    Ok(())
}

// Says the lines of a program that has ended, and then writes its tables or says its fault.
fn leave<S: Store>(session: &mut Session<S>, end: &CodeEnd) -> Result<(), Halt>
    ensures does { (rest : Plan) → InSession S.files (Follows (code_end_then end.now rest) (λ _. rest)) session.old result session.new }
    ensures cause { CausedByStore S.read_faults S.write_faults session.old result session.new }
{
    say_lines(end.lines.as_slice(), &mut session.log)?;
    match end.ending {
        Ending::Normal => finish(session, end),
        Ending::Faulted { kind, place } => {
            Err(end_in_fault(session.alloc, kind, place, &mut session.log))
        }
    }
}

// Adds a table of which rows are kept.
fn add_kept(
    alloc: Global,
    tables: &mut List<KeptTable>,
    sink: OutputSink,
) -> Result<(), OutOfMemory>
    ensures { OnOk result (tables.new ≡ tables.old ++ tables_kept (sink ∷ [])) }
{
    let OutputSink { written, kept } = sink;
    match kept {
        None => Ok(()),
        Some(table) => tables.push(KeptTable::new(alloc, &written.name, table, HashKey::new())?),
    }
}

// The tables of which rows are kept.
#[tactic(auto, using(crate::proofs::ProgramSteps::taking_begins, crate::proofs::ProgramSteps::taken_another, crate::proofs::ProgramSteps::taken_all))]
fn kept_tables(alloc: Global, sinks: List<OutputSink>) -> Result<List<KeptTable>, OutOfMemory>
    ensures { IfOk result (λ tables. tables ≡ tables_kept sinks) }
{
    let mut tables = List::new(alloc);
    let mut items = sinks.into_vec();
    items.reverse();
    let mut rest = List::of(items);
    'sinks: while let Some(sink) = rest.pop() {
        add_kept(alloc, &mut tables, sink)?;
    }
    Ok(tables)
}

// Says what a program has left, writes its tables, and gives those of which rows are kept.
fn settle<S: Store>(session: &mut Session<S>, end: CodeEnd) -> Result<List<KeptTable>, Halt>
    ensures does { (rest : Plan) → InSession S.files (Follows (code_end_then end rest) (λ _. rest)) session.old result session.new }
    ensures kept { IfOk result (λ tables. tables ≡ tables_kept end.tables) }
    ensures cause { CausedByStore S.read_faults S.write_faults session.old result session.new }
{
    leave(session, &end)?;
    Ok(kept_tables(session.alloc, end.tables)?)
}

// ---- programs

// The names of the tables of which rows are kept, which are let go by a call.
struct KeptNames {
    names: NameSet,
}

impl Drop for KeptNames {
    fn drop(self) {
        let KeptNames { names: _ } = self;
    }
}

/// Runs programs one behind the other, each over the tables of the store that were read and those that earlier ones have made: `init`, `run`
/// on each load, `term`; behind `init` the thread program that it reads from, if any, with its groups at the grain of its verdict. `run` runs
/// that one, on workers where its verdict is local or on the caller's thread, with the same answer. A program that ends without fault writes
/// its tables; the first fault ends the command. Rows are kept only of tables that a program names.
pub fn run_programs<F: Fn(Global, &StageRun, &[Value]) -> Result<ThreadEnd, OutOfMemory>, S: Store>(
    session: &mut Session<S>,
    input: &RunInput,
    run: &F,
) -> Result<(), Halt>
    requires callable { F.IsAlwaysCallable run.now }
    requires right { RunsStages (F.post run.now) }
    requires fit { AllByRecursion (GrainsFit (verdict_named input.now.verdicts.now)) input.now.codes.now }
    requires linked { AreLinked input.now.codes.now input.now.stored.now }
    requires budget { input.now.budget ≤ MOST_BUDGET }
    requires independent { AllByRecursion (IsIndependentWhereLocal (verdict_named input.now.verdicts.now)) input.now.codes.now }
    ensures does { InSession S.files (FollowsAll (programs_plan (map (run_of_code (verdict_named input.now.verdicts.now) input.now.budget) input.now.codes.now) (held_from_store input.now.stored.now))) session.old result session.new }
    ensures cause { CausedByStore S.read_faults S.write_faults session.old result session.new }
{
    let alloc = session.alloc;
    let codes = input.codes.codes();
    let stored = input.stored;
    let names = names_kept(alloc, input.codes.references())?;
    let kept = KeptNames { names };
    let key = key_of_run(alloc, codes, stored)?;
    let running = Running {
        stored,
        verdicts: input.verdicts,
        kept: &kept.names,
        key,
        threads: input.threads,
        budget: input.budget,
        run,
    };
    let mut made: List<List<KeptTable>> = List::new(alloc);
    let mut left = codes;
    while let [code, after @ ..] = left {
        let _parts = code.parts();
        let references = input.codes.references_at(made.len());
        let end = run_code(alloc, &running, code, references, made.as_slice())?;
        let tables = settle(session, end)?;
        made.push(tables)?;
        left = after;
    }
    Ok(())
}
