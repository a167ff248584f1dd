//! A thread program that reads tables, on one thread.
ghost use Rattle.std.specs.Prelude.{◌≡◌, [], drop, IfOk, Some};
ghost use Rattle.std.specs.Arc.{arc_value};
ghost use Rattle.ds2_table.specs.OneThread.{alone_answer, groups_at};
ghost use Rattle.ds2_code_answer.specs.CodeAnswer.{code_program};
ghost use Rattle.ds2_unit.specs.Threads.{IsMachineOf, IsReadyThread, IsThreadEnd};

use crate::program_end::{RunEnd, StageNote, ended_alone};
use crate::thread_run::{ThreadRun, open_loads};
use crate::units::run_units;
use ds2_base::{List, OutOfMemory};
use ds2_code_answer::laws::loads_are_scaled;
use ds2_loads::LoadSource;
use ds2_machine::{Machine, UnitRecord};
use ds2_reading::Tables;
use ds2_table::Table;
use ds2_value::Ending;
use std::alloc::Global;
use std::sync::Arc;

/// What a thread program leaves: its rows, which are the loads of the program that reads from it, its lines, and what is known of it.
#[derive(Drop)]
pub struct ThreadEnd {
    pub written: UnitRecord,
    pub ending: Ending,
    pub note: StageNote,
    /// What is known of the thread programs below it that were begun, the innermost first.
    pub below: List<StageNote>,
}

// The same table once more.
fn shared(table: &Arc<Table, Global>) -> Result<Arc<Table, Global>, OutOfMemory>
    ensures { IfOk result (λ one. arc_value one ≡ arc_value table.now) }
{
    Ok(table.clone()?)
}

/// The tables behind so many: those of a thread program stand behind those of the hash objects of the program that reads from it.
pub fn tables_behind(alloc: Global, tables: &Tables, first: usize) -> Result<Tables, OutOfMemory>
    ensures { IfOk result (λ behind. behind ≡ drop first tables.now) }
{
    let count = tables.len();
    let mut behind = Tables::new(alloc, tables.key());
    let mut number = first;
    'tables: while number < count {
        let Some(table) = tables.get(number) else {
            return Err(OutOfMemory);
        };
        let one = shared(table)?;
        behind.push(one)?;
        number += 1;
    }
    Ok(behind)
}

// So many groups behind a normal end; 0 behind a fault.
fn groups_behind(ending: Ending, groups: u64) -> u64
    ensures { result ≡ groups_at (Some ending) groups }
{
    match ending {
        Ending::Normal => groups,
        Ending::Faulted { .. } => 0,
    }
}

/// What a thread program leaves that wrote this and has ended so, with the number of groups that its loads make; it need not be told where
/// it ended by a fault.
pub fn thread_end(written: UnitRecord, end: RunEnd, groups: u64) -> ThreadEnd
    ensures written { result.written ≡ written }
    ensures ending { result.ending ≡ end.ending }
    ensures executed { result.note.executed ≡ end.executed }
    ensures groups { result.note.groups ≡ groups_at (Some result.ending) groups }
    ensures below { result.below ≡ end.stages }
{
    let note = StageNote {
        groups: groups_behind(end.ending, groups),
        executed: end.executed,
    };
    ThreadEnd {
        written,
        ending: end.ending,
        note,
        below: end.stages,
    }
}

/// Runs a thread program that reads tables, from a machine for it: its `init`, `run` on each of its loads, `term`, up to the first fault.
/// What it writes is kept.
pub fn run_thread(
    alloc: Global,
    run: &ThreadRun,
    machine: &mut Machine,
) -> Result<ThreadEnd, OutOfMemory>
    requires thread { IsReadyThread run.now }
    requires machine { IsMachineOf run.now machine.old }
    ensures { IfOk result (λ end. IsThreadEnd (alone_answer (code_program run.now.stage.now [] run.now.tables.now run.now.budget run.now.grain) machine.old.state) end) }
{
    loads_are_scaled();
    let mut written = UnitRecord::new(alloc);
    let mut loads = open_loads(alloc, run)?;
    let groups = loads.groups();
    let end = run_units(
        alloc,
        run.code,
        machine,
        &mut loads,
        run.budget,
        &mut written,
    )?;
    Ok(thread_end(written, ended_alone(alloc, end), groups))
}
