//! A program on one thread.
ghost use Rattle.std.specs.Prelude.{◌≡◌, ◌≤◌, [], IfOk};
ghost use Rattle.ds2_machine.specs.declared.machine.TheConstants.{MOST_BUDGET};
ghost use Rattle.ds2_code_answer.specs.CodeAnswer.{code_answer};
ghost use Rattle.ds2_code_answer.specs.CodeTables.{AreTablesOfCode};
ghost use Rattle.ds2_loads.specs.Readings.{ReadsNoThread};
ghost use Rattle.ds2_unit.specs.ProgramRun.{IsRunEnd, grain_asked};

use crate::program_end::{RunEnd, ended_alone};
use crate::reading::run_reading;
use ds2_base::{List, OutOfMemory};
use ds2_loads::TableRows;
use ds2_machine::{Machine, UnitSink};
use ds2_reading::Tables;
use ds2_valid_code::ProgramCode;
use std::alloc::Global;

/// Runs a data program on one thread: `init`, `run` on each of its loads, `term`, each with this budget of at most
/// [`ds2_machine::MOST_BUDGET`] steps and calls, up to the first fault. Rows and lines go to the sink as they are written.
///
/// The tables are those that the code names, in the order of their numbers. `grains` has a number for each of its thread programs, the
/// innermost first.
pub fn run_into<S: UnitSink>(
    alloc: Global,
    code: &ProgramCode,
    tables: &Tables,
    budget: u64,
    grains: &List<u32>,
    sink: &mut S,
) -> Result<RunEnd, OutOfMemory>
    requires tables { AreTablesOfCode code.now tables.now }
    requires budget { budget ≤ MOST_BUDGET }
    requires stages { code.now.stages ≡ [] }
    requires reads { ReadsNoThread code.now.program.reading }
    ensures { IfOk result (λ end. IsRunEnd S.has_taken sink.old sink.new (code_answer code.now tables.now budget (grain_asked grains.now)) end) }
{
    let rows = TableRows { tables };
    let mut machine = Machine::open(alloc, code, 0, &[], &rows, 0)?;
    let end = run_reading(alloc, code, tables, &mut machine, budget, sink)?;
    Ok(ended_alone(alloc, end))
}
