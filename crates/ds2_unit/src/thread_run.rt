//! What stays the same while a thread program runs, and what it begins with.
ghost use Rattle.std.specs.Prelude.{◌≡◌, [], IfOk};
ghost use Rattle.ds2_code_answer.specs.CodeAnswer.{code_opening};
ghost use Rattle.ds2_code_answer.specs.CodeLoads.{code_loads};
ghost use Rattle.ds2_loads.specs.GroupedLoads.{loads_in_groups};
ghost use Rattle.ds2_loads.specs.ProgramSources.{program_groups, program_left};
ghost use Rattle.ds2_unit.specs.Threads.{IsMachineOf, IsReadyThread};

use crate::place::{ProgramPlace, open_machine};
use ds2_base::OutOfMemory;
use ds2_code::ProgramParts;
use ds2_loads::ProgramLoads;
use ds2_machine::Machine;
use ds2_reading::{Reading, Tables};
use ds2_valid_code::ProgramCode;
use ds2_value::Value;
use std::alloc::Global;

/// What stays the same while a thread program that reads tables runs.
#[derive(Clone, Copy)]
pub struct ThreadRun<'a> {
    pub code: &'a ProgramCode,
    /// The number of the thread program: k for the k-th below the data program.
    pub number: usize,
    pub stage: &'a ProgramParts,
    /// Its reading statement, over the numbers of its tables.
    pub reading: &'a Reading,
    /// The tables that it reads, in the order of their numbers.
    pub tables: &'a Tables,
    /// The budget of each unit, at most [`ds2_machine::MOST_BUDGET`] steps and calls.
    pub budget: u64,
    /// The grain at which its loads are put into groups.
    pub grain: u32,
}

/// The machine of a thread program before its `init`, with these values of its parameters.
///
/// A decimal of another scale than its parameter's, which valid code does not set, would be refused as want of memory.
pub fn open_thread(alloc: Global, run: &ThreadRun, given: &[Value]) -> Result<Machine, OutOfMemory>
    requires thread { IsReadyThread run.now }
    ensures machine { IfOk result (λ machine. IsMachineOf run.now machine) }
    ensures begun { IfOk result (λ machine. machine.state ≡ code_opening run.now.stage.now [] run.now.tables.now given.now) }
{
    let place = ProgramPlace {
        code: run.code,
        number: run.number,
        program: run.stage,
        tables: run.tables,
    };
    open_machine(alloc, &place, given, 0)
}

/// The loads of a thread program over its tables, before the first one, in groups at its grain.
pub fn open_loads<'a>(alloc: Global, run: &ThreadRun<'a>) -> Result<ProgramLoads<'a>, OutOfMemory>
    requires thread { IsReadyThread run.now }
    ensures left { IfOk result (λ loads. program_left loads ≡ code_loads run.now.stage.now run.now.tables.now) }
    ensures groups { IfOk result (λ loads. program_groups loads ≡ loads_in_groups run.now.grain run.now.stage.now run.now.tables.now) }
{
    ProgramLoads::open(alloc, run.stage, run.reading, run.tables, run.grain)
}
