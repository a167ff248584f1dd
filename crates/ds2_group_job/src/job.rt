//! The groups of a thread program as a job.
ghost use Rattle.std.specs.Prelude.{◌≡◌, ◌≤◌, false, IfOk};
ghost use Rattle.ds2_machine.specs.AtRest.{staged_program};
ghost use Rattle.ds2_machine.specs.declared.machine.TheConstants.{MOST_BUDGET};
ghost use Rattle.ds2_code.specs.Scales.{IsDataScaled};
ghost use Rattle.ds2_loads.specs.ProgramSources.{program_groups};
ghost use Rattle.ds2_unit.specs.Threads.{rows_kept};
ghost use Rattle.ds2_group_job.specs.WhateverRan.{GivesWhateverRan};
ghost use Rattle.ds2_group_job.specs.StageJobs.{AreGroupsScaled, IsReadyJob, StageJob};

use crate::group_worker::GroupWorker;
use ds2_bags::{Answers, GroupEnd, Job};
use ds2_base::{List, OutOfMemory};
use ds2_loads::{LoadSource, ProgramLoads};
use ds2_machine::{Machine, OutRow, UnitRecord};
use ds2_unit::run_loads;
use ds2_valid_code::ProgramCode;
use ds2_value::Row;
use std::alloc::Global;
use std::marker::Model;

/// The groups of a thread program: its code, the machine on which its `init` was run to a normal end, and its loads in groups. Each group
/// gives what it gives from the data of that machine, whatever groups a worker ran before.
#[derive(Drop)]
pub struct GroupJob<'m, 'a> {
    code: &'m ProgramCode,
    start: &'m Machine,
    loads: ProgramLoads<'a>,
    budget: u64,
}

impl<'m, 'a> Model for GroupJob<'m, 'a> {
    ghost use Rattle.ds2_loads.specs.ProgramSources.{program_groups};
    ghost use Rattle.ds2_group_job.specs.StageJobs.{StageJob, IsReadyJob};

    ghost Value = { StageJob };

    ghost view = { λ j. record {
      code = j.code.now;
      number = j.start.now.program;
      budget = j.budget;
      groups = program_groups j.loads;
      first = j.start.now.state;
    } };

    ghost invariant = { λ j. IsReadyJob (record {
      code = j.code.now;
      number = j.start.now.program;
      budget = j.budget;
      groups = program_groups j.loads;
      first = j.start.now.state;
    }) j.start.now.spent };
}

impl<'m, 'a> GroupJob<'m, 'a> {
    /// The job of a thread program on whose machine `init` has come to a normal end. Behind whatever groups of it, each group has to give
    /// what it gives from the data of that machine.
    pub fn open(
        code: &'m ProgramCode,
        loads: ProgramLoads<'a>,
        start: &'m Machine,
        budget: u64,
    ) -> GroupJob<'m, 'a>
        requires budget { budget ≤ MOST_BUDGET }
        requires ready { start.now.spent ≡ false }
        requires scaled { IsDataScaled (staged_program code.now start.now.program) start.now.state }
        requires loads { AreGroupsScaled (staged_program code.now start.now.program).slots (program_groups loads) }
        requires independent { GivesWhateverRan (staged_program code.now start.now.program) budget (program_groups loads) start.now.state }
        ensures { result ≡ record {
          code = code.now;
          number = start.now.program;
          budget = budget;
          groups = program_groups loads.entry;
          first = start.now.state;
        } }
    {
        let _valid = code.parts();
        GroupJob {
            code,
            start,
            loads,
            budget,
        }
    }

    // What every job is.
    pub(crate) fn is_ready(&self)
        ensures { IsReadyJob self.now false }
    {
        let _start = &self.start;
    }
}

impl Answers for GroupJob<'_, '_> {
    ghost use Rattle.std.specs.Prelude.{length};
    ghost use Rattle.ds2_group_job.specs.StageJobs.{answer_of_group};

    ghost count = { λ j. length j.groups };

    ghost answer = { λ j g. answer_of_group j g };

    fn groups(&self) -> u64 {
        self.loads.groups()
    }
}

impl<'m, 'a> Job for GroupJob<'m, 'a> {
    ghost use Rattle.ds2_group_job.specs.GroupWorkers.{IsWorkerOf};

    type Worker = GroupWorker<'a>;

    ghost fits = { λ j w. IsWorkerOf j w };

    fn start(&self, alloc: Global) -> Result<GroupWorker<'a>, OutOfMemory> {
        let machine = self.start.copy(alloc)?;
        let loads = self.loads.copy(alloc)?;
        Ok(GroupWorker { machine, loads })
    }

    fn run(
        &self,
        alloc: Global,
        worker: &mut GroupWorker<'a>,
        g: u64,
    ) -> Result<GroupEnd, OutOfMemory> {
        worker.loads.enter(g);
        let mut written = UnitRecord::new(alloc);
        let end = run_loads(
            alloc,
            self.code,
            &mut worker.machine,
            &mut worker.loads,
            self.budget,
            &mut written,
        )?;
        let UnitRecord { rows, lines } = written;
        let rows = rows_of(alloc, rows)?;
        Ok(GroupEnd {
            rows,
            lines,
            ending: end.ending,
            executed: end.executed,
        })
    }
}

// The rows that were written, without the numbers of their outputs. No row is copied.
fn rows_of(alloc: Global, written: List<OutRow>) -> Result<List<Row>, OutOfMemory>
    ensures { IfOk result (λ rows. rows ≡ rows_kept written) }
{
    let mut rows = List::new(alloc);
    'written: for out in written.into_vec() {
        rows.push(row_of(out))?;
    }
    Ok(rows)
}

// The row alone.
fn row_of(written: OutRow) -> Row
    ensures { result ≡ written.row }
{
    let OutRow { output: _, row } = written;
    row
}
