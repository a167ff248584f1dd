//! The groups of a thread program on many workers.
ghost use Rattle.std.specs.Prelude.{◌≡◌, ◌≤◌, IfOk};
ghost use Rattle.ds2_table.specs.OneThread.{run_each};
ghost use Rattle.ds2_code_answer.specs.CodeAnswer.{code_units};
ghost use Rattle.ds2_code_answer.specs.CodeLoads.{code_group_count, code_loads};
ghost use Rattle.ds2_code_answer.specs.StageTold.{told_by_answer};
ghost use Rattle.ds2_loads.specs.GroupedLoads.{loads_in_groups, loads_of_groups};
ghost use Rattle.ds2_unit.specs.Threads.{IsMachineOf};
ghost use Rattle.ds2_group_job.specs.KeptAnswers.{HasKeptTold};
ghost use Rattle.ds2_group_job.specs.GroupRuns.{end_of_group, run_of_group};
ghost use Rattle.ds2_group_job.specs.StageJobs.{HasKeptGroups, answer_of_all};
ghost use Rattle.ds2_group_job.specs.WhateverRan.{GivesWhateverRan};
ghost use Rattle.ds2_group_job.specs.WorkerRuns.{IsReadyOnWorkers};

use crate::gathering::{is_fault, keep_all};
use crate::job::GroupJob;
use crate::worker_run::WorkerRun;
use ds2_base::OutOfMemory;
use ds2_code::laws::valid_code_ends;
use ds2_code_answer::laws::loads_are_scaled;
use ds2_loads::LoadSource;
use ds2_loads::laws::groups_are_all_loads;
use ds2_machine::{Machine, UnitRecord};
use ds2_outside::Gate;
use ds2_stage::run_stage;
use ds2_unit::{UnitsEnd, open_loads, sum_of};
use std::alloc::Global;
use std::sync::Wait;
use std::thread::Threads;

/// How the units of a thread program have ended, and how many groups its loads make; none need be counted where it ended by a fault.
#[derive(Clone, Copy)]
pub(crate) struct GroupedEnd {
    pub(crate) end: UnitsEnd,
    pub(crate) groups: u64,
}

// Runs the groups of a job on so many workers, and keeps what they gave in order of group.
fn run_groups<'m, 'a, G: Gate + Sync, W: Threads + Wait + Sync>(
    rt: &W,
    alloc: Global,
    job: &GroupJob<'m, 'a>,
    workers: u32,
    gate: &G,
    written: &mut UnitRecord,
) -> Result<UnitsEnd, OutOfMemory>
    requires { (1 ≤ workers) × (workers ≤ 64) }
    ensures { IfOk result (λ end. HasKeptGroups written.old written.new (answer_of_all job.now) end) }
{
    valid_code_ends();
    job.is_ready();
    let end = run_stage(rt, alloc, job, workers, gate)?;
    keep_all(written, end.ends)
}

// Runs the loads of a thread program in their groups on workers, each from a copy of this machine.
fn run_loads_on<G: Gate + Sync, W: Threads + Wait + Sync>(
    rt: &W,
    alloc: Global,
    run: &WorkerRun,
    machine: &Machine,
    gate: &G,
    written: &mut UnitRecord,
) -> Result<GroupedEnd, OutOfMemory>
    requires run { IsReadyOnWorkers run.now }
    requires machine { IsMachineOf run.now.thread machine.now }
    requires independent { GivesWhateverRan run.now.thread.stage.now run.now.thread.budget
        (loads_in_groups run.now.thread.grain run.now.thread.stage.now run.now.thread.tables.now) machine.now.state }
    ensures kept { IfOk result (λ ran. HasKeptGroups written.old written.new (end_of_group (run_of_group run.now.thread.stage.now run.now.thread.budget
        (loads_of_groups (loads_in_groups run.now.thread.grain run.now.thread.stage.now run.now.thread.tables.now)) machine.now.state)) ran.end) }
    ensures groups { IfOk result (λ ran. ran.groups ≡ code_group_count run.now.thread.grain run.now.thread.stage.now run.now.thread.tables.now) }
{
    loads_are_scaled();
    groups_are_all_loads();
    let code = run.thread.code;
    let loads = open_loads(alloc, &run.thread)?;
    let groups = loads.groups();
    let job = GroupJob::open(code, loads, machine, run.thread.budget);
    let end = run_groups(rt, alloc, &job, run.workers, gate, written)?;
    Ok(GroupedEnd { end, groups })
}

/// What comes behind `init` of a thread program: its loads in their groups on workers, and `term` on the machine that they began with,
/// where none of them faults.
pub(crate) fn run_rest<G: Gate + Sync, W: Threads + Wait + Sync>(
    rt: &W,
    alloc: Global,
    run: &WorkerRun,
    machine: &mut Machine,
    gate: &G,
    written: &mut UnitRecord,
) -> Result<GroupedEnd, OutOfMemory>
    requires run { IsReadyOnWorkers run.now }
    requires machine { IsMachineOf run.now.thread machine.old }
    requires independent { GivesWhateverRan run.now.thread.stage.now run.now.thread.budget
        (loads_in_groups run.now.thread.grain run.now.thread.stage.now run.now.thread.tables.now) machine.old.state }
    ensures ran { IfOk result (λ ran. HasKeptTold written.old written.new (told_by_answer
        (run_each (code_units run.now.thread.stage.now run.now.thread.budget) (code_loads run.now.thread.stage.now run.now.thread.tables.now) machine.old.state)) ran.end) }
    ensures groups { IfOk result (λ ran. ran.groups ≡ code_group_count run.now.thread.grain run.now.thread.stage.now run.now.thread.tables.now) }
{
    valid_code_ends();
    groups_are_all_loads();
    let code = run.thread.code;
    let _valid = code.parts();
    let ran = run_loads_on(rt, alloc, run, &*machine, gate, written)?;
    if is_fault(ran.end.ending) {
        return Ok(ran);
    }
    let last = machine.call_term(alloc, code, run.thread.budget, written)?;
    let executed = sum_of(ran.end.executed, u128::from(last.executed))?;
    Ok(GroupedEnd {
        end: UnitsEnd {
            ending: last.ending,
            executed,
        },
        groups: ran.groups,
    })
}
