//! A thread program whose groups run on many workers.
ghost use Rattle.std.specs.Prelude.{◌≡◌, ◌≤◌, [], Some, IfOk};
ghost use Rattle.ds2_table.specs.OneThread.{alone_answer, groups_at, run_each, then_unit};
ghost use Rattle.ds2_code.specs.CodeUnit.{code_init};
ghost use Rattle.ds2_code_answer.specs.CodeAnswer.{code_program, code_units};
ghost use Rattle.ds2_code_answer.specs.CodeLoads.{code_group_count, code_loads};
ghost use Rattle.ds2_code_answer.specs.StageTold.{told_by_answer};
ghost use Rattle.ds2_unit.specs.Threads.{IsMachineOf, IsReadyThread, IsThreadEnd, thread_answer};
ghost use Rattle.ds2_group_job.specs.KeptAnswers.{HasKeptTold};
ghost use Rattle.ds2_group_job.specs.WhateverRan.{IsIndependentFrom, IsIndependentThread};
ghost use Rattle.ds2_group_job.specs.WorkerRuns.{IsReadyOnWorkers};

use crate::on_workers::{GroupedEnd, run_rest};
use crate::worker_run::WorkerRun;
use ds2_base::OutOfMemory;
use ds2_machine::{Machine, UnitRecord};
use ds2_outside::Gate;
use ds2_unit::{ThreadEnd, ThreadRun, UnitsEnd, ended_alone, open_thread, sum_of, thread_end};
use ds2_value::Value;
use std::alloc::Global;
use std::sync::Wait;
use std::thread::Threads;

// Runs the units of a thread program, its groups on workers, from a machine for it.
fn run_whole<G: Gate + Sync, W: Threads + Wait + Sync>(
    rt: &W,
    alloc: Global,
    run: &WorkerRun,
    machine: &mut Machine,
    gate: &G,
    written: &mut UnitRecord,
) -> Result<GroupedEnd, OutOfMemory>
    requires run { IsReadyOnWorkers run.now }
    requires machine { IsMachineOf run.now.thread machine.old }
    requires independent { IsIndependentFrom run.now.thread.stage.now run.now.thread.tables.now run.now.thread.budget run.now.thread.grain machine.old.state }
    ensures ran { IfOk result (λ ran. HasKeptTold written.old written.new (told_by_answer
        (then_unit (code_init run.now.thread.stage.now run.now.thread.budget machine.old.state)
        (run_each (code_units run.now.thread.stage.now run.now.thread.budget) (code_loads run.now.thread.stage.now run.now.thread.tables.now)))) ran.end) }
    ensures groups { IfOk result (λ ran. groups_at (Some ran.end.ending) ran.groups
        ≡ groups_at (Some ran.end.ending) (code_group_count run.now.thread.grain run.now.thread.stage.now run.now.thread.tables.now)) }
{
    let code = run.thread.code;
    let first = machine.call_init(alloc, code, run.thread.budget, written)?;
    let executed = u128::from(first.executed);
    if machine.spent() {
        return Ok(GroupedEnd {
            end: UnitsEnd {
                ending: first.ending,
                executed,
            },
            groups: 0,
        });
    }
    let rest = run_rest(rt, alloc, run, machine, gate, written)?;
    let all = sum_of(executed, rest.end.executed)?;
    Ok(GroupedEnd {
        end: UnitsEnd {
            ending: rest.end.ending,
            executed: all,
        },
        groups: rest.groups,
    })
}

// Runs a thread program whole, its groups on workers, from a machine for it.
fn run_begun<G: Gate + Sync, W: Threads + Wait + Sync>(
    rt: &W,
    alloc: Global,
    run: &WorkerRun,
    machine: &mut Machine,
    gate: &G,
) -> Result<ThreadEnd, OutOfMemory>
    requires run { IsReadyOnWorkers run.now }
    requires machine { IsMachineOf run.now.thread machine.old }
    requires independent { IsIndependentFrom run.now.thread.stage.now run.now.thread.tables.now run.now.thread.budget run.now.thread.grain machine.old.state }
    ensures { IfOk result (λ end. IsThreadEnd (alone_answer
        (code_program run.now.thread.stage.now [] run.now.thread.tables.now run.now.thread.budget run.now.thread.grain) machine.old.state) end) }
{
    let mut written = UnitRecord::new(alloc);
    let ran = run_whole(rt, alloc, run, machine, gate, &mut written)?;
    Ok(thread_end(written, ended_alone(alloc, ran.end), ran.groups))
}

/// Runs a thread program whose groups give the same whatever groups ran before them: its `init` on the caller's machine, its groups on 1
/// to 64 workers, each from a copy of that machine, and its `term` on the caller's. However many workers there are, and in whatever order
/// they draw groups and come to an end, it leaves the one-thread answer of the thread program.
///
/// A decimal of another scale than its parameter's, which valid code does not set, would be refused as want of memory.
pub fn run_thread_on<G: Gate + Sync, W: Threads + Wait + Sync>(
    rt: &W,
    alloc: Global,
    thread: &ThreadRun,
    given: &[Value],
    workers: u32,
    gate: &G,
) -> Result<ThreadEnd, OutOfMemory>
    requires thread { IsReadyThread thread.now }
    requires workers { (1 ≤ workers) × (workers ≤ 64) }
    requires independent { IsIndependentThread thread.now.stage.now thread.now.tables.now thread.now.budget thread.now.grain }
    ensures { IfOk result (λ end. IsThreadEnd (thread_answer thread.now.stage.now thread.now.tables.now thread.now.budget thread.now.grain given.now) end) }
{
    let run = WorkerRun {
        thread: *thread,
        workers,
    };
    let mut machine = open_thread(alloc, thread, given)?;
    run_begun(rt, alloc, &run, &mut machine, gate)
}
