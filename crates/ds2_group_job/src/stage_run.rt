//! A thread program that can be run, and the two ways to run it.
ghost use Rattle.std.specs.Prelude.{◌≡◌, IfOk};
ghost use Rattle.ds2_unit.specs.Threads.{IsThreadEnd};
ghost use Rattle.ds2_group_job.specs.StageRuns.{IsStageReady, answer_of_thread};

use crate::thread_on::run_thread_on;
use ds2_base::OutOfMemory;
use ds2_outside::Gate;
use ds2_unit::{ThreadEnd, ThreadRun, open_thread, run_thread};
use ds2_value::Value;
use std::alloc::Global;
use std::marker::Model;
use std::sync::Wait;
use std::thread::Threads;

/// A thread program that can be run; where workers are given, its groups may run on so many.
#[derive(Drop)]
pub struct StageRun<'a> {
    pub(crate) thread: ThreadRun<'a>,
    pub(crate) workers: Option<u32>,
}

impl<'a> Model for StageRun<'a> {
    ghost use Rattle.ds2_group_job.specs.StageRuns.{RunnableStage, IsStageReady};

    ghost Value = { RunnableStage };

    ghost view = { λ s. record { thread = s.thread; workers = s.workers } };

    ghost invariant = { λ s. IsStageReady (record { thread = s.thread; workers = s.workers }) };
}

impl<'a> StageRun<'a> {
    /// A thread program that can be run.
    pub fn new(thread: ThreadRun<'a>, workers: Option<u32>) -> StageRun<'a>
        requires { IsStageReady (record { thread = thread; workers = workers }) }
        ensures { result ≡ record { thread = thread.entry; workers = workers } }
    {
        StageRun { thread, workers }
    }

    /// Runs it whole on the caller's thread, with these values of its parameters: its `init`, `run` on each of its loads, `term`, up to the
    /// first fault. What it writes is kept.
    ///
    /// A decimal of another scale than its parameter's, which valid code does not set, would be refused as want of memory.
    pub fn run(&self, alloc: Global, given: &[Value]) -> Result<ThreadEnd, OutOfMemory>
        ensures { IfOk result (λ end. IsThreadEnd (answer_of_thread self.now given.now) end) }
    {
        let mut machine = open_thread(alloc, &self.thread, given)?;
        run_thread(alloc, &self.thread, &mut machine)
    }

    /// Runs it whole with the same answer, its groups on workers where some are given. It returns if the threads that it waits for do.
    pub fn run_on<G: Gate + Sync, W: Threads + Wait + Sync>(
        &self,
        rt: &W,
        alloc: Global,
        given: &[Value],
        gate: &G,
    ) -> Result<ThreadEnd, OutOfMemory>
        ensures { IfOk result (λ end. IsThreadEnd (answer_of_thread self.now given.now) end) }
    {
        match self.workers {
            None => self.run(alloc, given),
            Some(workers) => run_thread_on(rt, alloc, &self.thread, given, workers, gate),
        }
    }
}
