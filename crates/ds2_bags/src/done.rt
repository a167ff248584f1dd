//! A group that was run.
ghost use Rattle.std.specs.Prelude.{◌≡◌, ◌<◌, false, length, IfOk};
ghost use Rattle.ds2_bags.specs.Endings.{ended_by_fault};

use crate::group_end::GroupEnd;
use crate::job::{Answers, Job};
use ds2_base::OutOfMemory;
use std::alloc::Global;

/// A group of a job that was run, with the job's answer for it.
#[derive(Drop)]
pub struct Done<'j, J: Answers> {
    job: &'j J,
    group: u64,
    end: GroupEnd,
    ghost is: { end ≡ J.answer job.now group },
    ghost inside: { group < J.count job.now },
}

/// Runs a group.
pub fn run_group<'j, J: Job>(
    alloc: Global,
    job: &'j J,
    worker: &mut J::Worker,
    g: u64,
) -> Result<Done<'j, J>, OutOfMemory>
    requires { (g < J.count job.now) × J.fits job.now worker.old }
    ensures done { IfOk result (λ d. (d.job.now ≡ job.now) × (d.group ≡ g) × (d.end ≡ J.answer job.now g)) }
    ensures fits { IfOk result (λ d. ended_by_fault d.end.ending ≡ false → J.fits job.now worker.new) }
{
    let end = job.run(alloc, worker, g)?;
    Ok(Done { job, group: g, end })
}

impl<'j, J: Answers> Done<'j, J> {
    /// The number of the group.
    pub fn group(&self) -> u64
        ensures { result ≡ self.now.group }
    {
        self.group
    }

    /// How many rows it wrote.
    pub fn rows(&self) -> u64
        ensures { result ≡ length self.now.end.rows }
    {
        self.end.rows.len() as u64
    }

    /// Whether it ended by a fault.
    pub fn is_fault(&self) -> bool
        ensures { result ≡ ended_by_fault self.now.end.ending }
    {
        self.end.is_fault()
    }

    /// The answer, which is the job's own.
    pub fn into_end(self) -> GroupEnd
        ensures { result ≡ J.answer self.entry.job.now self.entry.group }
    {
        let Done {
            job: _,
            group: _,
            end,
        } = self;
        end
    }
}
