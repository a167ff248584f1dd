//! A thread program and the workers on which its groups run.

use ds2_unit::ThreadRun;

/// A thread program, and on how many workers its groups run.
#[derive(Clone, Copy)]
pub(crate) struct WorkerRun<'a> {
    pub thread: ThreadRun<'a>,
    pub workers: u32,
}
