//! What a worker runs groups on.

use ds2_loads::ProgramLoads;
use ds2_machine::Machine;

/// What a worker runs groups on: a machine and a cursor of its own.
#[derive(Drop)]
pub struct GroupWorker<'a> {
    pub(crate) machine: Machine,
    pub(crate) loads: ProgramLoads<'a>,
}
