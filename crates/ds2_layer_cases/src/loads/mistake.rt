//! Why a case has no loads.
use ds2_base::OutOfMemory;
use std::alloc::AllocError;
use thiserror::Error;

/// Why a case has no loads.
#[derive(Clone, Copy, Debug, PartialEq, Eq, Error)]
pub enum Mistake {
    #[error("a line in front of the tables that is none")]
    NoLine,
    #[error("a table that is none")]
    NoTable,
    #[error("the statement does not fit its tables")]
    NoFit,
    #[error("a grain above the number of BY variables")]
    GrainTooFine,
    #[error("no grain, which a merge and BY variables ask for")]
    NoGrain,
    #[error("want of memory")]
    OutOfMemory,
}

impl From<OutOfMemory> for Mistake {
    fn from(_: OutOfMemory) -> Self {
        Mistake::OutOfMemory
    }
}

impl From<AllocError> for Mistake {
    fn from(_: AllocError) -> Self {
        Mistake::OutOfMemory
    }
}
