//! What a call answers in place of a value.
ghost use Rattle.ds2_base.specs.Says.{Says};

use std::alloc::{AllocError, AllocFailed};

/// There was no memory. What the call was given by reference is as it was, unless the call says otherwise.
#[derive(Clone, Copy, PartialEq, Eq)]
pub struct OutOfMemory;

/// A call's own refusal, or want of memory.
#[derive(Drop, PartialEq, Eq)]
pub enum Stop<R> {
    /// The call refuses what it was given.
    Refused(R),
    /// There was no memory.
    OutOfMemory,
}

/// The same answer, where there is no want of memory.
pub fn refusing<T, R>(answer: Result<T, R>) -> Result<T, Stop<R>>
    ensures { Says result answer }
{
    match answer {
        Ok(value) => Ok(value),
        Err(refusal) => Err(Stop::Refused(refusal)),
    }
}

impl From<AllocError> for OutOfMemory {
    fn from(_: AllocError) -> Self {
        OutOfMemory
    }
}

impl<T: Drop> From<AllocFailed<T>> for OutOfMemory {
    fn from(_: AllocFailed<T>) -> Self {
        OutOfMemory
    }
}

impl<R> From<OutOfMemory> for Stop<R> {
    ghost use Rattle.ds2_base.specs.Stop.{IsWantOfMemory};

    ghost from_gives = { λ _ e. IsWantOfMemory e };

    fn from(_: OutOfMemory) -> Self {
        Stop::OutOfMemory
    }
}

impl<R> From<AllocError> for Stop<R> {
    ghost use Rattle.ds2_base.specs.Stop.{IsWantOfMemory};

    ghost from_gives = { λ _ e. IsWantOfMemory e };

    fn from(_: AllocError) -> Self {
        Stop::OutOfMemory
    }
}

impl<R, T: Drop> From<AllocFailed<T>> for Stop<R> {
    ghost use Rattle.ds2_base.specs.Stop.{IsWantOfMemory};

    ghost from_gives = { λ _ e. IsWantOfMemory e };

    fn from(_: AllocFailed<T>) -> Self {
        Stop::OutOfMemory
    }
}
