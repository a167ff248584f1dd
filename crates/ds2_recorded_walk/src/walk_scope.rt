//! What a walk finds around a statement.

use crate::record::CallEffect;
use ds2_deeds::{BodyScope, Numbers};
use ds2_meaning::ByVariable;
use std::alloc::Global;

/// What a walk finds around a statement: the locations and methods of the program by their numbers, the effects of calls of the methods
/// in the same order, whose code it is and what it names, and the BY variables whose `first` flags are known to be 1.
#[derive(Clone, Copy)]
pub struct RecordScope<'p> {
    pub alloc: Global,
    pub numbers: Numbers<'p>,
    pub effects: &'p [CallEffect],
    pub body: BodyScope<'p>,
    pub known: &'p [ByVariable],
}
