//! A program whose thread program is judged.

use ds2_base::List;
use ds2_deeds::{NumberedDeed, Numbers};
use ds2_meaning::Program;
use ds2_recorded_walk::CallEffect;
use std::alloc::Global;

/// A program that is judged: its locations and methods by their numbers, and in the same order the deeds of each method and the effect of
/// each that is on a cycle of calls. `order` are the numbers of methods, those that are called before those that call them; nothing rests on it.
#[derive(Clone, Copy)]
pub struct JudgedBodies<'p> {
    pub alloc: Global,
    pub program: &'p Program,
    pub numbers: Numbers<'p>,
    pub deeds: &'p [List<NumberedDeed>],
    pub cycles: &'p [Option<CallEffect>],
    pub order: &'p [usize],
}
