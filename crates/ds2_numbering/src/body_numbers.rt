//! The bodies of a program, each with what its code finds fixed.

use crate::frame::Frame;
use crate::slot_table::SlotTable;
use ds2_constants::ConstantTable;
use ds2_meaning::{Program, Variable};
use std::alloc::Global;

/// What the code of a body of a program finds fixed: the program with the parameters that it has as a thread program, its slots and
/// constants, and the body. The tables of the program and those of the body each live as long as they are lent.
#[derive(Clone, Copy)]
pub struct BodyNumbers<'p, 't, 'f> {
    pub alloc: Global,
    pub program: &'p Program,
    pub parameters: &'p [Variable],
    pub slots: &'t SlotTable<'p>,
    pub constants: &'t ConstantTable,
    pub frame: Frame<'p, 'f>,
}
