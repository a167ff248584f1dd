//! A program whose code is written.

use ds2_constants::ConstantTable;
use ds2_meaning::{Program, Variable};
use ds2_numbering::SlotTable;
use std::alloc::Global;

/// A program whose code is written: with the parameters that it has as a thread program, its slots and its constants.
#[derive(Clone, Copy)]
pub struct Unit<'p, 't> {
    pub alloc: Global,
    pub program: &'p Program,
    pub parameters: &'p [Variable],
    pub slots: &'t SlotTable<'p>,
    pub constants: &'t ConstantTable,
}
