//! Layouts: a number for each variable and flag of a program.

use ds2_base::{List, Name};
use ds2_meaning::Global;
use ds2_value::Ty;

/// What a slot is for.
#[derive(Clone, Copy, PartialEq, Eq)]
pub enum SlotRole {
    /// A variable that each `run` sets to null.
    Cleared,
    /// A variable that keeps its value from one `run` to the next.
    Kept,
    /// A column of the reading statement.
    Column,
    /// A flag of the reading statement.
    Flag,
}

/// A slot: where a program keeps the value of a variable or a flag.
#[derive(Drop)]
pub struct LayoutSlot {
    /// The instance whose variable it is; None for a global of the program itself.
    pub instance: Option<Name>,
    pub global: Global,
    pub ty: Ty,
    pub role: SlotRole,
}

/// The slots of a program, numbered from 0: declared variables, columns, parameters, `in=` flags, the flags of BY variables, and
/// the variables of instances.
#[derive(Drop)]
pub struct Layout {
    pub slots: List<LayoutSlot>,
    /// For each output of the program the slots of its columns.
    pub projections: List<List<u32>>,
}
