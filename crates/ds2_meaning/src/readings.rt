//! Reading statements.

use ds2_base::{List, Name};
use ds2_value::Column;

/// The table that a mention in a source means. Two mentions of one name may mean two tables.
#[derive(Drop)]
pub struct MentionedTable {
    pub name: Name,
    /// The number of the data program of the source that makes it, from 1; 0 for a table of the store.
    pub maker: u32,
}

/// A table of a reading statement.
#[derive(Drop)]
pub struct Input {
    pub table: MentionedTable,
    /// The flag that `in=` names, which is 1 where the table has rows for a load.
    pub present: Option<Name>,
    /// The table's columns, in order; each sets the variable of its name.
    pub columns: List<Column>,
}

/// A BY variable.
#[derive(Drop)]
pub struct ByVariable {
    pub name: Name,
    pub is_descending: bool,
}

/// What the loads of a program are made of.
#[derive(Drop)]
pub enum Reading {
    /// No `run`: no load.
    Nothing,
    /// A `run` without a reading statement: one load that sets nothing.
    Once,
    /// `set` with its tables and BY variables.
    Set {
        inputs: List<Input>,
        bys: List<ByVariable>,
    },
    /// `merge` with its tables and BY variables.
    Merge {
        inputs: List<Input>,
        bys: List<ByVariable>,
        retains: bool,
    },
    /// `set from` an instance of a thread program, whose rows have these columns.
    From {
        instance: Name,
        workers: u32,
        columns: List<Column>,
    },
}
