//! Variables and outputs of a unit.

use ds2_base::{List, Name};
use ds2_value::Ty;

/// A variable with its type.
#[derive(Drop)]
pub struct Variable {
    pub name: Name,
    pub ty: Ty,
}

/// A column of an output.
#[derive(Drop)]
pub struct OutputColumn {
    /// The name in the output's table, after renaming.
    pub name: Name,
    /// The declared variable or column of the program whose value it gets.
    pub source: Name,
    pub ty: Ty,
}

/// A table that a program makes.
#[derive(Drop)]
pub struct OutputTable {
    pub name: Name,
    /// Whether a file of that name may be written over.
    pub overwrites: bool,
    pub columns: List<OutputColumn>,
}
