//! Hash objects, their iterators, and instances of thread programs, as a unit declares them.

use crate::{Global, MentionedTable, Variable};
use ds2_base::{List, Name};
use ds2_value::{Column, Ty};

/// A key or a data variable of a hash object: a global of the unit with its type.
#[derive(Drop)]
pub struct HashVariable {
    pub global: Global,
    pub ty: Ty,
}

/// The table of which a hash object has the rows before the first unit.
#[derive(Drop)]
pub struct LoadedTable {
    pub table: MentionedTable,
    /// Its columns, in order. Each key and data variable gets the column of its name.
    pub columns: List<Column>,
}

/// A hash object that a unit declares.
#[derive(Drop)]
pub struct DeclaredHash {
    pub name: Name,
    pub key_variables: List<HashVariable>,
    pub data_variables: List<HashVariable>,
    pub loaded: Option<LoadedTable>,
}

/// An iterator that a unit declares, and the hash object of the same unit that it walks.
#[derive(Drop)]
pub struct DeclaredIterator {
    pub name: Name,
    pub hash: Name,
}

/// An instance of a thread program that a program declares, and the thread program's parameters, in order.
#[derive(Drop)]
pub struct ThreadInstance {
    pub name: Name,
    pub parameters: List<Variable>,
}
