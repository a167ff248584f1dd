//! A row of one of a statement's tables.

/// A row, by the number of its table in the statement and its own number there, both from 0.
#[derive(Clone, Copy, PartialEq, Eq)]
pub struct TableRow {
    pub table: usize,
    pub row: usize,
}
