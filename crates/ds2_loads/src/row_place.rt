//! The place of a row in the tables of a statement.

/// A row of a statement's tables: the number of its table in the statement, and its own number there.
#[derive(Clone, Copy, PartialEq, Eq)]
pub(crate) struct RowPlace {
    pub table: usize,
    pub row: usize,
}
