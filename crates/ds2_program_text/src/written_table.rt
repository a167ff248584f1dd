//! A table whose rows are kept as text alone.

use ds2_base::{Bytes, List, Name};
use ds2_value::Column;

/// A table that a program makes, as text.
#[derive(Drop)]
pub struct WrittenTable {
    pub name: Name,
    /// Whether a file of that name may be written over.
    pub overwrites: bool,
    pub columns: List<Column>,
    /// The bytes of its CSV file: the header, and a record for each row.
    pub text: Bytes,
    /// How many rows it has.
    pub rows: u64,
}
