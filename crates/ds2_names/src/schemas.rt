//! The tables of the store.

use ds2_base::{List, Name};
use ds2_value::Schema;

/// A table of the store, and its columns.
#[derive(Drop)]
pub struct NamedSchema {
    pub name: Name,
    pub schema: Schema,
}

/// The tables of the store that a source may read.
#[derive(Drop)]
pub struct Schemas {
    pub tables: List<NamedSchema>,
}
