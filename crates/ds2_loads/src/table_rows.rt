//! The tables that hash objects are loaded from.

use ds2_reading::{HashKey, Tables};
use ds2_slots::HashTables;
use ds2_value::Cell;

/// The values of tables: those of its hash objects are the first of a program's tables.
#[derive(Drop)]
pub struct TableRows<'a> {
    pub tables: &'a Tables,
}

impl HashTables for TableRows<'_> {
    ghost use Rattle.ds2_code_answer.specs.CodeTables.{rows_of_each};

    ghost tables = { λ t. rows_of_each t.tables.now };

    #[tactic(auto, using(crate::proofs::NumberedTables::numbered))]
    fn row_count(&self, table: usize) -> Option<usize> {
        match self.tables.get(table) {
            None => None,
            Some(found) => Some(found.len()),
        }
    }

    #[tactic(auto, using(crate::proofs::NumberedTables::numbered_rows))]
    fn cell(&self, table: usize, row: usize, column: usize) -> Cell<'_> {
        match self.tables.get(table) {
            None => Cell::Null,
            Some(found) => found.cell(row, column),
        }
    }

    fn key(&self) -> HashKey {
        self.tables.key()
    }
}
