//! The tables that hash objects are loaded from.
ghost use Rattle.std.specs.Prelude.{◌≡◌, [], List as Items, length, get_or, slice_get};
ghost use Rattle.std.specs.Option.{option_map};
ghost use Rattle.ds2_value.specs.Cell.{lent_value};
ghost use Rattle.ds2_value.specs.Row.{Row as RowOf};
ghost use Rattle.ds2_value.specs.Value.{or_null};
ghost use Rattle.ds2_slots.specs.LoadedHashes.{row_in_table};

use ds2_base::List;
use ds2_hash::HashKey;
use ds2_value::{Cell, Row, cell_in};

/// The tables that a program's hash objects are loaded from, one for each object that names a table, in their order. Whoever has the
/// tables of a store lends their values, with no rows made of them.
pub trait HashTables {
    /// The rows of each table, in order.
    ghost tables: { Self → Items (Items RowOf) };

    /// How many rows the table of a number has; None exactly where there is none.
    fn row_count(&self, table: usize) -> Option<usize>
        ensures { result ≡ option_map (λ (rows : Items RowOf). length rows) (slice_get (tables self.now) table) };

    /// The value in a row and a column of the table of a number; null where there is none.
    fn cell(&self, table: usize, row: usize, column: usize) -> Cell<'_>
        ensures { lent_value result ≡ or_null (slice_get (row_in_table (tables self.now) table row) column) };

    /// The key by which the objects hash.
    fn key(&self) -> HashKey;
}

// The value in a row and a column; null where there is none.
#[tactic(auto, using(crate::proofs::LoadedSteps::cells))]
fn cell_of(rows: &[Row], row: usize, column: usize) -> Cell<'_>
    ensures { lent_value result ≡ or_null (slice_get (get_or rows.now row []) column) }
{
    match rows.get(row) {
        None => Cell::Null,
        Some(values) => cell_in(values.as_slice(), column),
    }
}

impl HashTables for List<List<Row>> {
    ghost tables = { λ list. list };

    fn row_count(&self, table: usize) -> Option<usize> {
        match self.get(table) {
            None => None,
            Some(rows) => Some(rows.len()),
        }
    }

    #[tactic(auto, using(crate::proofs::LoadedSteps::cells))]
    fn cell(&self, table: usize, row: usize, column: usize) -> Cell<'_> {
        match self.get(table) {
            None => Cell::Null,
            Some(rows) => cell_of(rows.as_slice(), row, column),
        }
    }

    fn key(&self) -> HashKey {
        HashKey::new()
    }
}
