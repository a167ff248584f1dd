//! A table with the columns of the BY variables.
ghost use Rattle.std.specs.Prelude.{◌≡◌, [], IsTrue, IfOk, length, get_or};
ghost use Rattle.ds2_value.specs.Cell.{lent_value};
ghost use Rattle.ds2_reading.specs.ReadingKeys.{keys_of_table};
ghost use Rattle.ds2_reading.specs.KeyOrder.{part_of_key};
ghost use Rattle.ds2_reading.specs.ReadingFits.{read_table_fits};

use crate::columns::columns_of_bys;
use crate::{ByKey, ReadTable, Tables};
use ds2_base::{List, OutOfMemory};
use ds2_table::Table;
use ds2_value::Cell;
use std::alloc::Global;
use std::marker::Model;
use std::sync::Arc;

/// A table that is read. A contract sees the key of each of its rows.
#[derive(Drop)]
pub(crate) struct KeyedTable {
    table: Arc<Table, Global>,
    columns: List<usize>,
}

impl Model for KeyedTable {
    ghost use Rattle.std.specs.Prelude.{List as Items};
    ghost use Rattle.std.specs.Arc.{arc_value};
    ghost use Rattle.ds2_value.specs.declared.value.Value.{Value as Part};
    ghost use Rattle.ds2_reading.specs.ReadingKeys.{keys_in_columns};

    ghost Value = { Items (Items Part) };

    ghost view = { λ t. keys_in_columns t.columns (arc_value t.table).rows };
}

impl KeyedTable {
    /// The table of this number with the columns of the BY variables.
    pub(crate) fn open(
        alloc: Global,
        tables: &Tables,
        bys: &[ByKey],
        read: &ReadTable,
    ) -> Result<KeyedTable, OutOfMemory>
        requires { IsTrue (read_table_fits tables.now read.now) }
        ensures { IfOk result (λ keyed. keyed ≡ keys_of_table tables.now bys.now read.now) }
    {
        let columns = columns_of_bys(alloc, read.slots.as_slice(), bys)?;
        match tables.get(read.table as usize) {
            None => unreachable!(),
            Some(table) => {
                Ok(KeyedTable {
                    table: table.clone()?,
                    columns,
                })
            }
        }
    }

    /// The number of rows.
    pub(crate) fn len(&self) -> usize
        ensures { result ≡ length self.now }
    {
        self.table.len()
    }

    /// The value of a BY variable in a row; null where there is none.
    pub(crate) fn part(&self, row: usize, by: usize) -> Cell<'_>
        ensures { lent_value result ≡ part_of_key (get_or self.now row []) by }
    {
        match self.columns.get(by) {
            None => Cell::Null,
            Some(column) => self.table.cell(row, *column),
        }
    }
}
