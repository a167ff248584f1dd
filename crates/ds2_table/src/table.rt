//! Tables.
ghost use Rattle.std.specs.Prelude.{◌≡◌, ◌<◌, [], ℕ, IsTrue, length, map, get_or, IfOk, OnOk, OnErr};
ghost use Rattle.ds2_value.specs.Cell.{lent_value};
ghost use Rattle.ds2_value.specs.Schema.{row_fits};
ghost use Rattle.ds2_table.specs.Across.{AreColumnsOf, rows_across};
ghost use Rattle.ds2_table.specs.Table.{IsTable, empty_table, with_row, table_value};

use crate::columns::{add_missing, cut_back, push_each, read_columns};
use ds2_base::{List, OutOfMemory};
use ds2_columns::ColumnValues;
use ds2_value::{Cell, Row, Schema, Ty};
use std::alloc::Global;
use std::marker::Model;

/// A table: a schema, and rows that fit it, held by columns. A contract sees its columns and its rows.
#[derive(Drop)]
pub struct Table {
    alloc: Global,
    schema: Schema,
    // one for each column of the schema; while there are no rows, some of the last ones may not be there yet
    columns: Vec<ColumnValues>,
    rows: usize,
}

impl Model for Table {
    ghost use Rattle.ds2_table.specs.Table.{Contents};
    ghost use Rattle.ds2_table.specs.Across.{HoldsRows, rows_across};

    ghost Value = { Contents };

    ghost view = { λ t. record { columns = t.schema; rows = rows_across t.rows t.columns.items } };

    ghost invariant = { λ t. HoldsRows t.schema t.rows t.columns.items };
}

impl Table {
    /// The table of this schema without rows. Takes no memory.
    pub fn new(alloc: Global, schema: Schema) -> Table
        ensures { result ≡ empty_table schema }
    {
        Table {
            alloc,
            schema,
            columns: Vec::new(alloc),
            rows: 0,
        }
    }

    /// The table of these columns, as many as the schema has, with so many values each. Takes no memory.
    pub fn of_columns(
        alloc: Global,
        schema: Schema,
        columns: Vec<ColumnValues>,
        rows: usize,
    ) -> Table
        requires { AreColumnsOf schema rows columns.items }
        ensures { result ≡ record { columns = schema; rows = rows_across rows columns.items } }
    {
        read_columns(columns.as_slice());
        Table {
            alloc,
            schema,
            columns,
            rows,
        }
    }

    /// Adds a row that fits the schema at the end ([`Schema::fits`] tells whether it does). After a refusal the table is as it
    /// was, and the row is gone.
    pub fn push(&mut self, row: Row) -> Result<(), OutOfMemory>
        requires { IsTrue (row_fits row self.old.columns) }
        ensures ok { OnOk result (self.new ≡ with_row self.old row) }
        ensures err { OnErr result (self.new ≡ self.old) }
    {
        if self.rows == usize::MAX {
            return Err(OutOfMemory);
        }
        add_missing(
            self.alloc,
            self.schema.columns().as_slice(),
            &mut self.columns,
        )?;
        match push_each(&mut self.columns, row.as_slice()) {
            Ok(()) => {
                self.rows += 1;
                Ok(())
            }
            Err(refusal) => {
                cut_back(&mut self.columns, self.rows);
                Err(refusal)
            }
        }
    }

    pub fn schema(&self) -> &Schema
        ensures { result.now ≡ self.now.columns }
    {
        &self.schema
    }

    /// The number of rows.
    #[inline]
    pub fn len(&self) -> usize
        ensures { result ≡ length self.now.rows }
    {
        self.rows
    }

    /// The number of columns, which is that of the values of each row.
    #[inline]
    pub fn width(&self) -> usize
        ensures { (row : ℕ) → row < length self.now.rows → result ≡ length (get_or self.now.rows row []) }
    {
        self.schema.columns().len()
    }

    /// The value in a row and a column, both counted from 0; null where there is no such row or column.
    #[inline]
    pub fn cell(&self, row: usize, column: usize) -> Cell<'_>
        ensures { lent_value result ≡ table_value self.now.rows row column }
    {
        match self.columns.get(column) {
            None => Cell::Null,
            Some(values) => values.cell(row),
        }
    }

    /// The row of a number, in the order in which they were added, with values of its own.
    pub fn row(&self, alloc: Global, row: usize) -> Result<Row, OutOfMemory>
        requires { row < length self.now.rows }
        ensures { IfOk result (λ values. values ≡ get_or self.now.rows row []) }
    {
        let mut values = List::new(alloc);
        'columns: for column in self.columns.iter() {
            values.push(column.cell(row).to_value(alloc)?)?;
        }
        Ok(values)
    }

    /// The values of a column in these rows, in this order; null where there is no such row or column.
    pub fn gathered_column(
        &self,
        alloc: Global,
        column: usize,
        order: &[u32],
    ) -> Result<ColumnValues, OutOfMemory>
        ensures { IfOk result (λ gathered. gathered.values ≡ map (λ row. table_value self.now.rows row column) order.now) }
    {
        match self.columns.get(column) {
            None => ColumnValues::new(alloc, Ty::BigInt).gathered(alloc, order),
            Some(values) => values.gathered(alloc, order),
        }
    }

    /// Nothing at run time: a contract learns here that the table's columns are those of a schema and that its rows fit them.
    pub fn is_table(&self)
        ensures { IsTable self.now }
    {
        let _columns = self.schema.columns();
        let _rows = &self.rows;
    }
}
