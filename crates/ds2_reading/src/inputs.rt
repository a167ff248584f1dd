//! The rows of all tables of a statement, by numbers from 0, table after table.
ghost use Rattle.std.specs.Prelude.{◌≡◌, [], map, drop, false, ◌+◌, ◌-◌, ◌^◌, ◌<◌, ◌≤◌, IsTrue, IfOk, IfSome, length, get_or, slice_get};
ghost use Rattle.std.specs.List.{list_all};
ghost use Rattle.std.specs.Option.{option_map};
ghost use Rattle.ds2_value.specs.Cell.{lent_value};
ghost use Rattle.ds2_value.specs.Order.{key_order};
ghost use Rattle.ds2_table.specs.LoadLaws.{HaveTableKeys};
ghost use Rattle.ds2_table.specs.Loads.{value_order, input_rows, keys_of_rows};
ghost use Rattle.ds2_reading.specs.ReadingFits.{read_table_fits, reading_fits_tables};
ghost use Rattle.ds2_reading.specs.ReadingKeys.{keys_of_table, directions_of, keys_of_reading};
ghost use Rattle.ds2_reading.specs.KeyOrder.{IsThere, row_in, key_of_number, part_of_key, parts_order, parts_in_common};

use crate::columns::directions_of;
use crate::keyed_table::KeyedTable;
use crate::{ByKey, ReadTable, Reading, TableRow, Tables};
use ds2_base::{List, OutOfMemory};
use ds2_value::Cell;
use std::alloc::Global;
use std::cmp::Ordering;
use std::marker::Model;

/// The tables that a statement reads, and which BY variables are descending. A contract sees the keys of their rows.
#[derive(Drop)]
pub(crate) struct Inputs {
    directions: List<bool>,
    tables: List<KeyedTable>,
}

impl Model for Inputs {
    ghost use Rattle.ds2_table.specs.LoadLaws.{HaveTableKeys};
    ghost use Rattle.ds2_reading.specs.KeyOrder.{InputKeys};

    ghost Value = { InputKeys };

    ghost view = { λ i. record { descending = i.directions; tables = i.tables } };

    ghost invariant = { λ i. HaveTableKeys i.directions i.tables };
}

// The tables that a statement reads, with the columns of its BY variables.
fn keyed_tables(
    alloc: Global,
    tables: &Tables,
    bys: &[ByKey],
    reads: &[ReadTable],
) -> Result<List<KeyedTable>, OutOfMemory>
    requires { IsTrue (list_all (read_table_fits tables.now) reads.now) }
    ensures { IfOk result (λ keyed. keyed ≡ map (keys_of_table tables.now bys.now) reads.now) }
{
    let mut keyed = List::new(alloc);
    let mut rest = reads;
    'reads: while let [read, after @ ..] = rest {
        keyed.push(KeyedTable::open(alloc, tables, bys, read)?)?;
        rest = after;
    }
    Ok(keyed)
}

// The direction of a BY variable: whether it is descending; not where there is none.
fn direction(directions: &[bool], by: usize) -> bool
    ensures { result ≡ get_or directions.now by false }
{
    match directions.get(by) {
        None => false,
        Some(is_descending) => *is_descending,
    }
}

// The number of rows of a table, 0 past the last one.
fn rows_of(tables: &[KeyedTable], table: usize) -> usize
    ensures { result ≡ length (get_or tables.now table []) }
{
    match tables.get(table) {
        None => 0,
        Some(keyed) => keyed.len(),
    }
}

// The number of rows of all tables; more than 32 bits number are refused.
#[tactic(auto, using(crate::proofs::RowCounts::rows_more))]
fn count_rows(tables: &[KeyedTable]) -> Result<usize, OutOfMemory>
    ensures count { IfOk result (λ rows. rows ≡ length (input_rows 0 tables.now)) }
    ensures bound { IfOk result (λ rows. rows < 2 ^ 32) }
{
    let mut rows = 0usize;
    'tables: for table in 0..tables.len() {
        rows = rows.checked_add(rows_of(tables, table)).ok_or(OutOfMemory)?;
    }
    if rows < 0x1_0000_0000 {
        Ok(rows)
    } else {
        Err(OutOfMemory)
    }
}

// The row of this number; None past the last one.
fn numbered_row(tables: &[KeyedTable], number: usize) -> Option<TableRow>
    ensures row { option_map (row_in tables.now) result ≡ slice_get (input_rows 0 tables.now) number }
    ensures there { IfSome result (IsThere tables.now) }
{
    let mut left = number;
    'tables: for table in 0..tables.len() {
        let rows = rows_of(tables, table);
        if left < rows {
            return Some(TableRow { table, row: left });
        }
        left -= rows;
    }
    None
}

// The value of a BY variable in a row; null where there is none.
fn part_in(tables: &[KeyedTable], row: TableRow, by: usize) -> Cell<'_>
    ensures { lent_value result ≡ part_of_key (row_in tables.now row).key by }
{
    match tables.get(row.table) {
        None => Cell::Null,
        Some(table) => table.part(row.row, by),
    }
}

// The value of a BY variable in the row of this number; null where there is none.
fn numbered_part(tables: &[KeyedTable], number: usize, by: usize) -> Cell<'_>
    ensures { lent_value result ≡ part_of_key (get_or (keys_of_rows (input_rows 0 tables.now)) number []) by }
{
    match numbered_row(tables, number) {
        None => Cell::Null,
        Some(row) => part_in(tables, row, by),
    }
}

impl Inputs {
    /// The tables that a statement reads.
    #[tactic(auto, using(crate::proofs::Keys::tables_have))]
    pub(crate) fn open(
        alloc: Global,
        reading: &Reading,
        tables: &Tables,
    ) -> Result<Inputs, OutOfMemory>
        requires { IsTrue (reading_fits_tables tables.now reading.now) }
        ensures { IfOk result (λ inputs. inputs
            ≡ record { descending = directions_of reading.now.bys; tables = keys_of_reading tables.now reading.now }) }
    {
        let bys = reading.bys.as_slice();
        let directions = directions_of(alloc, bys)?;
        let tables = keyed_tables(alloc, tables, bys, reading.tables.as_slice())?;
        Ok(Inputs { directions, tables })
    }

    /// Nothing at run time: a contract learns here that each key has a value for each BY variable.
    pub(crate) fn have_keys(&self)
        ensures { HaveTableKeys self.now.descending self.now.tables }
    {
        let _tables = &self.tables;
    }

    /// The number of tables.
    pub(crate) fn tables(&self) -> usize
        ensures { result ≡ length self.now.tables }
    {
        self.tables.len()
    }

    /// The number of BY variables.
    pub(crate) fn bys(&self) -> usize
        ensures { result ≡ length self.now.descending }
    {
        self.directions.len()
    }

    /// Whether the first BY variable is descending; not where there is none.
    pub(crate) fn is_descending(&self) -> bool
        ensures { result ≡ get_or self.now.descending 0 false }
    {
        direction(self.directions.as_slice(), 0)
    }

    /// The number of rows of all tables; more than 32 bits number are refused.
    pub(crate) fn count_rows(&self) -> Result<usize, OutOfMemory>
        ensures count { IfOk result (λ rows. rows ≡ length (input_rows 0 self.now.tables)) }
        ensures bound { IfOk result (λ rows. rows < 2 ^ 32) }
    {
        count_rows(self.tables.as_slice())
    }

    /// The row of this number; None exactly past the last one.
    pub(crate) fn row(&self, number: usize) -> Option<TableRow>
        ensures row { option_map (row_in self.now.tables) result ≡ slice_get (input_rows 0 self.now.tables) number }
        ensures there { IfSome result (IsThere self.now.tables) }
    {
        numbered_row(self.tables.as_slice(), number)
    }

    /// The value of a BY variable in the row of this number; null where there is none.
    pub(crate) fn part(&self, number: usize, by: usize) -> Cell<'_>
        ensures { lent_value result ≡ part_of_key (key_of_number self.now number) by }
    {
        numbered_part(self.tables.as_slice(), number, by)
    }

    // How two rows stand by a BY variable, as if it were ascending.
    fn compare_by(&self, a: usize, b: usize, by: usize) -> Ordering
        ensures { result ≡ key_order (part_of_key (key_of_number self.now a) by) (part_of_key (key_of_number self.now b) by) }
    {
        let first = self.part(a, by);
        let second = self.part(b, by);
        first.key_compare(&second)
    }

    // How two rows stand by a BY variable, in its direction.
    fn compare_in_direction(&self, a: usize, b: usize, by: usize) -> Ordering
        ensures { result ≡ value_order (get_or self.now.descending by false) (part_of_key (key_of_number self.now a) by) (part_of_key (key_of_number self.now b) by) }
    {
        let order = self.compare_by(a, b, by);
        if direction(self.directions.as_slice(), by) {
            order.reverse()
        } else {
            order
        }
    }

    /// How two rows stand by their keys, from this BY variable on.
    pub(crate) fn compare(&self, from: usize, a: usize, b: usize) -> Ordering
        ensures { result ≡ parts_order (drop from self.now.descending) (drop from (key_of_number self.now a)) (drop from (key_of_number self.now b)) }
    {
        'bys: for by in from..self.bys() {
            let order = self.compare_in_direction(a, b, by);
            if order.is_ne() {
                return order;
            }
        }
        Ordering::Equal
    }

    /// In how many BY variables two rows are equal, from the first one on, where they are in so many.
    #[tactic(auto, using(crate::proofs::Parts::common_parts))]
    pub(crate) fn parts_in_common(&self, from: usize, a: usize, b: usize) -> usize
        requires { from ≤ length self.now.descending }
        ensures value { result ≡ from
            + parts_in_common (length self.now.descending - from) (drop from (key_of_number self.now a)) (drop from (key_of_number self.now b)) }
        ensures bound { result ≤ length self.now.descending }
    {
        let bys = self.bys();
        'bys: for by in from..bys {
            if self.compare_by(a, b, by).is_ne() {
                return by;
            }
        }
        bys
    }
}
