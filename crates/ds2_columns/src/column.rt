//! Columns.
ghost use Rattle.std.specs.Prelude.{◌≡◌, length, IfOk, IsTrue, OnOk, OnErr};
ghost use Rattle.ds2_value.specs.Cell.{lent_value};
ghost use Rattle.ds2_value.specs.Types.{in_bounds, fits};
ghost use Rattle.ds2_value.specs.declared.value.Value.TheVariants.{Null};
ghost use Rattle.ds2_columns.specs.Columns.{IsColumn, all_fit, empty_column, with_value, first_values, value_in_row, with_rows, gathered_column};

use crate::items::Items;
use crate::marks::{is_marked, mark};
use ds2_base::{List, OutOfMemory};
use ds2_value::{Cell, Ty};
use std::alloc::Global;
use std::marker::Model;

/// The values of a column, one for each row. A contract sees their type and the list of them.
pub struct ColumnValues {
    ty: Ty,
    // which values are null; those behind the last mark are not
    marks: List<bool>,
    items: Items,
}

// A column is let go by a call, so that whoever lets one go need not know what it keeps.
impl Drop for ColumnValues {
    fn drop(self) {
        let ColumnValues {
            ty: _,
            marks: _,
            items: _,
        } = self;
    }
}

impl Model for ColumnValues {
    ghost use Rattle.ds2_columns.specs.Columns.{ColumnContents};

    ghost Value = { ColumnContents };

    ghost use Rattle.ds2_columns.specs.Items.{items_values};
    ghost use Rattle.ds2_columns.specs.Kept.{KeepsColumn};
    ghost use Rattle.ds2_columns.specs.Marks.{with_nulls};

    ghost view = { λ c. record { ty = c.ty; values = with_nulls c.marks (items_values c.items) } };

    ghost invariant = { λ c. KeepsColumn c.ty c.marks (items_values c.items) };
}

impl ColumnValues {
    /// The column of this type without values. Takes no memory.
    #[tactic(auto, using(crate::proofs::KeptColumns::kept_empty))]
    pub fn new(alloc: Global, ty: Ty) -> ColumnValues
        requires { IsTrue (in_bounds ty) }
        ensures { result ≡ empty_column ty }
    {
        ColumnValues {
            ty,
            marks: List::new(alloc),
            items: Items::new(alloc, ty),
        }
    }

    /// The number of values.
    #[tactic(auto, using(crate::proofs::NullMarks::as_many))]
    pub fn len(&self) -> usize
        ensures { result ≡ length self.now.values }
    {
        self.items.len()
    }

    /// The value in a row, counted from 0; null where there is no such row.
    #[inline]
    #[tactic(auto, using(crate::proofs::NullMarks::at_marked, crate::proofs::NullMarks::at_plain))]
    pub fn cell(&self, row: usize) -> Cell<'_>
        ensures { lent_value result ≡ value_in_row self.now.values row }
    {
        if is_marked(self.marks.as_slice(), row) {
            Cell::Null
        } else {
            self.items.cell(row)
        }
    }

    // Adds a null.
    #[tactic(auto, using(crate::proofs::KeptColumns::kept_null, crate::proofs::KeptColumns::null_is, crate::proofs::KeptColumns::kept_same, crate::proofs::KeptColumns::same_is))]
    fn push_null(&mut self) -> Result<(), OutOfMemory>
        ensures ok { OnOk result (self.new ≡ with_value self.old Null) }
        ensures err { OnErr result (self.new ≡ self.old) }
    {
        let row = self.items.len();
        self.items.push_any()?;
        match mark(&mut self.marks, row) {
            Ok(()) => Ok(()),
            Err(refusal) => {
                self.items.truncate(row);
                Err(refusal)
            }
        }
    }

    /// Adds a value of the column's type at the end. After a refusal the column is as it was.
    #[inline]
    #[tactic(auto, using(crate::proofs::KeptColumns::kept_plain, crate::proofs::KeptColumns::plain_is))]
    pub fn push(&mut self, cell: &Cell<'_>) -> Result<(), OutOfMemory>
        requires { IsTrue (fits (lent_value cell.now) self.old.ty) }
        ensures ok { OnOk result (self.new ≡ with_value self.old (lent_value cell.now)) }
        ensures err { OnErr result (self.new ≡ self.old) }
    {
        if cell.is_null() {
            self.push_null()
        } else {
            self.items.push(cell)
        }
    }

    /// Makes room for `count` more values, but for what their texts take.
    pub fn reserve(&mut self, count: usize) -> Result<(), OutOfMemory>
        ensures { self.new ≡ self.old }
    {
        self.items.reserve(count)
    }

    /// Drops all values but the first `count`.
    #[tactic(auto, using(crate::proofs::KeptColumns::kept_first, crate::proofs::KeptColumns::first_is))]
    pub fn truncate(&mut self, count: usize)
        ensures { self.new ≡ first_values count self.old }
    {
        self.marks.truncate(count);
        self.items.truncate(count);
    }

    // Adds the values in these rows of this column to another one.
    fn add_rows(&self, order: &[u32], column: &mut ColumnValues) -> Result<(), OutOfMemory>
        requires { column.old.ty ≡ self.now.ty }
        ensures { OnOk result (column.new ≡ with_rows column.old self.now.values order.now) }
    {
        self.is_column();
        'rows: for row in order {
            column.push(&self.cell(*row as usize))?;
        }
        Ok(())
    }

    /// The column of the values in these rows, in this order; null for a row that there is not.
    pub fn gathered(&self, alloc: Global, order: &[u32]) -> Result<ColumnValues, OutOfMemory>
        ensures { IfOk result (λ column. column ≡ gathered_column self.now order.now) }
    {
        let mut column = ColumnValues::new(alloc, self.ty);
        column.reserve(order.len())?;
        self.add_rows(order, &mut column)?;
        Ok(column)
    }

    /// The same values in a column of another type of their kind, which all of them fit. Takes no memory. Where the kind is another one
    /// the column takes nulls alone from then on.
    #[tactic(auto, using(crate::proofs::KeptColumns::kept_as))]
    pub fn retyped(self, ty: Ty) -> ColumnValues
        requires bounds { IsTrue (in_bounds ty) }
        requires fit { IsTrue (all_fit ty self.values) }
        ensures { result ≡ record { ty = ty; values = self.values } }
    {
        let ColumnValues {
            ty: _,
            marks,
            items,
        } = self;
        ColumnValues { ty, marks, items }
    }

    /// Nothing at run time: a contract learns here that the column's values are of its type, which is in bounds.
    pub fn is_column(&self)
        ensures { IsColumn self.now }
    {
        let _ty = self.ty;
    }
}
