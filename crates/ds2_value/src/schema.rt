//! Columns and schemas.
ghost use Rattle.std.specs.Prelude.{◌≡◌, IfOk, IsTrue};
ghost use Rattle.std.specs.List.{AllByRecursion};
ghost use Rattle.ds2_value.specs.Schema.{has_column, distinct_names, types_in_bounds, schema_of, IsNamedColumn, IsSchema};

use crate::Ty;
use ds2_base::{List, Name, OutOfMemory};
use std::alloc::Global;
use std::marker::Model;

/// A column of a table: its name and the type of its values.
#[derive(Drop, PartialEq, Eq)]
pub struct Column {
    pub name: Name,
    pub ty: Ty,
}

/// The columns of a table, with distinct names and types in bounds. A contract sees the list of them.
#[derive(Drop, PartialEq, Eq)]
pub struct Schema {
    columns: List<Column>,
}

impl Model for Schema {
    ghost use Rattle.ds2_value.specs.Row.{Columns};
    ghost use Rattle.ds2_value.specs.Schema.{IsSchema};

    ghost Value = { Columns };

    ghost view = { λ s. s.columns };

    ghost invariant = { λ s. IsSchema s.columns };

    ghost inverse = { λ columns. record { columns = columns } };
}

// Whether a column of this name is among these.
fn has_column(name: &Name, columns: &[Column]) -> bool
    ensures { result ≡ has_column name.now columns.now }
{
    columns.iter().any(|c| c.name == *name)
}

// Whether no two columns have one name.
fn distinct_names(columns: &[Column]) -> bool
    ensures { result ≡ distinct_names columns.now }
{
    let mut rest = columns;
    'columns: while let [first, after @ ..] = rest {
        if has_column(&first.name, after) {
            return false;
        }
        rest = after;
    }
    true
}

// Reads each name, which is a name.
fn read_names(columns: &[Column])
    ensures { AllByRecursion IsNamedColumn columns.now }
{
    let mut rest = columns;
    'columns: while let [first, after @ ..] = rest {
        let _name = first.name.as_str();
        rest = after;
    }
}

impl Column {
    /// The same column once more.
    pub fn copy(&self, alloc: Global) -> Result<Column, OutOfMemory>
        ensures { IfOk result (λ column. column ≡ self.now) }
    {
        Ok(Column {
            name: self.name.copy(alloc)?,
            ty: self.ty,
        })
    }
}

/// The same columns once more.
pub fn copy_columns(alloc: Global, columns: &[Column]) -> Result<List<Column>, OutOfMemory>
    ensures { IfOk result (λ copy. copy ≡ columns.now) }
{
    let mut copy = List::new(alloc);
    'columns: for column in columns {
        copy.push(column.copy(alloc)?)?;
    }
    Ok(copy)
}

impl Schema {
    /// The schema of these columns, whose types are in bounds; None exactly where two columns have one name.
    pub fn new(columns: List<Column>) -> Option<Schema>
        requires { IsTrue (types_in_bounds columns) }
        ensures { result ≡ schema_of columns }
    {
        read_names(columns.as_slice());
        if distinct_names(columns.as_slice()) {
            Some(Schema { columns })
        } else {
            None
        }
    }

    /// The columns, in their order.
    pub fn columns(&self) -> &List<Column>
        ensures value { result.now ≡ self.now }
        ensures schema { IsSchema self.now }
    {
        &self.columns
    }

    /// The same schema once more.
    pub fn copy(&self, alloc: Global) -> Result<Schema, OutOfMemory>
        ensures { IfOk result (λ schema. schema ≡ self.now) }
    {
        Ok(Schema {
            columns: copy_columns(alloc, self.columns.as_slice())?,
        })
    }
}
