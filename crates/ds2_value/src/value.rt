//! Values and rows.
ghost use Rattle.std.specs.Prelude.{◌≡◌, IfOk};
ghost use Rattle.ds2_value.specs.Cell.{lent_value};
ghost use Rattle.ds2_value.specs.Value.{is_null};

use crate::Cell;
use ds2_base::{List, OutOfMemory, Text};
use ds2_decimal::Dec;
use std::alloc::Global;
use std::mem::size_of;

/// What a variable or a cell holds.
#[derive(Drop)]
pub enum Value {
    /// No value. It is of every type.
    Null,
    /// A BIGINT.
    Int(i64),
    /// A DECIMAL(p,s): a number of scale s.
    Dec(Dec),
    /// A CHAR(n) or VARCHAR(n).
    Txt(Text),
}

// A table holds many values, so one is small.
const _: () = prove!(size_of::<Value>() <= 32);

/// The values of a row, one for each column.
pub type Row = List<Value>;

/// The same values once more.
pub fn copy_row(alloc: Global, row: &[Value]) -> Result<Row, OutOfMemory>
    ensures { IfOk result (λ copy. copy ≡ row.now) }
{
    let mut copy = List::new(alloc);
    'values: for value in row {
        copy.push(value.copy(alloc)?)?;
    }
    Ok(copy)
}

impl Value {
    /// Whether this is null.
    pub fn is_null(&self) -> bool
        ensures { result ≡ is_null self.now }
    {
        match self {
            Value::Null => true,
            _ => false,
        }
    }

    /// The value as a cell, which lends its text.
    #[inline]
    pub fn as_cell(&self) -> Cell<'_>
        ensures { lent_value result ≡ self.now }
    {
        match self {
            Value::Null => Cell::Null,
            Value::Int(i) => Cell::Int(*i),
            Value::Dec(d) => Cell::Dec(*d),
            Value::Txt(t) => Cell::Txt(t.as_str()),
        }
    }

    /// The same value once more.
    pub fn copy(&self, alloc: Global) -> Result<Value, OutOfMemory>
        ensures { IfOk result (λ value. value ≡ self.now) }
    {
        match self {
            Value::Null => Ok(Value::Null),
            Value::Int(i) => Ok(Value::Int(*i)),
            Value::Dec(d) => Ok(Value::Dec(*d)),
            Value::Txt(t) => Ok(Value::Txt(t.copy(alloc)?)),
        }
    }
}
