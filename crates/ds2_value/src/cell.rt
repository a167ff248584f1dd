//! Values that are lent.
ghost use Rattle.std.specs.Prelude.{◌≡◌, IfOk, slice_get};
ghost use Rattle.ds2_value.specs.Cell.{lent_value};
ghost use Rattle.ds2_value.specs.Value.{is_null, or_null};

use crate::Value;
use ds2_base::{OutOfMemory, Text};
use ds2_decimal::Dec;
use std::alloc::Global;
use std::mem::size_of;

/// A value that is lent by what holds it: a text stays where it stands, so that a cell is made and handed on without memory.
#[derive(Clone, Copy)]
pub enum Cell<'a> {
    /// No value. It is of every type.
    Null,
    /// A BIGINT.
    Int(i64),
    /// A DECIMAL(p,s): a number of scale s.
    Dec(Dec),
    /// A CHAR(n) or VARCHAR(n).
    Txt(&'a str),
}

// A cell is handed on in four words.
const _: () = prove!(size_of::<Cell>() <= 32);

impl Cell<'_> {
    /// Whether this is null.
    #[inline]
    pub fn is_null(&self) -> bool
        ensures { result ≡ is_null (lent_value self.now) }
    {
        match self {
            Cell::Null => true,
            _ => false,
        }
    }

    /// The value, with a text of its own.
    pub fn to_value(&self, alloc: Global) -> Result<Value, OutOfMemory>
        ensures { IfOk result (λ value. value ≡ lent_value self.now) }
    {
        match self {
            Cell::Null => Ok(Value::Null),
            Cell::Int(i) => Ok(Value::Int(*i)),
            Cell::Dec(d) => Ok(Value::Dec(*d)),
            Cell::Txt(t) => Ok(Value::Txt(Text::of(alloc, *t)?)),
        }
    }
}

/// The value of a column in a row, the first one of number 0; null where the row has none.
#[inline]
pub fn cell_in(row: &[Value], column: usize) -> Cell<'_>
    ensures { lent_value result ≡ or_null (slice_get row.now column) }
{
    match row.get(column) {
        None => Cell::Null,
        Some(value) => value.as_cell(),
    }
}
