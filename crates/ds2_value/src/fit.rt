//! Whether values are of a type.
ghost use Rattle.std.specs.Prelude.{◌≡◌, IsTrue};
ghost use Rattle.ds2_value.specs.Schema.{row_fits, types_in_bounds};
ghost use Rattle.std.specs.Str.{is_utf8};
ghost use Rattle.ds2_base.specs.Characters.{char_count};
ghost use Rattle.ds2_value.specs.Cell.{lent_value};
ghost use Rattle.ds2_value.specs.Types.{in_bounds, fits};
ghost use Rattle.ds2_value.specs.Value.{fits_bigint};

use crate::decimal_text::power_of_ten;
use crate::{Cell, Column, Schema, Ty, Value};
use ds2_base::char_count;

// A number that is held has 64 bits.
fn is_bigint(i: i64) -> bool
    ensures { result ≡ fits_bigint i }
{
    true
}

// The number of characters of a text, whose bytes are UTF-8.
fn characters(t: &str) -> usize
    ensures count { result ≡ char_count t.now }
    ensures utf8 { IsTrue (is_utf8 t.now) }
{
    char_count(t)
}

impl Cell<'_> {
    /// Whether the value is of a type in bounds: a BIGINT of BIGINT, a number of scale s and at most p digits of DECIMAL(p,s), a
    /// text of exactly n characters of CHAR(n), a text of at most n of VARCHAR(n), and null of every type.
    pub fn fits(&self, ty: Ty) -> bool
        requires { IsTrue (in_bounds ty) }
        ensures { result ≡ fits (lent_value self.now) ty }
    {
        match (self, ty) {
            (Cell::Null, _) => true,
            (Cell::Int(i), Ty::BigInt) => is_bigint(*i),
            (Cell::Dec(d), Ty::Decimal { p, s }) => {
                d.scale() == s && d.units().unsigned_abs() < power_of_ten(p)
            }
            (Cell::Txt(t), Ty::Char { n }) => characters(*t) == n as usize,
            (Cell::Txt(t), Ty::Varchar { n }) => characters(*t) <= n as usize,
            _ => false,
        }
    }
}

impl Value {
    /// [`Cell::fits`] of the value.
    pub fn fits(&self, ty: Ty) -> bool
        requires { IsTrue (in_bounds ty) }
        ensures { result ≡ fits self.now ty }
    {
        self.as_cell().fits(ty)
    }
}

// Whether a row has a value for each column, and each is of its column's type.
fn row_fits(row: &[Value], columns: &[Column]) -> bool
    requires { IsTrue (types_in_bounds columns.now) }
    ensures { result ≡ row_fits row.now columns.now }
{
    match row {
        [] => columns.is_empty(),
        [v, vs @ ..] => match columns {
            [] => false,
            [c, cs @ ..] => v.fits(c.ty) && row_fits(vs, cs),
        },
    }
}

impl Schema {
    /// Whether a row has a value for each column, and each is of its column's type.
    pub fn fits(&self, row: &[Value]) -> bool
        ensures { result ≡ row_fits row.now self.now }
    {
        row_fits(row, self.columns().as_slice())
    }
}
