//! Assignment of a value to a type.
ghost use Rattle.std.specs.Prelude.{IfOk, IsTrue};
ghost use Rattle.std.specs.Str.{IsUtf8};
ghost use Rattle.ds2_base.specs.Says.{Says};
ghost use Rattle.ds2_value.specs.Cell.{lent_value};
ghost use Rattle.ds2_value.specs.Types.{in_bounds, fits, assign_of};

use crate::texts::{cut_to, filled_to, kept_or_filled, shortened_to};
use crate::{Cell, Fault, Ty, Value, decimal_value, whole_decimal};
use ds2_base::{Stop, Text, refusing};
use std::alloc::Global;

// Nothing at run time: a contract learns here that a lent text is UTF-8.
#[inline]
fn is_text(text: &str)
    ensures { IsUtf8 text.now }
{}

impl Cell<'_> {
    /// The value in a type to which it may be assigned: a number to BIGINT or DECIMAL (which takes a BIGINT too), a text to CHAR or
    /// VARCHAR, null to every type. A DECIMAL is rounded half away from zero to the type's scale, and Overflow, the only fault, comes
    /// exactly where it then has more digits than the type. A text is cut to n characters, and for CHAR filled with blanks to n.
    pub fn assign(&self, alloc: Global, to: Ty) -> Result<Value, Stop<Fault>>
        requires { IsTrue (in_bounds to) }
        ensures value { Says result (assign_of (lent_value self.now) to) }
        ensures of_type { IfOk result (λ value. IsTrue (fits value to)) }
    {
        match (self, to) {
            (Cell::Int(i), Ty::BigInt) => Ok(Value::Int(*i)),
            (Cell::Int(i), Ty::Decimal { p, s }) => {
                refusing(decimal_value(whole_decimal(*i).rescale(p, s)))
            }
            (Cell::Dec(d), Ty::Decimal { p, s }) => refusing(decimal_value(d.rescale(p, s))),
            (Cell::Txt(t), Ty::Char { n }) => {
                is_text(*t);
                Ok(Value::Txt(filled_to(alloc, *t, n as usize)?))
            }
            (Cell::Txt(t), Ty::Varchar { n }) => {
                is_text(*t);
                Ok(Value::Txt(Text::of(alloc, cut_to(*t, n as usize))?))
            }
            _ => Ok(Value::Null),
        }
    }
}

/// [`Cell::assign`] of a value.
pub fn assign(alloc: Global, v: &Value, to: Ty) -> Result<Value, Stop<Fault>>
    requires { IsTrue (in_bounds to) }
    ensures value { Says result (assign_of v.now to) }
    ensures of_type { IfOk result (λ value. IsTrue (fits value to)) }
{
    v.as_cell().assign(alloc, to)
}

/// [`assign`] of a value that is given away: for VARCHAR a text is cut where it stands, and for CHAR one that has the type's
/// characters stays as it is, so that neither takes memory; any other CHAR of more than 22 bytes is made anew.
pub fn assign_owned(alloc: Global, v: Value, to: Ty) -> Result<Value, Stop<Fault>>
    requires { IsTrue (in_bounds to) }
    ensures value { Says result (assign_of v to) }
    ensures of_type { IfOk result (λ value. IsTrue (fits value to)) }
{
    match v {
        Value::Txt(t) => match to {
            Ty::Char { n } => Ok(Value::Txt(kept_or_filled(alloc, t, n as usize)?)),
            Ty::Varchar { n } => Ok(Value::Txt(shortened_to(t, n as usize))),
            Ty::BigInt | Ty::Decimal { .. } => Ok(Value::Null),
        },
        Value::Null | Value::Int(_) | Value::Dec(_) => assign(alloc, &v, to),
    }
}
