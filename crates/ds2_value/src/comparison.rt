//! How two values stand to each other.
ghost use Rattle.std.specs.Prelude.{◌≡◌};
ghost use Rattle.ds2_value.specs.Cell.{lent_value};
ghost use Rattle.ds2_value.specs.Value.{holds_for, compare_of, compared_of};

use crate::{Cell, Value};
use std::cmp::Ordering;

/// A comparison of two values.
#[derive(Clone, Copy, PartialEq, Eq)]
pub enum Comparison {
    Equal,
    NotEqual,
    Less,
    LessOrEqual,
    Greater,
    GreaterOrEqual,
}

impl Comparison {
    /// Whether the comparison holds of two values in this order.
    pub fn holds(self, order: Ordering) -> bool
        ensures { result ≡ holds_for self order }
    {
        match self {
            Comparison::Equal => order.is_eq(),
            Comparison::NotEqual => order.is_ne(),
            Comparison::Less => order.is_lt(),
            Comparison::LessOrEqual => order.is_le(),
            Comparison::Greater => order.is_gt(),
            Comparison::GreaterOrEqual => order.is_ge(),
        }
    }
}

impl Cell<'_> {
    /// How two values stand, numbers by value and texts as if padded with blanks to one length; None exactly where one is null.
    #[inline]
    #[tactic(auto, unfolding(crate::specs::Value::compare_of))]
    pub fn compare(&self, other: &Cell<'_>) -> Option<Ordering>
        ensures { result ≡ compare_of (lent_value self.now) (lent_value other.now) }
    {
        if self.is_null() || other.is_null() {
            None
        } else {
            Some(self.key_compare(other))
        }
    }
}

/// [`Cell::compare`] of two values.
pub fn compare(a: &Value, b: &Value) -> Option<Ordering>
    ensures { result ≡ compare_of a.now b.now }
{
    a.as_cell().compare(&b.as_cell())
}

/// The BIGINT 1 where the comparison holds, 0 where it does not; null where one value is null.
#[tactic(auto, unfolding(crate::specs::Value::compared_of))]
pub fn compared(comparison: Comparison, a: &Value, b: &Value) -> Value
    ensures { result ≡ compared_of comparison a.now b.now }
{
    match compare(a, b) {
        None => Value::Null,
        Some(order) => {
            if comparison.holds(order) {
                Value::Int(1)
            } else {
                Value::Int(0)
            }
        }
    }
}
