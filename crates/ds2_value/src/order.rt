//! The order of values.
ghost use Rattle.std.specs.Prelude.{◌≡◌, []};
ghost use Rattle.ds2_value.specs.Cell.{lent_value};
ghost use Rattle.ds2_value.specs.Order.{key_order};
ghost use Rattle.ds2_value.specs.Texts.{padded_cmp, text_cmp};

use crate::{Cell, Value, whole_decimal};
use std::cmp::Ordering;

// How characters stand to blanks.
fn order_to_blanks(rest: &[u8]) -> Ordering
    ensures { result ≡ padded_cmp rest.now [] }
{
    'characters: for c in rest {
        let order = c.cmp(&b' ');
        if order.is_ne() {
            return order;
        }
    }
    Ordering::Equal
}

// How two texts stand whose characters are bytes.
fn byte_order(a: &[u8], b: &[u8]) -> Ordering
    ensures { result ≡ padded_cmp a.now b.now }
{
    let common = a.len().min(b.len());
    let order = a[..common].cmp(&b[..common]);
    if order.is_ne() {
        order
    } else if common < a.len() {
        order_to_blanks(&a[common..])
    } else {
        order_to_blanks(&b[common..]).reverse()
    }
}

// How two texts stand, by their characters one after the other.
fn character_order(a: &str, b: &str) -> Ordering
    ensures { result ≡ text_cmp a.now b.now }
{
    let mut first = a.chars();
    let mut second = b.chars();
    'characters: loop {
        let x = first.next();
        let y = second.next();
        if x.is_none() && y.is_none() {
            return Ordering::Equal;
        }
        let order = x.unwrap_or(' ').cmp(&y.unwrap_or(' '));
        if order.is_ne() {
            return order;
        }
    }
}

// How two texts stand by the codes of their characters, the shorter one as if followed by blanks.
fn text_order(a: &str, b: &str) -> Ordering
    ensures { result ≡ text_cmp a.now b.now }
{
    if a.is_ascii() && b.is_ascii() {
        byte_order(a.as_bytes(), b.as_bytes())
    } else {
        character_order(a, b)
    }
}

impl Cell<'_> {
    /// How two values stand as keys: null is least and equal to null, then come numbers by value, then texts, the shorter one
    /// as if followed by blanks. Takes no memory.
    #[inline]
    #[tactic(auto, using(crate::proofs::OrderLemmas::key_orders), unfolding(crate::specs::Order::key_order))]
    pub fn key_compare(&self, other: &Cell<'_>) -> Ordering
        ensures { result ≡ key_order (lent_value self.now) (lent_value other.now) }
    {
        match self {
            Cell::Null => match other {
                Cell::Null => Ordering::Equal,
                Cell::Int(_) | Cell::Dec(_) | Cell::Txt(_) => Ordering::Less,
            },
            Cell::Int(x) => match other {
                Cell::Null => Ordering::Greater,
                Cell::Int(y) => x.cmp(y),
                Cell::Dec(y) => whole_decimal(*x).compare(*y),
                Cell::Txt(_) => Ordering::Less,
            },
            Cell::Dec(x) => match other {
                Cell::Null => Ordering::Greater,
                Cell::Int(y) => x.compare(whole_decimal(*y)),
                Cell::Dec(y) => x.compare(*y),
                Cell::Txt(_) => Ordering::Less,
            },
            Cell::Txt(x) => match other {
                Cell::Null | Cell::Int(_) | Cell::Dec(_) => Ordering::Greater,
                Cell::Txt(y) => text_order(*x, *y),
            },
        }
    }
}

/// [`Cell::key_compare`] of two values.
pub fn key_compare(a: &Value, b: &Value) -> Ordering
    ensures { result ≡ key_order a.now b.now }
{
    a.as_cell().key_compare(&b.as_cell())
}
