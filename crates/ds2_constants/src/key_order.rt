//! Keys in an order of their own: by type, number and text.
ghost use Rattle.std.specs.Prelude.{◌≡◌, refl};
ghost use Rattle.std.specs.Ordering.{as_partial_cmp, eq_by_cmp};
ghost use Rattle.std.specs.Cmp.{eq_by_cmp_equiv, partial_equiv_from_equiv, partial_order_from_total};
ghost use Rattle.ds2_value.specs.Order.{bytes_of};
ghost use Rattle.ds2_constants.specs.KeyOrder.{type_number, type_precision, scale_or_length, value_number, value_units, value_scale, type_cmp, value_cmp, key_cmp, key_total};

use crate::ConstantKey;
use ds2_value::{Ty, Value};
use std::cmp::Ordering;

fn type_number(ty: Ty) -> u8
    ensures { result ≡ type_number ty }
{
    match ty {
        Ty::BigInt => 0,
        Ty::Decimal { .. } => 1,
        Ty::Char { .. } => 2,
        Ty::Varchar { .. } => 3,
    }
}

// 0 where a type has no precision.
fn type_precision(ty: Ty) -> u8
    ensures { result ≡ type_precision ty }
{
    match ty {
        Ty::Decimal { p, .. } => p,
        Ty::BigInt | Ty::Char { .. } | Ty::Varchar { .. } => 0,
    }
}

// 0 for BIGINT.
fn scale_or_length(ty: Ty) -> u16
    ensures { result ≡ scale_or_length ty }
{
    match ty {
        Ty::BigInt => 0,
        Ty::Decimal { s, .. } => s as u16,
        Ty::Char { n } => n,
        Ty::Varchar { n } => n,
    }
}

fn compare_types(a: Ty, b: Ty) -> Ordering
    ensures { result ≡ type_cmp a b }
{
    let numbers = type_number(a).cmp(&type_number(b));
    let precisions = type_precision(a).cmp(&type_precision(b));
    let rest = scale_or_length(a).cmp(&scale_or_length(b));
    numbers.then(precisions.then(rest))
}

fn value_number(value: &Value) -> u8
    ensures { result ≡ value_number value.now }
{
    match value {
        Value::Null => 0,
        Value::Int(_) => 1,
        Value::Dec(_) => 2,
        Value::Txt(_) => 3,
    }
}

// 0 for what is no number.
fn value_units(value: &Value) -> i128
    ensures { result ≡ value_units value.now }
{
    match value {
        Value::Int(i) => *i as i128,
        Value::Dec(d) => d.units(),
        Value::Null | Value::Txt(_) => 0,
    }
}

// 0 for what is no decimal.
fn value_scale(value: &Value) -> u8
    ensures { result ≡ value_scale value.now }
{
    match value {
        Value::Dec(d) => d.scale(),
        Value::Null | Value::Int(_) | Value::Txt(_) => 0,
    }
}

// Empty for what is no text.
fn text_of(value: &Value) -> &str
    ensures { result.now ≡ bytes_of value.now }
{
    match value {
        Value::Txt(text) => text.as_str(),
        Value::Null | Value::Int(_) | Value::Dec(_) => "",
    }
}

fn compare_values(a: &Value, b: &Value) -> Ordering
    ensures { result ≡ value_cmp a.now b.now }
{
    let numbers = value_number(a).cmp(&value_number(b));
    let units = value_units(a).cmp(&value_units(b));
    let scales = value_scale(a).cmp(&value_scale(b));
    let texts = text_of(a).cmp(text_of(b));
    numbers.then(units.then(scales.then(texts)))
}

fn compare(a: &ConstantKey, b: &ConstantKey) -> Ordering
    ensures { result ≡ key_cmp a.now b.now }
{
    let types = compare_types(a.ty, b.ty);
    let values = compare_values(&a.value, &b.value);
    types.then(values)
}

impl PartialEq for ConstantKey {
    ghost eq = { eq_by_cmp key_cmp };

    ghost laws = { partial_equiv_from_equiv (eq_by_cmp_equiv key_total) };

    fn eq(&self, other: &Self) -> bool {
        compare(self, other).is_eq()
    }
}

impl Eq for ConstantKey {
    ghost laws = { eq_by_cmp_equiv key_total };
}

impl PartialOrd for ConstantKey {
    ghost partial_cmp = { as_partial_cmp key_cmp };

    ghost laws = { partial_order_from_total key_total };

    fn partial_cmp(&self, other: &Self) -> Option<Ordering> {
        Some(self.cmp(other))
    }
}

impl Ord for ConstantKey {
    ghost cmp = { key_cmp };

    ghost total = { key_total };

    ghost matches_partial_cmp = { λ x y. refl };

    ghost matches_eq = { λ x y. refl };

    fn cmp(&self, other: &Self) -> Ordering {
        compare(self, other)
    }
}
