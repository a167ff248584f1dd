//! Arithmetic of BIGINT values: exact, null where an operand is null.
ghost use Rattle.std.specs.Prelude.{◌≡◌};
ghost use Rattle.ds2_value.specs.Value.{sum_of, difference_of, product_of, negative_of, absolute_of, remainder_of};

use crate::{Fault, Value};

/// The sum of two BIGINT values, null where one is null; Overflow exactly where the sum leaves 64 bits.
#[tactic(auto, unfolding(crate::specs::Value::sum_of))]
pub fn sum(a: &Value, b: &Value) -> Result<Value, Fault>
    ensures { result ≡ sum_of a.now b.now }
{
    match (a, b) {
        (Value::Int(x), Value::Int(y)) => match x.checked_add(*y) {
            Some(z) => Ok(Value::Int(z)),
            None => Err(Fault::Overflow),
        },
        _ => Ok(Value::Null),
    }
}

/// The first less the second of two BIGINT values, null where one is null; Overflow exactly where that leaves 64 bits.
#[tactic(auto, unfolding(crate::specs::Value::difference_of))]
pub fn difference(a: &Value, b: &Value) -> Result<Value, Fault>
    ensures { result ≡ difference_of a.now b.now }
{
    match (a, b) {
        (Value::Int(x), Value::Int(y)) => match x.checked_sub(*y) {
            Some(z) => Ok(Value::Int(z)),
            None => Err(Fault::Overflow),
        },
        _ => Ok(Value::Null),
    }
}

/// The product of two BIGINT values, null where one is null; Overflow exactly where the product leaves 64 bits.
#[tactic(auto, unfolding(crate::specs::Value::product_of))]
pub fn product(a: &Value, b: &Value) -> Result<Value, Fault>
    ensures { result ≡ product_of a.now b.now }
{
    match (a, b) {
        (Value::Int(x), Value::Int(y)) => match x.checked_mul(*y) {
            Some(z) => Ok(Value::Int(z)),
            None => Err(Fault::Overflow),
        },
        _ => Ok(Value::Null),
    }
}

/// `-a`: a BIGINT value with the other sign, null for null; Overflow exactly for the least BIGINT.
#[tactic(auto, unfolding(crate::specs::Value::negative_of))]
pub fn negative(a: &Value) -> Result<Value, Fault>
    ensures { result ≡ negative_of a.now }
{
    match a {
        Value::Int(x) => match x.checked_neg() {
            Some(z) => Ok(Value::Int(z)),
            None => Err(Fault::Overflow),
        },
        _ => Ok(Value::Null),
    }
}

/// `abs(a)`: a BIGINT value without its sign, null for null; Overflow exactly for the least BIGINT.
#[tactic(auto, unfolding(crate::specs::Value::absolute_of))]
pub fn absolute(a: &Value) -> Result<Value, Fault>
    ensures { result ≡ absolute_of a.now }
{
    match a {
        Value::Int(x) => match x.checked_abs() {
            Some(z) => Ok(Value::Int(z)),
            None => Err(Fault::Overflow),
        },
        _ => Ok(Value::Null),
    }
}

/// `mod(a, b)`: what whole multiples of the second leave of the first of two BIGINT values, with the sign of the first; null where
/// one is null. DivideByZero, the only fault, comes exactly where the second is 0.
#[tactic(auto, unfolding(crate::specs::Value::remainder_of))]
pub fn remainder(a: &Value, b: &Value) -> Result<Value, Fault>
    ensures { result ≡ remainder_of a.now b.now }
{
    match (a, b) {
        (Value::Int(x), Value::Int(y)) => {
            if *y == 0 {
                return Err(Fault::DivideByZero);
            }
            Ok(Value::Int(x.wrapping_rem(*y)))
        }
        _ => Ok(Value::Null),
    }
}
