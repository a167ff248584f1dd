//! Operations on decimals; null where an operand is null.
ghost use Rattle.std.specs.Prelude.{◌≡◌, ◌∷◌, [], IsTrue};
ghost use Rattle.ds2_value.specs.Operations.{widened, of_decimal, of_decimals};
ghost use Rattle.ds2_decimal.specs.Arithmetic as decimal;
ghost use Rattle.ds2_code.specs.Scales.{is_scale_of_product};

use ds2_value::{Fault, Value, decimal_value, whole_decimal};

/// A BIGINT as a decimal.
pub(crate) fn widened(v: &Value) -> Value
    ensures { result ≡ widened v.now }
{
    match v {
        Value::Int(i) => Value::Dec(whole_decimal(*i)),
        Value::Null | Value::Dec(_) | Value::Txt(_) => Value::Null,
    }
}

/// A decimal with the other sign.
pub(crate) fn negated(v: &Value) -> Value
    ensures { result ≡ of_decimal decimal.neg v.now }
{
    match v {
        Value::Dec(d) => Value::Dec(d.neg()),
        Value::Null | Value::Int(_) | Value::Txt(_) => Value::Null,
    }
}

/// The sum of two decimals.
pub(crate) fn decimal_sum(a: &Value, b: &Value) -> Result<Value, Fault>
    ensures { result ≡ of_decimals decimal.add a.now b.now }
{
    match a {
        Value::Dec(x) => match b {
            Value::Dec(y) => decimal_value(x.add(*y)),
            Value::Null | Value::Int(_) | Value::Txt(_) => Ok(Value::Null),
        },
        Value::Null | Value::Int(_) | Value::Txt(_) => Ok(Value::Null),
    }
}

/// The difference of two decimals.
pub(crate) fn decimal_difference(a: &Value, b: &Value) -> Result<Value, Fault>
    ensures { result ≡ of_decimals decimal.sub a.now b.now }
{
    match a {
        Value::Dec(x) => match b {
            Value::Dec(y) => decimal_value(x.sub(*y)),
            Value::Null | Value::Int(_) | Value::Txt(_) => Ok(Value::Null),
        },
        Value::Null | Value::Int(_) | Value::Txt(_) => Ok(Value::Null),
    }
}

/// The product of two decimals, whose scales sum to at most 38.
pub(crate) fn decimal_product(a: &Value, b: &Value) -> Result<Value, Fault>
    requires { IsTrue (is_scale_of_product (a.now ∷ b.now ∷ [])) }
    ensures { result ≡ of_decimals decimal.mul a.now b.now }
{
    match a {
        Value::Dec(x) => match b {
            Value::Dec(y) => decimal_value(x.mul(*y)),
            Value::Null | Value::Int(_) | Value::Txt(_) => Ok(Value::Null),
        },
        Value::Null | Value::Int(_) | Value::Txt(_) => Ok(Value::Null),
    }
}

/// The quotient of two decimals.
pub(crate) fn quotient(a: &Value, b: &Value) -> Result<Value, Fault>
    ensures { result ≡ of_decimals decimal.div a.now b.now }
{
    match a {
        Value::Dec(x) => match b {
            Value::Dec(y) => decimal_value(x.div(*y)),
            Value::Null | Value::Int(_) | Value::Txt(_) => Ok(Value::Null),
        },
        Value::Null | Value::Int(_) | Value::Txt(_) => Ok(Value::Null),
    }
}
