//! The functions that give a value for their operands alone. The rows of `specs/ValueFunctions.antt` say what each takes and gives.
ghost use Rattle.std.specs.Prelude.{◌≡◌};
ghost use Rattle.ds2_base.specs.Says.{Says};
ghost use Rattle.ds2_decimal.specs.Arithmetic as decimal;
ghost use Rattle.ds2_value.specs.Operations.{of_decimals, of_decimal, of_one, of_one_or_fault, of_two};
ghost use Rattle.ds2_value.specs.Value.{absolute_of, remainder_of};
ghost use Rattle.ds2_value.specs.declared.value_function.ResultType.TheVariants as variant;
ghost use Rattle.ds2_value.specs.ValueFunctions.{is_of_class, text_length, decimal_of_scale, type_by, function_row, function_value};

use crate::{Fault, Ty, Value, absolute, decimal_value, is_null, length, remainder, substr, trim};
use ds2_base::{Stop, refusing};
use std::alloc::Global;

/// What an operation needs of an operand.
#[derive(Clone, Copy, PartialEq, Eq)]
pub enum OperandClass {
    /// Exactly this type.
    OneType(Ty),
    /// A DECIMAL.
    AnyDecimal,
    /// A CHAR or VARCHAR.
    AnyText,
    /// Nothing.
    AnyType,
}

/// The type of a function's result.
#[derive(Clone, Copy, PartialEq, Eq)]
pub enum ResultType {
    /// BIGINT.
    Integer,
    /// DECIMAL(38,0).
    WholeDecimal,
    /// That of the one operand.
    AsOperand,
    /// DECIMAL(38, the greater scale) of two DECIMAL operands.
    GreaterScale,
    /// VARCHAR of the length of the first operand, a text.
    PartOfFirst,
}

/// A function, by the types of its operands. A null operand makes the result null, unless it is said otherwise.
#[derive(Clone, Copy, PartialEq, Eq)]
pub enum ValueFunction {
    /// `abs(x)` of a BIGINT; Overflow.
    IntegerAbsolute,
    /// `mod(a, b)` of two BIGINT values; DivideByZero.
    IntegerModulo,
    /// `abs(x)` of a DECIMAL.
    DecimalAbsolute,
    /// `mod(a, b)` of two DECIMAL values; Overflow, DivideByZero.
    DecimalModulo,
    /// `floor(x)` of a DECIMAL.
    Floor,
    /// `ceil(x)` of a DECIMAL.
    Ceiling,
    /// `null(x)`: 1 where x is null, else 0.
    IsNull,
    /// `length(t)`.
    Length,
    /// `substr(t, i, k)`; Range.
    Substring,
    /// `substr(t, i)`; Range.
    SubstringFrom,
    /// `trim(t)`.
    Trim,
}

const INTEGER: OperandClass = OperandClass::OneType(Ty::BigInt);

impl ValueFunction {
    /// What the function needs of its operands, the last one first.
    pub fn operands(self) -> &'static [OperandClass]
        ensures { result.now ≡ (function_row self).operands }
    {
        match self {
            ValueFunction::IntegerAbsolute => &[INTEGER],
            ValueFunction::IntegerModulo => &[INTEGER, INTEGER],
            ValueFunction::DecimalModulo => &[OperandClass::AnyDecimal, OperandClass::AnyDecimal],
            ValueFunction::DecimalAbsolute | ValueFunction::Floor | ValueFunction::Ceiling => {
                &[OperandClass::AnyDecimal]
            }
            ValueFunction::IsNull => &[OperandClass::AnyType],
            ValueFunction::Length | ValueFunction::Trim => &[OperandClass::AnyText],
            ValueFunction::Substring => &[INTEGER, INTEGER, OperandClass::AnyText],
            ValueFunction::SubstringFrom => &[INTEGER, OperandClass::AnyText],
        }
    }

    /// The type of its result.
    pub fn result_type(self) -> ResultType
        ensures { result ≡ (function_row self).result }
    {
        match self {
            ValueFunction::IntegerAbsolute => ResultType::Integer,
            ValueFunction::IntegerModulo => ResultType::Integer,
            ValueFunction::DecimalAbsolute => ResultType::AsOperand,
            ValueFunction::DecimalModulo => ResultType::GreaterScale,
            ValueFunction::Floor => ResultType::WholeDecimal,
            ValueFunction::Ceiling => ResultType::WholeDecimal,
            ValueFunction::IsNull => ResultType::Integer,
            ValueFunction::Length => ResultType::Integer,
            ValueFunction::Substring => ResultType::PartOfFirst,
            ValueFunction::SubstringFrom => ResultType::PartOfFirst,
            ValueFunction::Trim => ResultType::PartOfFirst,
        }
    }

    /// What it gives for its operands, the last one last, or its fault.
    pub fn value(self, alloc: Global, operands: &[Value]) -> Result<Value, Stop<Fault>>
        ensures { Says result (function_value self operands.now) }
    {
        match self {
            ValueFunction::IntegerAbsolute => refusing(absolute_of(operands)),
            ValueFunction::IntegerModulo => refusing(remainder_of(operands)),
            ValueFunction::DecimalAbsolute => Ok(without_sign(operands)),
            ValueFunction::DecimalModulo => refusing(decimal_remainder(operands)),
            ValueFunction::Floor => Ok(floored(operands)),
            ValueFunction::Ceiling => Ok(raised(operands)),
            ValueFunction::IsNull => Ok(is_null(operands)),
            ValueFunction::Length => Ok(length(operands)),
            ValueFunction::Substring => substr(alloc, operands),
            ValueFunction::SubstringFrom => substr(alloc, operands),
            ValueFunction::Trim => trim(alloc, operands),
        }
    }
}

fn absolute_of(operands: &[Value]) -> Result<Value, Fault>
    ensures { result ≡ of_one_or_fault absolute_of operands.now }
{
    match operands {
        [a] => absolute(a),
        _ => Ok(Value::Null),
    }
}

fn remainder_of(operands: &[Value]) -> Result<Value, Fault>
    ensures { result ≡ of_two remainder_of operands.now }
{
    match operands {
        [a, b] => remainder(a, b),
        _ => Ok(Value::Null),
    }
}

fn without_sign(operands: &[Value]) -> Value
    ensures { result ≡ of_one (of_decimal decimal.abs) operands.now }
{
    match operands {
        [Value::Dec(d)] => Value::Dec(d.abs()),
        _ => Value::Null,
    }
}

fn decimal_remainder(operands: &[Value]) -> Result<Value, Fault>
    ensures { result ≡ of_two (of_decimals decimal.modulo) operands.now }
{
    match operands {
        [Value::Dec(a), Value::Dec(b)] => decimal_value(a.modulo(*b)),
        _ => Ok(Value::Null),
    }
}

// The greatest whole decimal that is not above it.
fn floored(operands: &[Value]) -> Value
    ensures { result ≡ of_one (of_decimal decimal.floor) operands.now }
{
    match operands {
        [Value::Dec(d)] => Value::Dec(d.floor()),
        _ => Value::Null,
    }
}

// The least whole decimal that is not below it.
fn raised(operands: &[Value]) -> Value
    ensures { result ≡ of_one (of_decimal decimal.ceil) operands.now }
{
    match operands {
        [Value::Dec(d)] => Value::Dec(d.ceil()),
        _ => Value::Null,
    }
}

impl ResultType {
    /// The type for operands of these types, the last one last; None where there are others than the result goes by.
    pub fn of(self, operands: &[Ty]) -> Option<Ty>
        ensures { result ≡ type_by self operands.now }
    {
        match self {
            ResultType::Integer => Some(Ty::BigInt),
            ResultType::WholeDecimal => Some(Ty::Decimal { p: 38, s: 0 }),
            ResultType::AsOperand => match operands {
                [ty] => Some(*ty),
                _ => None,
            },
            ResultType::GreaterScale => greater_scale(operands),
            ResultType::PartOfFirst => match operands {
                [Ty::Char { n }, ..] => Some(Ty::Varchar { n: *n }),
                [Ty::Varchar { n }, ..] => Some(Ty::Varchar { n: *n }),
                _ => None,
            },
        }
    }
}

// A DECIMAL of 38 digits and the greater scale of two.
fn greater_scale(operands: &[Ty]) -> Option<Ty>
    ensures { result ≡ type_by variant.GreaterScale operands.now }
{
    match operands {
        [Ty::Decimal { s, .. }, Ty::Decimal { s: t, .. }] => decimal_of_scale((*s).max(*t)),
        _ => None,
    }
}

// A DECIMAL of 38 digits and a scale, where it is in bounds.
fn decimal_of_scale(s: u8) -> Option<Ty>
    ensures { result ≡ decimal_of_scale s }
{
    if s <= 38 {
        Some(Ty::Decimal { p: 38, s })
    } else {
        None
    }
}

impl Ty {
    /// The greatest number of a text's characters; 0 for a number.
    pub fn text_length(self) -> u16
        ensures { result ≡ text_length self }
    {
        match self {
            Ty::Char { n } | Ty::Varchar { n } => n,
            Ty::BigInt | Ty::Decimal { .. } => 0,
        }
    }
}

impl OperandClass {
    /// Whether an operand of this type is what is needed.
    pub fn takes(self, ty: Ty) -> bool
        ensures { result ≡ is_of_class self ty }
    {
        match self {
            OperandClass::OneType(needed) => needed == ty,
            OperandClass::AnyDecimal => matches!(ty, Ty::Decimal { .. }),
            OperandClass::AnyText => matches!(ty, Ty::Char { .. } | Ty::Varchar { .. }),
            OperandClass::AnyType => true,
        }
    }
}
