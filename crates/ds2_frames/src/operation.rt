//! What stands in the place of operands.
ghost use Rattle.std.specs.Prelude.{◌≡◌, ◌∷◌, [], IsTrue, length, Some, Ok, false};
ghost use Rattle.std.specs.Option.{is_some};
ghost use Rattle.ds2_base.specs.Says.{Says};
ghost use Rattle.ds2_value.specs.Operations.{truth_value, or_null_at_fault};
ghost use Rattle.ds2_value.specs.Types.{in_bounds, assign_of};
ghost use Rattle.ds2_value.specs.declared.ty.Ty.TheVariants.{Char, Varchar};
ghost use Rattle.ds2_code.specs.InstructionTable.{kind_of};
ghost use Rattle.ds2_frames.specs.OperationKinds.{goes_by_list, has_scales_for, has_type_in_bounds, operation_operands, operation_result};

use crate::choices::{first, greatest, least};
use crate::decimals::{
    decimal_difference, decimal_product, decimal_sum, negated, quotient, widened,
};
use crate::lines::shown;
use ds2_base::{Stop, refusing};
use ds2_code::Instr;
use ds2_value::{
    Fault, Truth, Ty, Value, and, assign, compared, concat, difference, negative, not, or, product,
    sum,
};
use std::alloc::Global;

/// How many operands an operation takes.
#[inline]
pub fn operands_of(instr: Instr) -> usize
    requires { IsTrue (is_some (operation_operands (kind_of instr))) }
    ensures { operation_operands (kind_of instr) ≡ Some result }
{
    match instr {
        Instr::Null(_) => 0,
        Instr::IToD => 1,
        Instr::Rescale(_, _) => 1,
        Instr::Pad(_) => 1,
        Instr::Cut(_) => 1,
        Instr::INeg => 1,
        Instr::DNeg => 1,
        Instr::Not => 1,
        Instr::ITruth => 1,
        Instr::DTruth => 1,
        Instr::Show => 1,
        Instr::Apply(function) => function.operands().len(),
        Instr::Choose(n) => n as usize,
        Instr::Least(n) => n as usize,
        Instr::Greatest(n) => n as usize,
        _ => 2,
    }
}

/// What an operation gives for its operands, the last one on top.
#[inline]
pub fn computed(alloc: Global, instr: Instr, operands: &[Value]) -> Result<Value, Stop<Fault>>
    requires scales { IsTrue (has_scales_for instr operands.now) }
    requires bounds { IsTrue (has_type_in_bounds instr) }
    requires operands { operation_operands (kind_of instr) ≡ Some (length operands.now) }
    ensures { Says result (operation_result (kind_of instr) operands.now) }
{
    match instr {
        Instr::Apply(function) => function.value(alloc, operands),
        Instr::Choose(_) => Ok(first(alloc, operands)?),
        Instr::Least(_) => Ok(least(alloc, operands)?),
        Instr::Greatest(_) => Ok(greatest(alloc, operands)?),
        Instr::Cat => concat(alloc, operands),
        Instr::Show => shown(alloc, operands),
        _ => computed_from_few(alloc, instr, operands),
    }
}

// What an operation on none, one or two values gives.
#[inline]
fn computed_from_few(alloc: Global, instr: Instr, operands: &[Value]) -> Result<Value, Stop<Fault>>
    requires few { goes_by_list instr ≡ false }
    requires scales { IsTrue (has_scales_for instr operands.now) }
    requires bounds { IsTrue (has_type_in_bounds instr) }
    requires operands { operation_operands (kind_of instr) ≡ Some (length operands.now) }
    ensures { Says result (operation_result (kind_of instr) operands.now) }
{
    match operands {
        [a] => computed_from_one(alloc, instr, a),
        [a, b] => refusing(computed_from_two(instr, a, b)),
        _ => Ok(Value::Null),
    }
}

// What an operation on one value gives.
#[inline]
fn computed_from_one(alloc: Global, instr: Instr, a: &Value) -> Result<Value, Stop<Fault>>
    requires few { goes_by_list instr ≡ false }
    requires bounds { IsTrue (has_type_in_bounds instr) }
    requires operands { operation_operands (kind_of instr) ≡ Some 1 }
    ensures { Says result (operation_result (kind_of instr) (a.now ∷ [])) }
{
    match instr {
        Instr::IToD => Ok(widened(a)),
        Instr::Rescale(p, s) => assign(alloc, a, Ty::Decimal { p, s }),
        Instr::Pad(n) => padded(alloc, a, n),
        Instr::Cut(n) => cut(alloc, a, n),
        Instr::INeg => refusing(negative(a)),
        Instr::DNeg => Ok(negated(a)),
        Instr::Not => Ok(truth_value(not(a.truth()))),
        Instr::ITruth => Ok(truth_value(a.truth())),
        Instr::DTruth => Ok(truth_value(a.truth())),
        _ => Ok(Value::Null),
    }
}

/// What an operation that goes by each of two values gives for its two operands, the last one on top. Takes no memory.
#[inline]
pub fn computed_from_pair(instr: Instr, operands: &[Value]) -> Result<Value, Fault>
    requires few { goes_by_list instr ≡ false }
    requires scales { IsTrue (has_scales_for instr operands.now) }
    requires operands { operation_operands (kind_of instr) ≡ Some 2 }
    requires two { length operands.now ≡ 2 }
    ensures { result ≡ operation_result (kind_of instr) operands.now }
{
    match operands {
        [a, b] => computed_from_two(instr, a, b),
        _ => unreachable!(),
    }
}

// What an operation on two values gives.
#[inline]
fn computed_from_two(instr: Instr, a: &Value, b: &Value) -> Result<Value, Fault>
    requires few { goes_by_list instr ≡ false }
    requires scales { IsTrue (has_scales_for instr (a.now ∷ b.now ∷ [])) }
    requires operands { operation_operands (kind_of instr) ≡ Some 2 }
    ensures { result ≡ operation_result (kind_of instr) (a.now ∷ b.now ∷ []) }
{
    match instr {
        Instr::IAdd => sum(a, b),
        Instr::ISub => difference(a, b),
        Instr::IMul => product(a, b),
        Instr::ICmp(comparison) => Ok(compared(comparison, a, b)),
        Instr::DCmp(comparison) => Ok(compared(comparison, a, b)),
        Instr::TCmp(comparison) => Ok(compared(comparison, a, b)),
        Instr::And => Ok(truth_value(and(a.truth(), b.truth()))),
        Instr::Or => Ok(truth_value(or(a.truth(), b.truth()))),
        Instr::DAdd => decimal_sum(a, b),
        Instr::DSub => decimal_difference(a, b),
        Instr::DMul => decimal_product(a, b),
        Instr::DDiv => quotient(a, b),
        _ => Ok(Value::Null),
    }
}

// A text in CHAR(n).
fn padded(alloc: Global, v: &Value, n: u16) -> Result<Value, Stop<Fault>>
    requires { IsTrue (in_bounds (Char n)) }
    ensures { Says result (Ok (or_null_at_fault (assign_of v.now (Char n)))) }
{
    assign(alloc, v, Ty::Char { n })
}

// A text in VARCHAR(n).
fn cut(alloc: Global, v: &Value, n: u16) -> Result<Value, Stop<Fault>>
    requires { IsTrue (in_bounds (Varchar n)) }
    ensures { Says result (Ok (or_null_at_fault (assign_of v.now (Varchar n)))) }
{
    assign(alloc, v, Ty::Varchar { n })
}

// A truth as a value.
#[inline]
fn truth_value(truth: Truth) -> Value
    ensures { result ≡ truth_value truth }
{
    match truth {
        Truth::Yes => Value::Int(1),
        Truth::No => Value::Int(0),
        Truth::Unknown => Value::Null,
    }
}
