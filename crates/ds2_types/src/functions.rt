//! Functions: what arguments they take, and what they become.
ghost use Rattle.std.specs.Prelude.{◌≡◌, IfOk, is_some};
ghost use Rattle.ds2_elaboration.specs.FunctionTypes.{ElaboratedArgument, function_for, type_of_one, one_node, is_of_integers, broken_typing, elaborated_of_one, remainder_node, elaborated_remainder};
ghost use Rattle.ds2_elaboration.specs.Typings.{operand_clash};
ghost use Rattle.ds2_meaning.specs.IsTyped.{type_scale, type_width};
ghost use Rattle.ds2_types.specs.Judgements.{first_type_refusal, typing_of, node_tree, IsJudged, Judges};

use crate::judgement::{Judgement, Node, Pair, Typing};
use crate::nodes::{applied_to_one, applied_to_two, widened};
use crate::refusals::{both, ruled};
use crate::rules::{OperandTest, clash_unless, is_integer, null_clash, operand_clash};
use ds2_base::{OutOfMemory, Place, Refusal};
use ds2_meaning::{Function, TypeKind};
use ds2_names::ByType;
use ds2_value::{ResultType, Ty, ValueFunction};
use std::alloc::Global;

/// How many digits a number has behind the point; none where it is a BIGINT.
pub fn scale(ty: Ty) -> u8
    ensures { result ≡ type_scale ty }
{
    match ty {
        Ty::Decimal { s, .. } => s,
        Ty::BigInt => 0,
        Ty::Char { .. } => 0,
        Ty::Varchar { .. } => 0,
    }
}

/// The most characters of a text.
pub fn width(ty: Ty) -> u16
    ensures { result ≡ type_width ty }
{
    match ty {
        Ty::Char { n } => n,
        Ty::Varchar { n } => n,
        Ty::BigInt => 0,
        Ty::Decimal { .. } => 0,
    }
}

/// What a function is for a value of this type, where it takes one.
pub fn function_for(by_type: ByType, ty: Ty) -> Option<Function>
    ensures { result ≡ function_for by_type ty }
{
    match ty {
        Ty::BigInt => by_type.integer,
        Ty::Decimal { .. } => by_type.decimal,
        Ty::Char { .. } => by_type.text,
        Ty::Varchar { .. } => by_type.text,
    }
}

// The type of a function's value for a value of this type, which it takes.
fn type_of_one(function: Function, ty: Ty) -> Ty
    ensures { result ≡ type_of_one function ty }
{
    match function {
        Function::Value(function) => function.result_type().of(&[ty]).unwrap_or(Ty::BigInt),
        Function::Coalesce => ty,
        Function::Least => ty,
        Function::Greatest => ty,
        Function::Unchanged => ty,
    }
}

// A function of a typed value.
fn one_node(alloc: Global, by_type: ByType, operand: Node) -> Result<Node, OutOfMemory>
    ensures { IfOk result (λ n. node_tree n ≡ one_node by_type (node_tree operand)) }
{
    let ty = operand.ty;
    let function = function_for(by_type, ty).unwrap_or(Function::Unchanged);
    applied_to_one(alloc, function, operand, type_of_one(function, ty))
}

// Whether a function's value is a BIGINT, where the function is there.
fn is_of_integers(function: Option<Function>) -> bool
    ensures { result ≡ is_of_integers function }
{
    match function {
        Some(Function::Value(function)) => { matches!(function.result_type(), ResultType::Integer) }
        Some(_) => false,
        None => true,
    }
}

// What is known of the type of a function of one value where a rule is broken in it.
fn broken_typing(by_type: ByType) -> Typing
    ensures { typing_of result ≡ broken_typing by_type }
{
    if is_of_integers(by_type.integer)
        && is_of_integers(by_type.decimal)
        && is_of_integers(by_type.text)
    {
        Typing::Known(Ty::BigInt)
    } else {
        Typing::Unknown
    }
}

// An operand of a type that a function takes, else TypeClash at its name; null may not stand there, which is TypeClash at its word.
fn type_clash(by_type: ByType, name: Place, typing: Typing) -> Option<Refusal<TypeKind>>
    ensures { result ≡ first_type_refusal (operand_clash (λ ty. is_some (function_for by_type ty)) name (typing_of typing)) }
{
    match typing {
        Typing::Known(ty) => clash_unless(function_for(by_type, ty).is_some(), name),
        Typing::NullAt(word) => null_clash(Typing::NullAt(word)),
        Typing::Unknown => None,
    }
}

/// A function of one value, of a type that it takes.
pub fn of_one(
    alloc: Global,
    by_type: ByType,
    name: Place,
    x: Judgement,
) -> Result<Judgement, OutOfMemory>
    ensures { (e : ElaboratedArgument) → IsJudged e.value x → Judges (elaborated_of_one by_type name e) result }
{
    let clash = type_clash(by_type, name, x.typing);
    match ruled(x.outcome, clash) {
        Err(refusal) => Ok(Judgement {
            typing: broken_typing(by_type),
            outcome: Err(refusal),
        }),
        Ok(operand) => {
            let node = one_node(alloc, by_type, operand)?;
            Ok(Judgement {
                typing: Typing::Known(node.ty),
                outcome: Ok(node),
            })
        }
    }
}

/// `mod(a, b)` of two typed numbers.
fn remainder_node(alloc: Global, pair: Pair) -> Result<Node, OutOfMemory>
    ensures { IfOk result (λ n. node_tree n ≡ remainder_node (node_tree pair.left) (node_tree pair.right)) }
{
    let Pair { left, right } = pair;
    if is_integer(left.ty) && is_integer(right.ty) {
        return applied_to_two(
            alloc,
            Function::Value(ValueFunction::IntegerModulo),
            left,
            right,
            Ty::BigInt,
        );
    }
    let s = scale(left.ty).max(scale(right.ty));
    let left = widened(alloc, left)?;
    let right = widened(alloc, right)?;
    applied_to_two(
        alloc,
        Function::Value(ValueFunction::DecimalModulo),
        left,
        right,
        Ty::Decimal { p: 38, s },
    )
}

/// `mod(a, b)`: of BIGINT values a BIGINT; with a DECIMAL the greater of the two scales.
pub fn remainder(
    alloc: Global,
    name: Place,
    a: Judgement,
    b: Judgement,
) -> Result<Judgement, OutOfMemory>
    ensures { (x y : ElaboratedArgument) → IsJudged x.value a → IsJudged y.value b → Judges (elaborated_remainder name x y) result }
{
    let left = ruled(
        a.outcome,
        operand_clash(OperandTest::Number, name, a.typing),
    );
    let right = ruled(
        b.outcome,
        operand_clash(OperandTest::Number, name, b.typing),
    );
    match both(left, right) {
        Err(refusal) => Ok(Judgement {
            typing: Typing::Unknown,
            outcome: Err(refusal),
        }),
        Ok(pair) => {
            let node = remainder_node(alloc, pair)?;
            Ok(Judgement {
                typing: Typing::Known(node.ty),
                outcome: Ok(node),
            })
        }
    }
}
