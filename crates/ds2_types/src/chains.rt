//! The further operands of a chain of operators.
ghost use Rattle.std.specs.Prelude.{◌≡◌, ◌+◌, ◌≤◌, IfOk, if◌then◌else◌};
ghost use Rattle.ds2_elaboration.specs.OperatorTypes.{are_integer_types, is_plus, plain_link, decimal_link, sum_link, product_link, quotient_link, concatenation_link, elaborated_link, scale_refusals, pair_refusals, is_operand_type};
ghost use Rattle.ds2_elaboration.specs.Typings.{operand_clash, where_both_known};
ghost use Rattle.ds2_meaning.specs.declared.expressions.Operation.TheVariants as operation;
ghost use Rattle.ds2_types.specs.Judgements.{first_type_refusal, typing_of, passes, node_tree, link_of};

use crate::functions::{scale, width};
use crate::judgement::{Node, Typing};
use crate::nodes::widened;
use crate::operators::{is_plus, is_times};
use crate::refusals::refusal;
use crate::rules::{OperandTest, is_integer, is_numeric};
use ds2_base::{OutOfMemory, Refusal};
use ds2_meaning::{Link, Operation, TypeKind};
use ds2_token::Token;
use ds2_tree::ChainKind;
use ds2_value::{TEXT_CHARACTERS, Ty};
use std::alloc::Global;

/// Both types are BIGINT.
fn are_integers(a: Ty, b: Ty) -> bool
    ensures { result ≡ are_integer_types a b }
{
    is_integer(a) && is_integer(b)
}

/// A product with a DECIMAL has as many digits behind the point as both operands together, at most 38; else ScaleTooLarge.
fn scale_clash(operator: &Token, a: Ty, b: Ty) -> Option<Refusal<TypeKind>>
    ensures { result ≡ first_type_refusal (scale_refusals operator.now a b) }
{
    if !is_times(operator) || are_integers(a, b) || scale(a) as u16 + scale(b) as u16 <= 38 {
        None
    } else {
        Some(refusal(TypeKind::ScaleTooLarge, operator.place))
    }
}

/// What an operator of a chain refuses of two types together, where both are known: a product of numbers with too many digits
/// behind the point.
pub fn pair_clash(
    kind: ChainKind,
    operator: &Token,
    left: Typing,
    right: Typing,
) -> Option<Refusal<TypeKind>>
    ensures { result ≡ first_type_refusal (where_both_known (typing_of left) (typing_of right) (pair_refusals kind operator.now)) }
{
    match left {
        Typing::Known(a) => match right {
            Typing::Known(b) => known_pair_clash(kind, operator, a, b),
            Typing::NullAt(_) => None,
            Typing::Unknown => None,
        },
        Typing::NullAt(_) => None,
        Typing::Unknown => None,
    }
}

/// What an operator of a chain refuses of two types together.
fn known_pair_clash(kind: ChainKind, operator: &Token, a: Ty, b: Ty) -> Option<Refusal<TypeKind>>
    ensures { result ≡ first_type_refusal (pair_refusals kind operator.now a b) }
{
    match kind {
        ChainKind::Product => {
            if is_numeric(a) && is_numeric(b) {
                scale_clash(operator, a, b)
            } else {
                None
            }
        }
        ChainKind::Sum => None,
        ChainKind::Concatenation => None,
        ChainKind::And => None,
        ChainKind::Or => None,
    }
}

/// What types the operands of a chain may have: `||` takes texts, the others numbers.
pub fn operand_test(kind: ChainKind) -> OperandTest
    ensures { passes result ≡ is_operand_type kind }
{
    match kind {
        ChainKind::Concatenation => OperandTest::Characters,
        ChainKind::Sum => OperandTest::Number,
        ChainKind::Product => OperandTest::Number,
        ChainKind::And => OperandTest::Number,
        ChainKind::Or => OperandTest::Number,
    }
}

/// An operation whose operands are taken as they are.
pub fn plain_link(operation: Operation, operand: Node, ty: Ty) -> Link
    ensures { link_of result ≡ plain_link operation (node_tree operand) ty }
{
    Link {
        widens: false,
        operation,
        operand: Box::into_inner(operand.tree),
        ty,
    }
}

/// An operation on decimals: a BIGINT on either side is widened.
fn decimal_link(
    alloc: Global,
    operation: Operation,
    left: Ty,
    operand: Node,
    s: u8,
) -> Result<Link, OutOfMemory>
    ensures { IfOk result (λ l. link_of l ≡ decimal_link operation left (node_tree operand) s) }
{
    let operand = widened(alloc, operand)?;
    Ok(Link {
        widens: is_integer(left),
        operation,
        operand: Box::into_inner(operand.tree),
        ty: Ty::Decimal { p: 38, s },
    })
}

/// `+` or `-`: of BIGINT values exact; with a DECIMAL the greater of the two scales.
fn sum_link(alloc: Global, operator: &Token, left: Ty, operand: Node) -> Result<Link, OutOfMemory>
    ensures { IfOk result (λ l. link_of l ≡ sum_link operator.now left (node_tree operand)) }
{
    let right = operand.ty;
    if are_integers(left, right) {
        return Ok(plain_link(integer_sum(operator), operand, Ty::BigInt));
    }
    decimal_link(
        alloc,
        decimal_sum(operator),
        left,
        operand,
        scale(left).max(scale(right)),
    )
}

/// The operation that `+` or `-` is on BIGINT values.
fn integer_sum(operator: &Token) -> Operation
    ensures { result ≡ (if is_plus operator.now then operation.IntegerAdd else operation.IntegerSubtract) }
{
    if is_plus(operator) {
        Operation::IntegerAdd
    } else {
        Operation::IntegerSubtract
    }
}

/// The operation that `+` or `-` is on decimals.
fn decimal_sum(operator: &Token) -> Operation
    ensures { result ≡ (if is_plus operator.now then operation.DecimalAdd else operation.DecimalSubtract) }
{
    if is_plus(operator) {
        Operation::DecimalAdd
    } else {
        Operation::DecimalSubtract
    }
}

/// `*`: of BIGINT values exact; with a DECIMAL the sum of the two scales. More digits behind the point than a type can hold
/// are want of memory; sound operands have 38 at the most together.
fn product_link(alloc: Global, left: Ty, operand: Node) -> Result<Link, OutOfMemory>
    ensures { IfOk result (λ l. link_of l ≡ product_link left (node_tree operand)) }
{
    let right = operand.ty;
    if are_integers(left, right) {
        return Ok(plain_link(Operation::IntegerMultiply, operand, Ty::BigInt));
    }
    match scale(left).checked_add(scale(right)) {
        Some(s) => decimal_link(alloc, Operation::DecimalMultiply, left, operand, s),
        None => Err(OutOfMemory),
    }
}

/// `/` is of decimals always: at least 6 digits behind the point.
fn quotient_link(alloc: Global, left: Ty, operand: Node) -> Result<Link, OutOfMemory>
    ensures { IfOk result (λ l. link_of l ≡ quotient_link left (node_tree operand)) }
{
    let s = 6u8.max(scale(left).max(scale(operand.ty)));
    decimal_link(alloc, Operation::DecimalDivide, left, operand, s)
}

/// `||`: as many characters as both together, at most 1,024.
fn concatenation_link(left: Ty, operand: Node) -> Link
    ensures { link_of result ≡ concatenation_link left (node_tree operand) }
{
    let n = TEXT_CHARACTERS.min(width(left).saturating_add(width(operand.ty)));
    plain_link(Operation::Concatenate, operand, Ty::Varchar { n })
}

/// A further operand of a chain, behind operands of this type.
pub fn link(
    alloc: Global,
    kind: ChainKind,
    operator: &Token,
    left: Ty,
    operand: Node,
) -> Result<Link, OutOfMemory>
    ensures { IfOk result (λ l. link_of l ≡ elaborated_link kind operator.now left (node_tree operand)) }
{
    match kind {
        ChainKind::Sum => sum_link(alloc, operator, left, operand),
        ChainKind::Product => {
            if is_times(operator) {
                product_link(alloc, left, operand)
            } else {
                quotient_link(alloc, left, operand)
            }
        }
        ChainKind::Concatenation => Ok(concatenation_link(left, operand)),
        ChainKind::And => Ok(plain_link(Operation::And, operand, Ty::BigInt)),
        ChainKind::Or => Ok(plain_link(Operation::Or, operand, Ty::BigInt)),
    }
}
