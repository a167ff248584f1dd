//! Operators: what operands they take, and what they become.
ghost use Rattle.std.specs.Prelude.{◌≡◌, ◌∷◌, [], IfOk, codes, if◌then◌else◌};
ghost use Rattle.ds2_elaboration.specs.OperatorTypes.{is_times, is_plus, sign_prefix, spelled_comparison, is_known_decimal, type_beside, compared_node, elaborated_sign, elaborated_not, elaborated_comparison};
ghost use Rattle.ds2_elaboration.specs.Typings.{ElaboratedExpression, widened_node};
ghost use Rattle.ds2_token.specs.Words.{is_one_of};
ghost use Rattle.ds2_types.specs.Judgements.{typing_of, node_tree, unbroken, IsJudged, Judges};

use crate::judgement::{Judgement, Node, Typing};
use crate::nodes::{compared, constant, prefixed, widened};
use crate::refusals::{both, ruled, ruled_pair};
use crate::rules::{
    OperandTest, comparison_clash, is_integer, is_numeric, operand_clash, truth_clash,
};
use ds2_base::{OutOfMemory, Place};
use ds2_meaning::Prefix;
use ds2_token::Token;
use ds2_value::{Comparison, Ty, Value};
use std::alloc::Global;

/// `*`, and not `/`.
pub fn is_times(operator: &Token) -> bool
    ensures { result ≡ is_times operator.now }
{
    operator.is_mark("*")
}

/// `+`, and not `-`.
pub fn is_plus(operator: &Token) -> bool
    ensures { result ≡ is_plus operator.now }
{
    operator.is_mark("+")
}

/// The operator that a sign before a value of this type is.
pub fn sign_prefix(operator: &Token, ty: Ty) -> Prefix
    ensures { result ≡ sign_prefix operator.now ty }
{
    if is_plus(operator) {
        Prefix::Plus
    } else if is_integer(ty) {
        Prefix::IntegerNegate
    } else {
        Prefix::DecimalNegate
    }
}

/// A type is known, and a DECIMAL.
pub fn is_known_decimal(typing: Typing) -> bool
    ensures { result ≡ is_known_decimal (typing_of typing) }
{
    match typing {
        Typing::Known(ty) => is_numeric(ty) && !is_integer(ty),
        Typing::NullAt(_) => false,
        Typing::Unknown => false,
    }
}

/// The type that the constant null has beside another operand; BIGINT beside another null.
pub fn type_beside(typing: Typing) -> Ty
    ensures { result ≡ type_beside (typing_of typing) }
{
    match typing {
        Typing::Known(ty) => ty,
        Typing::NullAt(_) => Ty::BigInt,
        Typing::Unknown => Ty::BigInt,
    }
}

/// A sign before a number; it keeps the number's type.
pub fn sign(alloc: Global, operator: &Token, x: Judgement) -> Result<Judgement, OutOfMemory>
    ensures { (e : ElaboratedExpression) → IsJudged e x → Judges (elaborated_sign operator.now e) result }
{
    let clash = operand_clash(OperandTest::Number, operator.place, x.typing);
    match ruled(x.outcome, clash) {
        Err(refusal) => Ok(Judgement {
            typing: Typing::Unknown,
            outcome: Err(refusal),
        }),
        Ok(operand) => {
            let ty = operand.ty;
            let node = prefixed(alloc, sign_prefix(operator, ty), operand, ty)?;
            Ok(Judgement {
                typing: Typing::Known(node.ty),
                outcome: Ok(node),
            })
        }
    }
}

/// `not` before a number, whose first token stands at this place: 1, 0 or null.
pub fn negation(alloc: Global, first_token: Place, x: Judgement) -> Result<Judgement, OutOfMemory>
    ensures { (e : ElaboratedExpression) → IsJudged e x → Judges (elaborated_not first_token e) result }
{
    let clash = truth_clash(first_token, x.typing);
    match ruled(x.outcome, clash) {
        Err(refusal) => Ok(Judgement {
            typing: Typing::Known(Ty::BigInt),
            outcome: Err(refusal),
        }),
        Ok(operand) => {
            let node = prefixed(alloc, Prefix::Not, operand, Ty::BigInt)?;
            Ok(Judgement {
                typing: Typing::Known(Ty::BigInt),
                outcome: Ok(node),
            })
        }
    }
}

/// One of two spellings of an operator: a word or a mark.
fn is_spelled(operator: &Token, word: &str, mark: &str) -> bool
    ensures { result ≡ is_one_of (word.now ∷ []) (mark.now ∷ []) operator.now }
{
    operator.is_word(word) || operator.is_mark(mark)
}

/// The spellings of `^=`.
fn is_not_equal(operator: &Token) -> bool
    ensures { result ≡ is_one_of (codes "ne" ∷ []) (codes "^=" ∷ codes "~=" ∷ []) operator.now }
{
    operator.is_word("ne") || operator.is_mark("^=") || operator.is_mark("~=")
}

/// The comparison that an operator spells.
pub fn spelled_comparison(operator: &Token) -> Comparison
    ensures { result ≡ spelled_comparison operator.now }
{
    if is_spelled(operator, "eq", "=") {
        Comparison::Equal
    } else if is_not_equal(operator) {
        Comparison::NotEqual
    } else if is_spelled(operator, "lt", "<") {
        Comparison::Less
    } else if is_spelled(operator, "le", "<=") {
        Comparison::LessOrEqual
    } else if is_spelled(operator, "gt", ">") {
        Comparison::Greater
    } else {
        Comparison::GreaterOrEqual
    }
}

/// An operand of a comparison beside another one: null has that one's type, and beside a DECIMAL a BIGINT is widened.
pub fn compared_operand(
    alloc: Global,
    operand: Node,
    own: Typing,
    other: Typing,
) -> Result<Node, OutOfMemory>
    ensures { IfOk result (λ n. node_tree n ≡ compared_node (unbroken (typing_of own) (node_tree operand)) (typing_of other)) }
{
    match own {
        Typing::NullAt(_) => constant(alloc, Value::Null, type_beside(other)),
        Typing::Known(_) => widened_beside(alloc, operand, other),
        Typing::Unknown => widened_beside(alloc, operand, other),
    }
}

/// An operand beside another one: a BIGINT beside a DECIMAL is widened.
fn widened_beside(alloc: Global, operand: Node, other: Typing) -> Result<Node, OutOfMemory>
    ensures { IfOk result (λ n. node_tree n ≡ (if is_known_decimal (typing_of other) then widened_node (node_tree operand) else node_tree operand)) }
{
    if is_known_decimal(other) {
        widened(alloc, operand)
    } else {
        Ok(operand)
    }
}

/// A comparison of two numbers or two texts, either of which may be null: 1, 0 or null.
pub fn comparison(
    alloc: Global,
    operator: &Token,
    a: Judgement,
    b: Judgement,
) -> Result<Judgement, OutOfMemory>
    ensures { (x y : ElaboratedExpression) → IsJudged x a → IsJudged y b → Judges (elaborated_comparison operator.now x y) result }
{
    let own = a.typing;
    let other = b.typing;
    let clash = comparison_clash(operator.place, own, other);
    match ruled_pair(both(a.outcome, b.outcome), clash) {
        Err(refusal) => Ok(Judgement {
            typing: Typing::Known(Ty::BigInt),
            outcome: Err(refusal),
        }),
        Ok(pair) => {
            let left = compared_operand(alloc, pair.left, own, other)?;
            let right = compared_operand(alloc, pair.right, other, own)?;
            let node = compared(alloc, spelled_comparison(operator), left, right)?;
            Ok(Judgement {
                typing: Typing::Known(Ty::BigInt),
                outcome: Ok(node),
            })
        }
    }
}
