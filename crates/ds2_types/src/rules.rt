//! Rules that several forms have.
ghost use Rattle.std.specs.Prelude.{◌≡◌};
ghost use Rattle.ds2_value.specs.Types.{same_ty};
ghost use Rattle.ds2_elaboration.specs.Typings.{is_numeric_type, is_characters, is_integer_type, are_comparable, is_assigned_from, clash_unless, null_clash, operand_clash};
ghost use Rattle.ds2_types.specs.Judgements.{typing_of, passes, first_type_refusal, truth_clash, assigned_clash, comparison_clash};

use crate::judgement::Typing;
use crate::refusals::refusal;
use ds2_base::{Place, Refusal};
use ds2_meaning::TypeKind;
use ds2_value::Ty;

/// BIGINT and DECIMAL are numbers.
pub fn is_numeric(ty: Ty) -> bool
    ensures { result ≡ is_numeric_type ty }
{
    match ty {
        Ty::BigInt => true,
        Ty::Decimal { .. } => true,
        Ty::Char { .. } => false,
        Ty::Varchar { .. } => false,
    }
}

/// CHAR and VARCHAR are texts.
pub fn is_characters(ty: Ty) -> bool
    ensures { result ≡ is_characters ty }
{
    match ty {
        Ty::Char { .. } => true,
        Ty::Varchar { .. } => true,
        Ty::BigInt => false,
        Ty::Decimal { .. } => false,
    }
}

/// BIGINT.
pub fn is_integer(ty: Ty) -> bool
    ensures { result ≡ is_integer_type ty }
{
    match ty {
        Ty::BigInt => true,
        Ty::Decimal { .. } => false,
        Ty::Char { .. } => false,
        Ty::Varchar { .. } => false,
    }
}

/// Two types are the same one.
pub fn is_one(a: Ty, b: Ty) -> bool
    ensures { result ≡ same_ty a b }
{
    match a {
        Ty::BigInt => matches!(b, Ty::BigInt),
        Ty::Decimal { p, s } => match b {
            Ty::Decimal { p: q, s: t } => p == q && s == t,
            Ty::BigInt => false,
            Ty::Char { .. } => false,
            Ty::Varchar { .. } => false,
        },
        Ty::Char { n } => match b {
            Ty::Char { n: m } => n == m,
            Ty::BigInt => false,
            Ty::Decimal { .. } => false,
            Ty::Varchar { .. } => false,
        },
        Ty::Varchar { n } => match b {
            Ty::Varchar { n: m } => n == m,
            Ty::BigInt => false,
            Ty::Decimal { .. } => false,
            Ty::Char { .. } => false,
        },
    }
}

/// Both types are numbers, or both are texts.
pub fn are_comparable(a: Ty, b: Ty) -> bool
    ensures { result ≡ are_comparable a b }
{
    is_numeric(a) && is_numeric(b) || is_characters(a) && is_characters(b)
}

/// A value of the type `from` may be assigned to a variable of the type `to`: BIGINT to BIGINT, numbers to a DECIMAL, texts to
/// a text.
pub fn is_assigned_from(to: Ty, from: Ty) -> bool
    ensures { result ≡ is_assigned_from to from }
{
    match to {
        Ty::BigInt => is_integer(from),
        Ty::Decimal { .. } => is_numeric(from),
        Ty::Char { .. } => is_characters(from),
        Ty::Varchar { .. } => is_characters(from),
    }
}

/// What types an operand may have.
#[derive(Clone, Copy, PartialEq, Eq)]
pub enum OperandTest {
    /// BIGINT and DECIMAL.
    Number,
    /// CHAR and VARCHAR.
    Characters,
    /// BIGINT.
    Integer,
}

impl OperandTest {
    /// Whether an operand may have this type.
    pub fn passes(self, ty: Ty) -> bool
        ensures { result ≡ passes self ty }
    {
        match self {
            OperandTest::Number => is_numeric(ty),
            OperandTest::Characters => is_characters(ty),
            OperandTest::Integer => is_integer(ty),
        }
    }
}

/// A test on the types of arguments, else TypeClash at the function's name.
#[derive(Clone, Copy, PartialEq, Eq)]
pub struct ArgumentRule {
    pub test: OperandTest,
    pub name: Place,
}

/// TypeClash at a place, where something does not hold.
pub fn clash_unless(holds: bool, place: Place) -> Option<Refusal<TypeKind>>
    ensures { result ≡ first_type_refusal (clash_unless holds place) }
{
    if holds {
        None
    } else {
        Some(refusal(TypeKind::TypeClash, place))
    }
}

/// The constant null may not stand here: TypeClash at its word.
pub fn null_clash(typing: Typing) -> Option<Refusal<TypeKind>>
    ensures { result ≡ first_type_refusal (null_clash (typing_of typing)) }
{
    match typing {
        Typing::NullAt(place) => Some(refusal(TypeKind::TypeClash, place)),
        Typing::Known(_) => None,
        Typing::Unknown => None,
    }
}

/// An operand whose type passes a test, else TypeClash at a place; null may not stand there, which is TypeClash at its word.
pub fn operand_clash(test: OperandTest, place: Place, typing: Typing) -> Option<Refusal<TypeKind>>
    ensures { result ≡ first_type_refusal (operand_clash (passes test) place (typing_of typing)) }
{
    match typing {
        Typing::Known(ty) => clash_unless(test.passes(ty), place),
        Typing::NullAt(word) => Some(refusal(TypeKind::TypeClash, word)),
        Typing::Unknown => None,
    }
}

/// A condition that is a text is NotTruth at its first token; null may not stand there, which is TypeClash at its word.
pub fn truth_clash(first_token: Place, typing: Typing) -> Option<Refusal<TypeKind>>
    ensures { result ≡ first_type_refusal (truth_clash first_token (typing_of typing)) }
{
    match typing {
        Typing::Known(ty) => {
            if is_numeric(ty) {
                None
            } else {
                Some(refusal(TypeKind::NotTruth, first_token))
            }
        }
        Typing::NullAt(word) => Some(refusal(TypeKind::TypeClash, word)),
        Typing::Unknown => None,
    }
}

/// A value whose type may not be assigned to this one is TypeClash at a place; null may stand there.
pub fn assigned_clash(ty: Ty, place: Place, typing: Typing) -> Option<Refusal<TypeKind>>
    ensures { result ≡ first_type_refusal (assigned_clash ty place (typing_of typing)) }
{
    match typing {
        Typing::Known(from) => clash_unless(is_assigned_from(ty, from), place),
        Typing::NullAt(_) => None,
        Typing::Unknown => None,
    }
}

/// Two compared operands are both numbers or both texts, else TypeClash at the operator; either may be null.
pub fn comparison_clash(operator: Place, a: Typing, b: Typing) -> Option<Refusal<TypeKind>>
    ensures { result ≡ first_type_refusal (comparison_clash operator (typing_of a) (typing_of b)) }
{
    match a {
        Typing::Known(x) => match b {
            Typing::Known(y) => clash_unless(are_comparable(x, y), operator),
            Typing::NullAt(_) => None,
            Typing::Unknown => None,
        },
        Typing::NullAt(_) => None,
        Typing::Unknown => None,
    }
}
