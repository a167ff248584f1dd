//! Which of several broken rules is given: that at the least place, and at one place the first kind.
ghost use Rattle.std.specs.Prelude.{◌≡◌};
ghost use Rattle.ds2_names.specs.Refusals.{type_rank, is_same_place, comes_before, first_of_both};
ghost use Rattle.ds2_names.specs.SourceUnit.{is_earlier};
ghost use Rattle.ds2_types.specs.Judgements.{lesser_refusal, ruled, both_of};

use crate::judgement::{Outcome, Pair};
use ds2_base::{Place, Refusal};
use ds2_meaning::TypeKind;

/// A broken rule at a place.
pub fn refusal(kind: TypeKind, place: Place) -> Refusal<TypeKind>
    ensures { result ≡ record { kind = kind; place = place } }
{
    Refusal { kind, place }
}

/// The order of the kinds at one place.
fn rank(kind: TypeKind) -> u8
    ensures { result ≡ type_rank kind }
{
    match kind {
        TypeKind::TypeClash => 0,
        TypeKind::ScaleTooLarge => 1,
        TypeKind::NotTruth => 2,
        TypeKind::NoReturn => 3,
    }
}

/// One place stands before another one.
fn is_earlier(a: Place, b: Place) -> bool
    ensures { result ≡ is_earlier a b }
{
    a.line < b.line || a.line == b.line && a.column < b.column
}

/// Two places are one.
fn is_same_place(a: Place, b: Place) -> bool
    ensures { result ≡ is_same_place a b }
{
    a.line == b.line && a.column == b.column
}

/// One refusal is given before another one.
fn comes_before(a: &Refusal<TypeKind>, b: &Refusal<TypeKind>) -> bool
    ensures { result ≡ comes_before type_rank a.now b.now }
{
    is_earlier(a.place, b.place) || is_same_place(a.place, b.place) && rank(a.kind) <= rank(b.kind)
}

/// The one of two refusals that is given.
pub fn first_of_both(a: Refusal<TypeKind>, b: Option<Refusal<TypeKind>>) -> Refusal<TypeKind>
    ensures { result ≡ first_of_both type_rank a b }
{
    match b {
        None => a,
        Some(b) => { if comes_before(&a, &b) { a } else { b } }
    }
}

/// The one that is given of what two parts have broken.
pub fn lesser(
    a: Option<Refusal<TypeKind>>,
    b: Option<Refusal<TypeKind>>,
) -> Option<Refusal<TypeKind>>
    ensures { result ≡ lesser_refusal a b }
{
    match a {
        None => b,
        Some(a) => Some(first_of_both(a, b)),
    }
}

/// What stands of something once a further rule was looked at.
pub fn ruled(outcome: Outcome, clash: Option<Refusal<TypeKind>>) -> Outcome
    ensures { result ≡ ruled outcome clash }
{
    match outcome {
        Ok(node) => match clash {
            None => Ok(node),
            Some(refusal) => Err(refusal),
        },
        Err(refusal) => Err(first_of_both(refusal, clash)),
    }
}

/// What stands of two operands once a further rule on both was looked at.
pub fn ruled_pair(
    outcome: Result<Pair, Refusal<TypeKind>>,
    clash: Option<Refusal<TypeKind>>,
) -> Result<Pair, Refusal<TypeKind>>
    ensures { result ≡ ruled outcome clash }
{
    match outcome {
        Ok(pair) => match clash {
            None => Ok(pair),
            Some(refusal) => Err(refusal),
        },
        Err(refusal) => Err(first_of_both(refusal, clash)),
    }
}

/// What stands of two operands.
pub fn both(left: Outcome, right: Outcome) -> Result<Pair, Refusal<TypeKind>>
    ensures { result ≡ both_of left right }
{
    match left {
        Ok(left) => match right {
            Ok(right) => Ok(Pair { left, right }),
            Err(refusal) => Err(refusal),
        },
        Err(refusal) => match right {
            Ok(_) => Err(refusal),
            Err(further) => Err(first_of_both(refusal, Some(further))),
        },
    }
}
