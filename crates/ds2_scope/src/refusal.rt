//! The refusal of a unit's names, from the earliest place at which each rule is broken.
ghost use Rattle.std.specs.Prelude.{◌≡◌};
ghost use Rattle.ds2_names.specs.Refusals.{scope_rank, is_same_place, comes_before};
ghost use Rattle.ds2_scope.specs.Lesser.{lesser, refused_first, first_refusal};

use crate::earliest::is_earlier;
use ds2_base::{Place, Refusal};
use ds2_meaning::ScopeKind;

/// For each rule of names the earliest place at which it is broken, None where it is not.
#[derive(Clone, Copy)]
pub struct BrokenRules {
    pub unknown_name: Option<Place>,
    pub duplicate_name: Option<Place>,
    pub unknown_method: Option<Place>,
    pub wrong_count: Option<Place>,
    pub not_variable: Option<Place>,
    pub aliased_argument: Option<Place>,
    pub too_many_names: Option<Place>,
    pub bad_number: Option<Place>,
    pub misplaced: Option<Place>,
    pub no_columns: Option<Place>,
    /// The limits over a whole source, which are of the kind TooManyNames too.
    pub source_limit: Option<Place>,
}

// The number of a kind in the order of the kinds.
fn rank(kind: ScopeKind) -> u32
    ensures { result ≡ scope_rank kind }
{
    match kind {
        ScopeKind::UnknownName => 0,
        ScopeKind::DuplicateName => 1,
        ScopeKind::UnknownMethod => 2,
        ScopeKind::WrongCount => 3,
        ScopeKind::NotVariable => 4,
        ScopeKind::AliasedArgument => 5,
        ScopeKind::TooManyNames => 6,
        ScopeKind::BadNumber => 7,
        ScopeKind::Misplaced => 8,
        ScopeKind::NoColumns => 9,
    }
}

// Whether two places are one.
fn is_same_place(a: Place, b: Place) -> bool
    ensures { result ≡ is_same_place a b }
{
    a.line == b.line && a.column == b.column
}

// Whether a refusal comes before another one.
fn comes_before(a: &Refusal<ScopeKind>, b: &Refusal<ScopeKind>) -> bool
    ensures { result ≡ comes_before scope_rank a.now b.now }
{
    is_earlier(a.place, b.place) || is_same_place(a.place, b.place) && rank(a.kind) <= rank(b.kind)
}

// The one of two refusals that is given, where there are some.
fn lesser(
    first: Option<Refusal<ScopeKind>>,
    other: Option<Refusal<ScopeKind>>,
) -> Option<Refusal<ScopeKind>>
    ensures { result ≡ lesser first other }
{
    match first {
        None => other,
        Some(a) => match other {
            None => Some(a),
            Some(b) => {
                if comes_before(&a, &b) {
                    Some(a)
                } else {
                    Some(b)
                }
            }
        },
    }
}

// The refusal of a rule that is broken first at a place, where it is broken.
fn refused_first(kind: ScopeKind, place: Option<Place>) -> Option<Refusal<ScopeKind>>
    ensures { result ≡ refused_first kind place }
{
    match place {
        None => None,
        Some(place) => Some(Refusal { kind, place }),
    }
}

impl BrokenRules {
    /// The refusal that is given: that of the least place, and at one place that of the first kind; None where no rule is broken.
    pub fn first(&self) -> Option<Refusal<ScopeKind>>
        ensures { result ≡ first_refusal self.now }
    {
        let last = refused_first(ScopeKind::NoColumns, self.no_columns);
        let last = lesser(refused_first(ScopeKind::Misplaced, self.misplaced), last);
        let last = lesser(refused_first(ScopeKind::BadNumber, self.bad_number), last);
        let last = lesser(
            refused_first(ScopeKind::TooManyNames, self.too_many_names),
            last,
        );
        let last = lesser(
            refused_first(ScopeKind::AliasedArgument, self.aliased_argument),
            last,
        );
        let last = lesser(
            refused_first(ScopeKind::NotVariable, self.not_variable),
            last,
        );
        let last = lesser(refused_first(ScopeKind::WrongCount, self.wrong_count), last);
        let last = lesser(
            refused_first(ScopeKind::UnknownMethod, self.unknown_method),
            last,
        );
        let last = lesser(
            refused_first(ScopeKind::DuplicateName, self.duplicate_name),
            last,
        );
        let all = lesser(
            refused_first(ScopeKind::UnknownName, self.unknown_name),
            last,
        );
        lesser(
            all,
            refused_first(ScopeKind::TooManyNames, self.source_limit),
        )
    }
}
