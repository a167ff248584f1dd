//! Arguments for in_out parameters that are no names.
ghost use Rattle.std.specs.Prelude.{◌≡◌};
ghost use Rattle.ds2_tree.specs.ExpressionViews.{expression_tree, arguments_of};
ghost use Rattle.ds2_names.specs.NameRules.{no_names};
ghost use Rattle.ds2_names.specs.Uses.{callee_place, first_place};
ghost use Rattle.ds2_scope.specs.Earliest.{earliest};
ghost use Rattle.ds2_name_uses.specs.UseRules.{no_name_in, no_name_if};

use ds2_base::Place;
use ds2_calls::{further_flags, next_flag};
use ds2_scope::earlier_of;
use ds2_tree::{Argument, Callee, Expression};

// The place of the first token of what is called.
fn callee_place(callee: &Callee) -> Place
    ensures { result ≡ callee_place callee.now }
{
    match callee {
        Callee::Function(name) => name.place,
        Callee::Null(keyword) => keyword.place,
        Callee::Method { object, .. } => object.place,
    }
}

// The place of the first token of an expression.
#[tactic(auto, using(crate::proofs::UsageLemmas::call_begins, crate::proofs::UsageLemmas::chain_begins))]
fn first_place(e: &Expression) -> Place
    ensures { result ≡ first_place (expression_tree e.now) }
{
    match e {
        Expression::Constant(token) => token.place,
        Expression::Null(keyword) => keyword.place,
        Expression::Variable(name) => name.place,
        Expression::Member { object, .. } => object.place,
        Expression::Call { callee, .. } => callee_place(callee),
        Expression::Parenthesis { opening, .. } => *opening,
        Expression::Sign { operator, .. } => operator.place,
        Expression::Chain { first, .. } => first_place(first),
        Expression::Comparison { left, .. } => first_place(left),
        Expression::Not { operator, .. } => operator.place,
    }
}

// The place of an expression that is no name.
#[tactic(auto, using(crate::proofs::UsageLemmas::call_is_no_name, crate::proofs::UsageLemmas::chain_is_no_name))]
fn no_name(e: &Expression) -> Option<Place>
    ensures { result ≡ earliest (no_name_in (expression_tree e.now)) }
{
    match e {
        Expression::Variable(_) => None,
        Expression::Constant(_) => Some(first_place(e)),
        Expression::Null(_) => Some(first_place(e)),
        Expression::Member { .. } => Some(first_place(e)),
        Expression::Call { .. } => Some(first_place(e)),
        Expression::Parenthesis { .. } => Some(first_place(e)),
        Expression::Sign { .. } => Some(first_place(e)),
        Expression::Chain { .. } => Some(first_place(e)),
        Expression::Comparison { .. } => Some(first_place(e)),
        Expression::Not { .. } => Some(first_place(e)),
    }
}

// The place of an argument for an in_out parameter that is no name.
fn no_name_if(in_out: bool, e: &Expression) -> Option<Place>
    ensures { result ≡ earliest (no_name_if in_out (expression_tree e.now)) }
{
    if in_out { no_name(e) } else { None }
}

/// The earliest place of an argument for an in_out parameter that is no name.
pub(crate) fn no_names(flags: &[bool], arguments: &[Argument]) -> Option<Place>
    ensures { result ≡ earliest (no_names flags.now (arguments_of arguments.now)) }
{
    let mut found: Option<Place> = None;
    let mut left = flags;
    'arguments: for argument in arguments {
        found = earlier_of(found, no_name_if(next_flag(left), &argument.value));
        left = further_flags(left);
    }
    found
}
