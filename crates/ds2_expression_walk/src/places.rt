//! The places of expressions.
ghost use Rattle.std.specs.Prelude.{◌≡◌};
ghost use Rattle.ds2_names.specs.Uses.{callee_place, first_place};
ghost use Rattle.ds2_tree.specs.ExpressionViews.{expression_tree};

use ds2_base::Place;
use ds2_tree::{Callee, Expression};

/// The place of the first token of what is called.
fn callee_place(callee: &Callee) -> Place
    ensures { result ≡ callee_place callee.now }
{
    match callee {
        Callee::Function(name) => name.place,
        Callee::Null(keyword) => keyword.place,
        Callee::Method { object, .. } => object.place,
    }
}

/// The place of the first token of an expression.
#[tactic(auto, using(crate::proofs::FirstPlaces::first_in_call, crate::proofs::FirstPlaces::first_in_chain))]
pub fn first_place(e: &Expression) -> Place
    ensures { result ≡ first_place (expression_tree e.now) }
{
    match e {
        Expression::Constant(token) => token.place,
        Expression::Null(keyword) => keyword.place,
        Expression::Variable(name) => name.place,
        Expression::Member { object, .. } => object.place,
        Expression::Call { callee, .. } => callee_place(callee),
        Expression::Parenthesis { opening, .. } => *opening,
        Expression::Sign { operator, .. } => operator.place,
        Expression::Chain { first, .. } => first_place(first),
        Expression::Comparison { left, .. } => first_place(left),
        Expression::Not { operator, .. } => operator.place,
    }
}
