//! The types of expressions.
ghost use Rattle.std.specs.Prelude.{◌≡◌, map};
ghost use Rattle.ds2_meaning.specs.IsTyped.{expression_type as type_of, chain_type};
ghost use Rattle.ds2_meaning.specs.TypedExpression.{NoLink};
ghost use Rattle.ds2_meaning.specs.View.{in_a_row, typed_expression, link_tree};

use ds2_meaning::{Expression, Link};
use ds2_value::Ty;

// The type of a chain whose first operand has a type.
fn chain_type(first: Ty, links: &[Link]) -> Ty
    ensures { result ≡ chain_type first (in_a_row (map link_tree links.now) NoLink) }
{
    let mut ty = first;
    'links: for link in links {
        ty = link.ty;
    }
    ty
}

/// The type of an expression.
pub fn expression_type(e: &Expression) -> Ty
    ensures { result ≡ type_of (typed_expression e.now) }
{
    match e {
        Expression::Constant { value: _, ty } => *ty,
        Expression::Variable { variable: _, ty } => *ty,
        Expression::Widen { operand: _ } => Ty::Decimal { p: 19, s: 0 },
        Expression::Convert { operand: _, ty } => *ty,
        Expression::Prefixed {
            prefix: _,
            operand: _,
            ty,
        } => *ty,
        Expression::Chain { first, links } => chain_type(expression_type(first), links.as_slice()),
        Expression::Compared {
            comparison: _,
            left: _,
            right: _,
        } => Ty::BigInt,
        Expression::Applied {
            function: _,
            arguments: _,
            ty,
        } => *ty,
        Expression::Called { call: _, ty } => *ty,
        Expression::HashCalled {
            hash: _,
            function: _,
        } => Ty::BigInt,
        Expression::IteratorCalled {
            iterator: _,
            function: _,
        } => Ty::BigInt,
    }
}
