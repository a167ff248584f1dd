//! Typed trees of chains.
ghost use Rattle.std.specs.Prelude.{◌≡◌, IfOk, map};
ghost use Rattle.ds2_meaning.specs.IsTyped.{chain_type};
ghost use Rattle.ds2_meaning.specs.TypedExpression as tree;
ghost use Rattle.ds2_meaning.specs.View.{in_a_row, typed_expression, link_tree};
ghost use Rattle.ds2_expression_types.specs.ChainLinks.{links_in_order};
ghost use Rattle.ds2_types.specs.Judgements.{node_tree, link_of};

use ds2_base::{List, OutOfMemory};
use ds2_meaning::{Expression, Link};
use ds2_types::judgement::Node;
use ds2_value::Ty;
use std::alloc::Global;

/// The type of a chain, from that of its first operand.
fn type_behind(first: Ty, links: &[Link]) -> Ty
    ensures { result ≡ chain_type first (links_in_order (map link_of links.now)) }
{
    let mut ty = first;
    let mut rest = links;
    'links: while let [link, after @ ..] = rest {
        ty = link.ty;
        rest = after;
    }
    ty
}

/// The tree of a chain.
fn chain_of(first: Box<Expression>, links: List<Link>) -> Expression
    ensures { typed_expression result ≡ tree.Chain (typed_expression first.value) (in_a_row (map link_tree links) tree.NoLink) }
{
    Expression::Chain { first, links }
}

/// A chain of a first operand and further ones.
#[tactic(auto, using(crate::proofs::LinkViews::links_view))]
pub fn chained(alloc: Global, first: Node, links: List<Link>) -> Result<Node, OutOfMemory>
    ensures { IfOk result (λ n. node_tree n ≡ tree.Chain (node_tree first) (links_in_order (map link_of links))) }
{
    let ty = type_behind(first.ty, links.as_slice());
    let tree = Box::new(alloc, chain_of(first.tree, links))?;
    Ok(Node { ty, tree })
}
