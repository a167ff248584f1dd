//! Chains of operators, which grow by one operand after the other.
ghost use Rattle.std.specs.Prelude.{◌≡◌, ◌++◌, ◌∷◌, [], true, List as Items, IfOk, map};
ghost use Rattle.ds2_elaboration.specs.ExpressionTypes.{link_refusals, is_truth_chain};
ghost use Rattle.ds2_elaboration.specs.OperatorTypes.{ElaboratedLink, elaborated_link};
ghost use Rattle.ds2_elaboration.specs.Typings.{Typing as TypingOf, TypeRefusals, ElaboratedExpression, form_of_type, form_of_operands, typing_behind, truth_refusals};
ghost use Rattle.ds2_meaning.specs.IsTyped.{expression_type};
ghost use Rattle.ds2_meaning.specs.TypedExpression.{TypedExpression, Chain};
ghost use Rattle.ds2_expression_types.specs.ChainLinks.{links_in_order};
ghost use Rattle.ds2_expression_types.specs.Growth.{grown_and, IsGrownChain, IsGrowth};
ghost use Rattle.ds2_types.specs.Judgements.{typing_of, node_tree, link_of, IsOutcome, IsJudged, Judges};
ghost use Rattle.ds2_value.specs.declared.ty.Ty.{Ty as TyOf};
ghost use Rattle.ds2_value.specs.declared.ty.Ty.TheVariants.{BigInt};

use crate::chain_nodes::chained;
use ds2_base::{List, OutOfMemory, Place, Refusal};
use ds2_meaning::{Link, TypeKind};
use ds2_token::Token;
use ds2_tree::ChainKind;
use ds2_types::chains::{link, operand_test, pair_clash};
use ds2_types::judgement::{Judgement, Node, Outcome, Typing};
use ds2_types::refusals::{first_of_both, ruled};
use ds2_types::rules::{operand_clash, truth_clash};
use ds2_value::Ty;
use std::alloc::Global;

/// A chain so far: its first operand, the further ones, and the type up to there.
#[derive(Drop)]
pub struct Grown {
    pub first: Node,
    pub links: List<Link>,
    pub ty: Ty,
}

/// A chain so far, or the first of the rules that are broken in it.
pub type GrownOutcome = Result<Grown, Refusal<TypeKind>>;

/// What is known of the type of a chain so far, and what stands of it.
#[derive(Drop)]
pub struct Growth {
    pub typing: Typing,
    pub outcome: GrownOutcome,
}

/// A chain so far, and the operand behind it.
#[derive(Drop)]
pub struct Step {
    pub grown: Grown,
    pub operand: Node,
}

/// A chain of one operand, which has this type.
fn begun(alloc: Global, first: Node, ty: Ty) -> Grown
    ensures { IsGrownChain (node_tree first) [] ty result }
{
    Grown {
        first,
        links: List::new(alloc),
        ty,
    }
}

/// The tree of a chain.
fn chain_node(alloc: Global, grown: Grown) -> Result<Node, OutOfMemory>
    ensures { IfOk result (λ n. node_tree n ≡ Chain (node_tree grown.first) (links_in_order (map link_of grown.links))) }
{
    chained(alloc, grown.first, grown.links)
}

/// A chain of its first operand.
fn first_alone(alloc: Global, first: Node) -> Grown
    ensures { IsGrownChain (node_tree first) [] (expression_type (node_tree first)) result }
{
    let ty = first.ty;
    begun(alloc, first, ty)
}

/// What stands of a chain of its first operand.
fn first_outcome(alloc: Global, outcome: Outcome) -> GrownOutcome
    ensures { (node : TypedExpression) (refusals : TypeRefusals) → IsOutcome (λ n. node_tree n ≡ node) refusals outcome → IsOutcome (IsGrownChain node [] (expression_type node)) refusals result }
{
    match outcome {
        Err(refusal) => Err(refusal),
        Ok(node) => Ok(first_alone(alloc, node)),
    }
}

/// What is known of a chain of its first operand, and what stands of it.
pub fn seed(alloc: Global, x: Judgement) -> Growth
    ensures { (e : ElaboratedExpression) → IsJudged e x → IsGrowth e.node [] (expression_type e.node) e.refusals e.typing result }
{
    let typing = x.typing;
    let outcome = first_outcome(alloc, x.outcome);
    Growth { typing, outcome }
}

/// What stands of a further operand, once its rules and those of what stands before it were looked at.
fn ruled_operand(kind: ChainKind, operator: &Token, left: Typing, x: Judgement) -> Outcome
    ensures { (e : ElaboratedExpression) → IsJudged e x → IsOutcome (λ n. node_tree n ≡ e.node) (link_refusals kind operator.now (typing_of left) e) result }
{
    let test = operand_test(kind);
    let own = x.typing;
    let before = operand_clash(test, operator.place, left);
    let after = operand_clash(test, operator.place, own);
    let pair = pair_clash(kind, operator, left, own);
    ruled(ruled(ruled(x.outcome, before), after), pair)
}

/// What stands of a chain so far and of the operand behind it.
fn grown_and(grown: GrownOutcome, operand: Outcome) -> Result<Step, Refusal<TypeKind>>
    ensures { result ≡ grown_and grown operand }
{
    match grown {
        Ok(grown) => match operand {
            Ok(operand) => Ok(Step { grown, operand }),
            Err(refusal) => Err(refusal),
        },
        Err(refusal) => match operand {
            Ok(_) => Err(refusal),
            Err(further) => Err(first_of_both(refusal, Some(further))),
        },
    }
}

/// The chain with one more operand, behind a value of this type.
fn lengthened(
    alloc: Global,
    kind: ChainKind,
    operator: &Token,
    left: Ty,
    step: Step,
) -> Result<Grown, OutOfMemory>
    ensures { IfOk result (λ g. IsGrownChain (node_tree step.grown.first) (map link_of step.grown.links ++ elaborated_link kind operator.now left (node_tree step.operand) ∷ []) (elaborated_link kind operator.now left (node_tree step.operand)).ty g) }
{
    let first = step.grown.first;
    let mut links = step.grown.links;
    let next = link(alloc, kind, operator, left, step.operand)?;
    let ty = next.ty;
    links.push(next)?;
    Ok(Grown { first, links, ty })
}

/// A chain with one more operand.
pub fn grow(
    alloc: Global,
    kind: ChainKind,
    operator: &Token,
    before: Growth,
    x: Judgement,
) -> Result<Growth, OutOfMemory>
    ensures { (first : TypedExpression) (links : Items ElaboratedLink) (ty : TyOf) (refusals : TypeRefusals) (left : TypingOf) (e : ElaboratedExpression)
        → IsGrowth first links ty refusals left before → IsJudged e x
        → IfOk result (IsGrowth first (links ++ elaborated_link kind operator.now ty e.node ∷ []) (elaborated_link kind operator.now ty e.node).ty (refusals ++ link_refusals kind operator.now left e)
        (typing_behind (refusals ++ link_refusals kind operator.now left e) (elaborated_link kind operator.now ty e.node).ty)) }
{
    let operand = ruled_operand(kind, operator, before.typing, x);
    match grown_and(before.outcome, operand) {
        Err(refusal) => Ok(Growth {
            typing: Typing::Unknown,
            outcome: Err(refusal),
        }),
        Ok(step) => {
            let left = step.grown.ty;
            let grown = lengthened(alloc, kind, operator, left, step)?;
            Ok(Growth {
                typing: Typing::Known(grown.ty),
                outcome: Ok(grown),
            })
        }
    }
}

/// A chain of `and` or `or` of its first operand, whose first token stands at this place.
pub fn seed_truth(alloc: Global, first_token: Place, x: Judgement) -> GrownOutcome
    ensures { (e : ElaboratedExpression) → IsJudged e x → IsOutcome (IsGrownChain e.node [] BigInt) (truth_refusals first_token e) result }
{
    let clash = truth_clash(first_token, x.typing);
    match ruled(x.outcome, clash) {
        Err(refusal) => Err(refusal),
        Ok(node) => Ok(begun(alloc, node, Ty::BigInt)),
    }
}

/// A chain of `and` or `or` with one more operand, whose first token stands at this place.
pub fn grow_truth(
    alloc: Global,
    kind: ChainKind,
    operator: &Token,
    first_token: Place,
    before: GrownOutcome,
    x: Judgement,
) -> Result<GrownOutcome, OutOfMemory>
    ensures { (first : TypedExpression) (links : Items ElaboratedLink) (refusals : TypeRefusals) (e : ElaboratedExpression)
        → is_truth_chain kind ≡ true → IsOutcome (IsGrownChain first links BigInt) refusals before → IsJudged e x
        → IfOk result (IsOutcome (IsGrownChain first (links ++ elaborated_link kind operator.now BigInt e.node ∷ []) BigInt) (refusals ++ truth_refusals first_token e)) }
{
    let clash = truth_clash(first_token, x.typing);
    match grown_and(before, ruled(x.outcome, clash)) {
        Err(refusal) => Ok(Err(refusal)),
        Ok(step) => {
            let grown = lengthened(alloc, kind, operator, Ty::BigInt, step)?;
            Ok(Ok(grown))
        }
    }
}

/// What becomes of a chain of which this stands.
fn finished_outcome(alloc: Global, outcome: GrownOutcome) -> Result<Judgement, OutOfMemory>
    ensures { (first : TypedExpression) (links : Items ElaboratedLink) (ty : TyOf) (refusals : TypeRefusals) → IsOutcome (IsGrownChain first links ty) refusals outcome
        → Judges (form_of_operands refusals (Chain first (links_in_order links))) result }
{
    match outcome {
        Err(refusal) => Ok(Judgement {
            typing: Typing::Unknown,
            outcome: Err(refusal),
        }),
        Ok(grown) => {
            let node = chain_node(alloc, grown)?;
            Ok(Judgement {
                typing: Typing::Known(node.ty),
                outcome: Ok(node),
            })
        }
    }
}

/// What becomes of a chain of numbers or texts.
pub fn finished(alloc: Global, growth: Growth) -> Result<Judgement, OutOfMemory>
    ensures { (first : TypedExpression) (links : Items ElaboratedLink) (ty : TyOf) (refusals : TypeRefusals) (left : TypingOf) → IsGrowth first links ty refusals left growth
        → Judges (form_of_operands refusals (Chain first (links_in_order links))) result }
{
    finished_outcome(alloc, growth.outcome)
}

/// What becomes of a chain of `and` or `or`.
pub fn finished_truth(alloc: Global, outcome: GrownOutcome) -> Result<Judgement, OutOfMemory>
    ensures { (first : TypedExpression) (links : Items ElaboratedLink) (refusals : TypeRefusals) → IsOutcome (IsGrownChain first links BigInt) refusals outcome
        → Judges (form_of_type BigInt refusals (Chain first (links_in_order links))) result }
{
    match outcome {
        Err(refusal) => Ok(Judgement {
            typing: Typing::Known(Ty::BigInt),
            outcome: Err(refusal),
        }),
        Ok(grown) => {
            let node = chain_node(alloc, grown)?;
            Ok(Judgement {
                typing: Typing::Known(Ty::BigInt),
                outcome: Ok(node),
            })
        }
    }
}
