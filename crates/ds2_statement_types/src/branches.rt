//! `if`, with the parts that are chained to it.
ghost use Rattle.std.specs.Prelude.{◌≡◌, ◌++◌, List as Items, Option, Some, map};
ghost use Rattle.std.specs.Option.{option_map};
ghost use Rattle.ds2_elaboration.specs.Typings.{TypeRefusals};
ghost use Rattle.ds2_meaning.specs.TypedExpression.{TypedExpression};
ghost use Rattle.ds2_meaning.specs.TypedStatement as typed;
ghost use Rattle.ds2_meaning.specs.View.{Chained, in_a_row, if_tree, typed_statement};
ghost use Rattle.ds2_types.specs.Judgements.{node_tree, IsOutcome};
ghost use Rattle.ds2_statement_types.specs.Branches.{IsHead, IsTail};
ghost use Rattle.ds2_simple_statement_types.specs.StatementOutcomes.{boxed_tree, AreTypedAs, IsNodeAs, IsStatementAs, StandsAs};
ghost use Rattle.ds2_statement_types.specs.StatementParts.{arm_of};

use ds2_base::{List, OutOfMemory, Place, Refusal};
use ds2_meaning::{Arm, Statement, TypeKind};
use ds2_simple_statement_types::outcomes::{StatementOutcome, boxed};
use ds2_simple_statement_types::parts::{Both, of_both};
use ds2_types::judgement::{Node, Outcome};
use std::alloc::Global;

/// An `else if`, or the first of the rules that are broken in it.
pub type ArmOutcome = Result<Arm, Refusal<TypeKind>>;

/// The parts that are chained to an `if`, or the first of the rules that are broken in them.
pub type ArmsOutcome = Result<List<Arm>, Refusal<TypeKind>>;

/// A last part, where there is one, or the first of the rules that are broken in it.
pub type LastOutcome = Result<Option<Box<Statement>>, Refusal<TypeKind>>;

/// A condition, and what is done where it holds.
pub type Head = Both<Node, Box<Statement>>;

/// What is done where a condition does not hold: the parts that are chained to the `if`, and the last one.
pub type Tail = Both<List<Arm>, Option<Box<Statement>>>;

/// A last part that is there.
pub fn last_part(outcome: StatementOutcome) -> LastOutcome
    ensures { (refusals : TypeRefusals) (node : typed.TypedStatement) → IsStatementAs refusals node outcome → IsOutcome (λ o. option_map boxed_tree o ≡ Some node) refusals result }
{
    match outcome {
        Ok(statement) => Ok(Some(statement)),
        Err(refusal) => Err(refusal),
    }
}

/// A condition with what is done where it holds.
pub fn head(condition: Outcome, first: StatementOutcome) -> Result<Head, Refusal<TypeKind>>
    ensures { (xs ys : TypeRefusals) (test : TypedExpression) (node : typed.TypedStatement) → IsNodeAs xs test condition → IsStatementAs ys node first
        → IsOutcome (IsHead test node) (xs ++ ys) result }
{
    of_both(condition, first)
}

/// The tree of an `else if`.
fn arm_node(place: Place, head: Head) -> Arm
    ensures { arm_of result ≡ (λ rest. Some (if_tree place (node_tree head.first) (boxed_tree head.second) rest)) }
{
    let Both { first, second } = head;
    Arm {
        place,
        condition: Box::into_inner(first.tree),
        then: Box::into_inner(second),
    }
}

/// An `else if`, at the place of its `if`.
pub fn arm(place: Place, condition: Outcome, first: StatementOutcome) -> ArmOutcome
    ensures { (xs ys : TypeRefusals) (test : TypedExpression) (node : typed.TypedStatement) → IsNodeAs xs test condition → IsStatementAs ys node first
        → IsOutcome (λ a. arm_of a ≡ (λ rest. Some (if_tree place test node rest))) (xs ++ ys) result }
{
    match head(condition, first) {
        Err(refusal) => Err(refusal),
        Ok(head) => Ok(arm_node(place, head)),
    }
}

/// The tree of an `if`.
fn if_node(place: Place, head: Head, tail: Tail) -> Statement
    ensures { typed_statement result ≡ if_tree place (node_tree head.first) (boxed_tree head.second) (in_a_row (map arm_of tail.first) (option_map boxed_tree tail.second)) }
{
    let Both { first, second } = head;
    let Both {
        first: others,
        second: otherwise,
    } = tail;
    Statement::If {
        place,
        condition: Box::into_inner(first.tree),
        then: second,
        others,
        otherwise,
    }
}

/// An `if` with its parts.
fn if_statement(
    alloc: Global,
    place: Place,
    head: Result<Head, Refusal<TypeKind>>,
    tail: Result<Tail, Refusal<TypeKind>>,
) -> Result<StatementOutcome, OutOfMemory>
    ensures { (xs ys : TypeRefusals) (test : TypedExpression) (node : typed.TypedStatement) (parts : Items Chained) (last : Option typed.TypedStatement)
        → IsOutcome (IsHead test node) xs head
        → IsOutcome (IsTail parts last) ys tail
        → StandsAs (xs ++ ys) (if_tree place test node (in_a_row parts last)) result }
{
    match of_both(head, tail) {
        Err(refusal) => Ok(Err(refusal)),
        Ok(parts) => {
            let made = boxed(alloc, if_node(place, parts.first, parts.second))?;
            Ok(Ok(made))
        }
    }
}

/// An `if` with the parts that are chained to it and the last one.
pub fn chained_if(
    alloc: Global,
    place: Place,
    head: Result<Head, Refusal<TypeKind>>,
    others: ArmsOutcome,
    otherwise: LastOutcome,
) -> Result<StatementOutcome, OutOfMemory>
    ensures { (xs ys zs : TypeRefusals) (test : TypedExpression) (node : typed.TypedStatement) (parts : Items Chained) (last : Option typed.TypedStatement)
        → IsOutcome (IsHead test node) xs head → AreTypedAs arm_of ys parts others
        → IsOutcome (λ o. option_map boxed_tree o ≡ last) zs otherwise
        → StandsAs (xs ++ (ys ++ zs)) (if_tree place test node (in_a_row parts last)) result }
{
    if_statement(alloc, place, head, of_both(others, otherwise))
}
