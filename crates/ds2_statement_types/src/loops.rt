//! Blocks and loops.
ghost use Rattle.std.specs.Prelude.{◌≡◌, ◌++◌, List as Items};
ghost use Rattle.ds2_elaboration.specs.ExpressionTypes.{TypeScope};
ghost use Rattle.ds2_elaboration.specs.StatementTypes.{do_node};
ghost use Rattle.ds2_elaboration.specs.Typings.{TypeRefusals};
ghost use Rattle.ds2_meaning.specs.TypedStatement as typed;
ghost use Rattle.std.specs.Option.{option_map};
ghost use Rattle.ds2_meaning.specs.View.{all_statements, typed_expression, typed_statement, typed_statements};
ghost use Rattle.ds2_tree.specs.Statements.{DoControl as DoControlOf};
ghost use Rattle.ds2_types.specs.Judgements.{IsOutcome};
ghost use Rattle.ds2_statement_types.specs.Controls.{count_form, loop_form, IsHeldControl};
ghost use Rattle.ds2_simple_statement_types.specs.StatementOutcomes.{tree_if_any, AreTypedAs, StandsAs};

use crate::counts::{ControlOutcome, TypedControl, TypedCount};
use ds2_base::{List, OutOfMemory, Place, Refusal};
use ds2_meaning::{Expression, Statement, TypeKind};
use ds2_simple_statement_types::outcomes::{StatementOutcome, boxed};
use ds2_simple_statement_types::parts::of_both;
use ds2_types::judgement::Node;
use std::alloc::Global;

/// Statements in order, or the first of the rules that are broken in them.
pub type BodyOutcome = Result<List<Statement>, Refusal<TypeKind>>;

/// The tree of a step, where there is one.
fn step_tree(step: Option<Node>) -> Option<Expression>
    ensures { option_map typed_expression result ≡ tree_if_any step }
{
    match step {
        None => None,
        Some(step) => Some(Box::into_inner(step.tree)),
    }
}

/// The tree of a counted loop.
fn count_node(place: Place, count: TypedCount, body: List<Statement>) -> Statement
    ensures { typed_statement result ≡ count_form place count (typed_statements body) }
{
    let TypedCount {
        variable,
        start,
        stop,
        step,
    } = count;
    Statement::Count {
        place,
        variable,
        start: Box::into_inner(start.tree),
        end: Box::into_inner(stop.tree),
        step: step_tree(step),
        body,
    }
}

/// The tree of a block or a loop.
fn loop_node(place: Place, control: TypedControl, body: List<Statement>) -> Statement
    ensures { typed_statement result ≡ loop_form place control (typed_statements body) }
{
    match control {
        TypedControl::Block => Statement::Block { place, body },
        TypedControl::Count(count) => count_node(place, count, body),
        TypedControl::While(condition) => Statement::While {
            place,
            condition: Box::into_inner(condition.tree),
            body,
        },
        TypedControl::Until(condition) => Statement::Until {
            place,
            condition: Box::into_inner(condition.tree),
            body,
        },
    }
}

/// A block or a loop with its body.
pub fn do_statement(
    alloc: Global,
    place: Place,
    control: ControlOutcome,
    body: BodyOutcome,
) -> Result<StatementOutcome, OutOfMemory>
    ensures { (types : TypeScope) (c : DoControlOf) (xs ys : TypeRefusals) (nodes : Items typed.TypedStatement) → IsOutcome (IsHeldControl types c) xs control
        → AreTypedAs typed_statement ys nodes body → StandsAs (xs ++ ys) (do_node types place c (all_statements nodes)) result }
{
    match of_both(control, body) {
        Err(refusal) => Ok(Err(refusal)),
        Ok(parts) => {
            let made = boxed(alloc, loop_node(place, parts.first, parts.second))?;
            Ok(Ok(made))
        }
    }
}
