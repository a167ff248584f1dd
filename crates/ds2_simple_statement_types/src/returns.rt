//! `return`.
ghost use Rattle.std.specs.Prelude.{◌≡◌};
ghost use Rattle.std.specs.Option.{option_map};
ghost use Rattle.ds2_elaboration.specs.ExpressionTypes.{TypeScope};
ghost use Rattle.ds2_elaboration.specs.StatementTypes.{return_refusals, return_node};
ghost use Rattle.ds2_elaboration.specs.Typings.{TypeRefusals, ElaboratedExpression};
ghost use Rattle.ds2_meaning.specs.TypedExpression.{TypedExpression};
ghost use Rattle.ds2_meaning.specs.TypedStatement as typed;
ghost use Rattle.ds2_meaning.specs.View.{typed_statement};
ghost use Rattle.ds2_tree.specs.ExpressionViews.{expression_tree};
ghost use Rattle.ds2_types.specs.Judgements.{node_tree, IsJudged};
ghost use Rattle.ds2_expression_types.specs.Arguments.{value_in};
ghost use Rattle.ds2_simple_statement_types.specs.MethodScopes.{IsMethodScope};
ghost use Rattle.ds2_simple_statement_types.specs.StatementOutcomes.{IsNodeAs, StandsAs};
ghost use Rattle.ds2_simple_statement_types.specs.ReturnedAndWritten.{returned_refusals};

use crate::method_scope::MethodScope;
use crate::outcomes::{StatementOutcome, boxed, standing};
use ds2_base::{OutOfMemory, Place};
use ds2_expression_walk::walk::judge;
use ds2_meaning::Statement;
use ds2_tree::Expression;
use ds2_types::assignment::assigned_value;
use ds2_types::judgement::{Judgement, Node, Outcome};
use ds2_value::Ty;
use std::alloc::Global;

/// The tree of `return` with a value.
fn return_node(place: Place, value: Node) -> Statement
    ensures { typed_statement result ≡ typed.ReturnValue place (node_tree value) }
{
    Statement::ReturnValue {
        place,
        value: Box::into_inner(value.tree),
    }
}

/// `return` with a value as it is.
fn returned(alloc: Global, place: Place, outcome: Outcome) -> Result<StatementOutcome, OutOfMemory>
    ensures { (refusals : TypeRefusals) (node : TypedExpression) → IsNodeAs refusals node outcome → StandsAs refusals (typed.ReturnValue place node) result }
{
    match outcome {
        Err(refusal) => Ok(Err(refusal)),
        Ok(value) => {
            let made = boxed(alloc, return_node(place, value))?;
            Ok(Ok(made))
        }
    }
}

/// `return` with a value in the type that the method returns.
fn returned_value(
    alloc: Global,
    place: Place,
    returns: Option<Ty>,
    x: Judgement,
) -> Result<StatementOutcome, OutOfMemory>
    ensures { (e : ElaboratedExpression) → IsJudged e x → StandsAs (returned_refusals place returns e) (typed.ReturnValue place (value_in returns e)) result }
{
    match returns {
        None => returned(alloc, place, x.outcome),
        Some(ty) => {
            let outcome = assigned_value(alloc, ty, place, x)?;
            returned(alloc, place, outcome)
        }
    }
}

/// `return`, with a value or without: the value is assigned to the type that the method returns.
pub fn return_statement(
    alloc: Global,
    scope: &MethodScope<'_>,
    place: Place,
    value: &Option<Expression>,
) -> Result<StatementOutcome, OutOfMemory>
    ensures { (types : TypeScope) → IsMethodScope types scope.now
        → StandsAs (return_refusals types place types.returns (option_map expression_tree value.now)) (return_node types place types.returns (option_map expression_tree value.now)) result }
{
    match value {
        None => standing(alloc, Statement::Return { place }),
        Some(e) => {
            let x = judge(alloc, &scope.names, e)?;
            returned_value(alloc, place, scope.returns, x)
        }
    }
}
