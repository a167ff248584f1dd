//! Statements in boxes, and what stands of them.
ghost use Rattle.std.specs.Prelude.{◌≡◌, [], IfOk};
ghost use Rattle.ds2_elaboration.specs.Typings.{TypeRefusals};
ghost use Rattle.ds2_meaning.specs.TypedExpression.{TypedExpression};
ghost use Rattle.ds2_meaning.specs.TypedStatement.{TypedStatement};
ghost use Rattle.ds2_meaning.specs.View.{typed_expression, typed_statement};
ghost use Rattle.ds2_types.specs.Judgements.{IsOutcome};
ghost use Rattle.ds2_simple_statement_types.specs.StatementOutcomes.{boxed_tree, IsStatementAs, IsNodeAs, StandsAs};

use ds2_base::{OutOfMemory, Refusal};
use ds2_meaning::{Expression, Statement, TypeKind};
use ds2_types::judgement::Outcome;
use std::alloc::Global;

/// A typed statement, or the first of the rules that are broken in it. It stands in a box, since a statement is large.
pub type StatementOutcome = Result<Box<Statement>, Refusal<TypeKind>>;

/// A statement in a box.
pub fn boxed(alloc: Global, statement: Statement) -> Result<Box<Statement>, OutOfMemory>
    ensures { IfOk result (λ b. boxed_tree b ≡ typed_statement statement) }
{
    let made = Box::new(alloc, statement)?;
    Ok(made)
}

/// A statement of which no rule is broken.
pub fn standing(alloc: Global, statement: Statement) -> Result<StatementOutcome, OutOfMemory>
    ensures { (node : TypedStatement) → typed_statement statement ≡ node → StandsAs [] node result }
{
    let made = boxed(alloc, statement)?;
    Ok(Ok(made))
}

/// What stands of a statement, out of its box.
pub fn unboxed(outcome: StatementOutcome) -> Result<Statement, Refusal<TypeKind>>
    ensures { (refusals : TypeRefusals) (node : TypedStatement) → IsStatementAs refusals node outcome → IsOutcome (λ s. typed_statement s ≡ node) refusals result }
{
    match outcome {
        Ok(boxed) => Ok(Box::into_inner(boxed)),
        Err(refusal) => Err(refusal),
    }
}

/// What stands of an expression, out of its box.
pub fn unboxed_value(outcome: Outcome) -> Result<Expression, Refusal<TypeKind>>
    ensures { (refusals : TypeRefusals) (node : TypedExpression) → IsNodeAs refusals node outcome → IsOutcome (λ e. typed_expression e ≡ node) refusals result }
{
    match outcome {
        Ok(node) => Ok(Box::into_inner(node.tree)),
        Err(refusal) => Err(refusal),
    }
}
