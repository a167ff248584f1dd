//! Assignments.
ghost use Rattle.std.specs.Prelude.{◌≡◌, Option, Some};
ghost use Rattle.ds2_elaboration.specs.ExpressionTypes.{TypeScope, KnownVariable, elaborated};
ghost use Rattle.ds2_elaboration.specs.StatementTypes.{target_refusals, assignment_refusals, assignment_node, target_of};
ghost use Rattle.ds2_elaboration.specs.Typings.{TypeRefusals, ElaboratedExpression, typing_behind, assigned_node, assigned_refusals};
ghost use Rattle.ds2_meaning.specs.TypedStatement as typed;
ghost use Rattle.ds2_meaning.specs.View.{typed_statement};
ghost use Rattle.ds2_tree.specs.ExpressionViews.{expression_tree};
ghost use Rattle.ds2_types.specs.Judgements.{node_tree, first_type_refusal, lesser_refusal, IsJudged};
ghost use Rattle.ds2_simple_statement_types.specs.MethodScopes.{IsMethodScope};
ghost use Rattle.ds2_simple_statement_types.specs.StatementOutcomes.{refusal_in, StandsAs};
ghost use Rattle.ds2_simple_statement_types.specs.Targets.{IsTargetAs};

use crate::method_scope::MethodScope;
use crate::outcomes::{StatementOutcome, boxed};
use crate::targets::{Target, target_of};
use ds2_base::{OutOfMemory, Place, Refusal};
use ds2_expression_walk::walk::judge;
use ds2_meaning::{Reference, Statement, TypeKind};
use ds2_token::Token;
use ds2_tree::Expression;
use ds2_types::assignment::assigned_value;
use ds2_types::judgement::{Judgement, Node, Outcome};
use ds2_types::refusals::{first_of_both, refusal};
use ds2_value::Ty;
use std::alloc::Global;

/// The tree of an assignment.
fn assign_node(place: Place, variable: Reference, value: Node) -> Statement
    ensures { typed_statement result ≡ typed.Assign place variable (node_tree value) }
{
    Statement::Assign {
        place,
        variable,
        value: Box::into_inner(value.tree),
    }
}

/// What is given of a broken rule and of those that are broken in a value.
fn given_before(own: Refusal<TypeKind>, value: Outcome) -> Refusal<TypeKind>
    ensures { Some result ≡ lesser_refusal (Some own) (refusal_in value) }
{
    match value {
        Ok(_) => own,
        Err(further) => first_of_both(own, Some(further)),
    }
}

/// A value that is assigned to a variable of this type.
fn assigned_to_variable(
    alloc: Global,
    place: Place,
    variable: Reference,
    ty: Ty,
    x: Judgement,
) -> Result<StatementOutcome, OutOfMemory>
    ensures { (e : ElaboratedExpression) → IsJudged e x → StandsAs (assigned_refusals ty place e) (typed.Assign place variable (assigned_node ty e)) result }
{
    let outcome = assigned_value(alloc, ty, place, x)?;
    match outcome {
        Err(refusal) => Ok(Err(refusal)),
        Ok(value) => {
            let made = boxed(alloc, assign_node(place, variable, value))?;
            Ok(Ok(made))
        }
    }
}

/// A value that is assigned to a variable of this type, under the rule that is broken where its tables do not join.
fn assigned_under(
    alloc: Global,
    place: Place,
    own: Option<Refusal<TypeKind>>,
    variable: Reference,
    ty: Ty,
    x: Judgement,
) -> Result<StatementOutcome, OutOfMemory>
    ensures { (refusals : TypeRefusals) (e : ElaboratedExpression) → own ≡ first_type_refusal refusals → IsJudged e x
        → StandsAs (target_refusals place refusals e (typing_behind refusals ty)) (typed.Assign place variable (assigned_node ty e)) result }
{
    match own {
        Some(own) => Ok(Err(given_before(own, x.outcome))),
        None => assigned_to_variable(alloc, place, variable, ty, x),
    }
}

/// A value that is assigned to what a name stands for; what may not be set is TypeClash at the name.
fn assigned_to(
    alloc: Global,
    place: Place,
    target: Option<Target>,
    x: Judgement,
) -> Result<StatementOutcome, OutOfMemory>
    ensures { (types : TypeScope) (v : Option KnownVariable) (e : ElaboratedExpression) → IsTargetAs target v → IsJudged e x
        → StandsAs (assignment_refusals types place v e) (assignment_node types place v e) result }
{
    match target {
        None => Ok(Err(refusal(TypeKind::TypeClash, place))),
        Some(target) => assigned_under(
            alloc,
            place,
            target.refusal,
            target.reference,
            target.ty,
            x,
        ),
    }
}

/// `target = value;`: the value is assigned to the target's type, else TypeClash at the target.
pub fn assignment(
    alloc: Global,
    scope: &MethodScope<'_>,
    name: &Token,
    value: &Expression,
) -> Result<StatementOutcome, OutOfMemory>
    ensures { (types : TypeScope) → IsMethodScope types scope.now
        → StandsAs (assignment_refusals types name.now.place (target_of types name.now) (elaborated types (expression_tree value.now)))
        (assignment_node types name.now.place (target_of types name.now) (elaborated types (expression_tree value.now))) result }
{
    let x = judge(alloc, &scope.names, value)?;
    let found = target_of(alloc, &scope.names, name)?;
    assigned_to(alloc, name.place, found, x)
}
