//! Conditions, and the bounds of counted loops.
ghost use Rattle.std.specs.Prelude.{◌≡◌, IfOk};
ghost use Rattle.ds2_elaboration.specs.ExpressionTypes.{TypeScope, elaborated};
ghost use Rattle.ds2_elaboration.specs.StatementTypes.{bound_refusals};
ghost use Rattle.ds2_elaboration.specs.Typings.{ElaboratedExpression, truth_refusals};
ghost use Rattle.ds2_names.specs.Uses.{first_place};
ghost use Rattle.ds2_tree.specs.ExpressionViews.{expression_tree};
ghost use Rattle.ds2_types.specs.Judgements.{IsJudged};
ghost use Rattle.ds2_reference_types.specs.Scopes.{IsScopeOf};
ghost use Rattle.ds2_simple_statement_types.specs.StatementOutcomes.{IsNodeAs};

use ds2_base::{OutOfMemory, Place};
use ds2_expression_walk::places::first_place;
use ds2_expression_walk::walk::judge;
use ds2_reference_types::scopes::Scope;
use ds2_tree::Expression;
use ds2_types::judgement::{Judgement, Outcome};
use ds2_types::refusals::ruled;
use ds2_types::rules::{OperandTest, operand_clash, truth_clash};
use std::alloc::Global;

/// What stands of a condition, whose first token stands at this place.
pub fn true_or_false(place: Place, x: Judgement) -> Outcome
    ensures { (e : ElaboratedExpression) → IsJudged e x → IsNodeAs (truth_refusals place e) e.node result }
{
    let clash = truth_clash(place, x.typing);
    ruled(x.outcome, clash)
}

/// What stands of a start, an end or a step, whose first token stands at this place.
fn whole(place: Place, x: Judgement) -> Outcome
    ensures { (e : ElaboratedExpression) → IsJudged e x → IsNodeAs (bound_refusals place e) e.node result }
{
    let clash = operand_clash(OperandTest::Integer, place, x.typing);
    ruled(x.outcome, clash)
}

/// A condition: a text is NotTruth at its first token, null may not stand there.
pub fn condition(alloc: Global, scope: &Scope<'_>, e: &Expression) -> Result<Outcome, OutOfMemory>
    ensures { (types : TypeScope) → IsScopeOf types scope.now
        → IfOk result (IsNodeAs (truth_refusals (first_place (expression_tree e.now)) (elaborated types (expression_tree e.now))) (elaborated types (expression_tree e.now)).node) }
{
    let x = judge(alloc, scope, e)?;
    Ok(true_or_false(first_place(e), x))
}

/// A start, an end or a step of a counted loop: a BIGINT, else TypeClash at its first token; null may not stand there.
pub fn bound(alloc: Global, scope: &Scope<'_>, e: &Expression) -> Result<Outcome, OutOfMemory>
    ensures { (types : TypeScope) → IsScopeOf types scope.now
        → IfOk result (IsNodeAs (bound_refusals (first_place (expression_tree e.now)) (elaborated types (expression_tree e.now))) (elaborated types (expression_tree e.now)).node) }
{
    let x = judge(alloc, scope, e)?;
    Ok(whole(first_place(e), x))
}
