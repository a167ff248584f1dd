//! What stands between `do` and its `;`.
ghost use Rattle.std.specs.Prelude.{◌≡◌, ◌++◌, IfOk, Option, Some};
ghost use Rattle.std.specs.Option.{option_map};
ghost use Rattle.ds2_base.specs.declared.place.Place.{Place as PlaceOf};
ghost use Rattle.ds2_elaboration.specs.ExpressionTypes.{TypeScope, KnownVariable};
ghost use Rattle.ds2_elaboration.specs.StatementTypes.{step_refusals, step_node, counted_refusals, counted_reference, control_refusals};
ghost use Rattle.ds2_elaboration.specs.Typings.{TypeRefusals, typing_behind, where_known, clash_unless, is_integer_type};
ghost use Rattle.ds2_meaning.specs.TypedExpression.{TypedExpression};
ghost use Rattle.ds2_meaning.specs.TypedStatement as typed;
ghost use Rattle.ds2_meaning.specs.declared.location.Reference.{Reference as ReferenceOf};
ghost use Rattle.ds2_tree.specs.Statements.{DoControl as DoControlOf};
ghost use Rattle.ds2_tree.specs.StatementViews.{step_tree, counted_tree, tested_tree, control_tree};
ghost use Rattle.ds2_types.specs.Judgements.{node_tree, first_type_refusal, IsOutcome};
ghost use Rattle.ds2_reference_types.specs.Scopes.{IsScopeOf};
ghost use Rattle.ds2_statement_types.specs.Controls.{count_form, IsHeldControl, IsCount, IsTested};
ghost use Rattle.ds2_simple_statement_types.specs.StatementOutcomes.{tree_if_any, IsNodeAs};
ghost use Rattle.ds2_simple_statement_types.specs.Targets.{IsTargetAs};

use crate::conditions::{bound, condition};
use ds2_base::{OutOfMemory, Place, Refusal};
use ds2_meaning::{Reference, TypeKind};
use ds2_reference_types::scopes::Scope;
use ds2_simple_statement_types::parts::{Both, of_both};
use ds2_simple_statement_types::targets::{Target, target_of};
use ds2_token::Token;
use ds2_tree::{CountedControl, DoControl, Step, TestedControl};
use ds2_types::judgement::{Node, Outcome};
use ds2_types::refusals::refusal;
use ds2_types::rules::{clash_unless, is_integer};
use ds2_value::Ty;
use std::alloc::Global;

/// The variable, the bounds and the step of a counted loop.
#[derive(Drop)]
pub struct TypedCount {
    pub variable: Reference,
    pub start: Node,
    pub stop: Node,
    pub step: Option<Node>,
}

/// What stands between `do` and its `;`.
#[derive(Drop)]
pub enum TypedControl {
    Block,
    Count(TypedCount),
    While(Node),
    Until(Node),
}

/// What stands of the variable of a counted loop.
pub type VariableOutcome = Result<Reference, Refusal<TypeKind>>;

/// What stands of a step.
pub type StepOutcome = Result<Option<Node>, Refusal<TypeKind>>;

/// What stands between `do` and its `;`, or the first of the rules that are broken in it.
pub type ControlOutcome = Result<TypedControl, Refusal<TypeKind>>;

/// A variable of this type as that of a counted loop, under the rule that is broken where its tables do not join: a BIGINT, else
/// TypeClash at it.
fn counting(
    place: Place,
    own: Option<Refusal<TypeKind>>,
    variable: Reference,
    ty: Ty,
) -> VariableOutcome
    ensures { (refusals : TypeRefusals) → own ≡ first_type_refusal refusals
        → IsOutcome (λ r. r ≡ variable) (refusals ++ where_known (typing_behind refusals ty) (λ t. clash_unless (is_integer_type t) place)) result }
{
    match own {
        Some(own) => Err(own),
        None => whole_variable(place, variable, ty),
    }
}

/// A variable of this type as that of a counted loop.
fn whole_variable(place: Place, variable: Reference, ty: Ty) -> VariableOutcome
    ensures { IsOutcome (λ r. r ≡ variable) (clash_unless (is_integer_type ty) place) result }
{
    match clash_unless(is_integer(ty), place) {
        None => Ok(variable),
        Some(clash) => Err(clash),
    }
}

/// What a name stands for as the variable of a counted loop; what may not be set is TypeClash at it.
fn counted(place: Place, target: Option<Target>) -> VariableOutcome
    ensures { (types : TypeScope) (v : Option KnownVariable) → IsTargetAs target v → IsOutcome (λ r. r ≡ counted_reference types v) (counted_refusals types place v) result }
{
    match target {
        None => Err(refusal(TypeKind::TypeClash, place)),
        Some(target) => counting(place, target.refusal, target.reference, target.ty),
    }
}

/// A step, where there is one.
fn step_if_any(outcome: Outcome) -> StepOutcome
    ensures { (refusals : TypeRefusals) (node : TypedExpression) → IsNodeAs refusals node outcome → IsOutcome (λ n. tree_if_any n ≡ Some node) refusals result }
{
    match outcome {
        Ok(node) => Ok(Some(node)),
        Err(refusal) => Err(refusal),
    }
}

/// The step of a counted loop, where there is one.
fn step(alloc: Global, scope: &Scope<'_>, step: &Option<Step>) -> Result<StepOutcome, OutOfMemory>
    ensures { (types : TypeScope) → IsScopeOf types scope.now
        → IfOk result (IsOutcome (λ n. tree_if_any n ≡ step_node types (option_map step_tree step.now)) (step_refusals types (option_map step_tree step.now))) }
{
    match step {
        None => Ok(Ok(None)),
        Some(step) => {
            let by = bound(alloc, scope, &step.value)?;
            Ok(step_if_any(by))
        }
    }
}

/// The parts of a counted loop.
fn count_of(
    variable: VariableOutcome,
    start: Outcome,
    stop: Outcome,
    step: StepOutcome,
) -> Result<TypedCount, Refusal<TypeKind>>
    ensures { (vs xs ys zs : TypeRefusals) (r : ReferenceOf) (a b : TypedExpression) (by : Option TypedExpression) → IsOutcome (λ v. v ≡ r) vs variable → IsNodeAs xs a start
        → IsNodeAs ys b stop → IsOutcome (λ n. tree_if_any n ≡ by) zs step
        → IsOutcome (λ c. (place : PlaceOf) (body : typed.TypedStatements) → count_form place c body ≡ typed.Count place r a b by body) (vs ++ xs ++ ys ++ zs) result }
{
    match of_both(of_both(of_both(variable, start), stop), step) {
        Err(refusal) => Err(refusal),
        Ok(parts) => Ok(count_parts(parts)),
    }
}

/// The variable, the bounds and the step, out of their pairs.
fn count_parts(parts: Both<Both<Both<Reference, Node>, Node>, Option<Node>>) -> TypedCount
    ensures { result ≡ record { variable = parts.first.first.first; start = parts.first.first.second; stop = parts.first.second; step = parts.second } }
{
    let Both {
        first: bounds,
        second: step,
    } = parts;
    let Both {
        first: begun,
        second: stop,
    } = bounds;
    let Both {
        first: variable,
        second: start,
    } = begun;
    TypedCount {
        variable,
        start,
        stop,
        step,
    }
}

/// `variable = start to stop by step`
fn count(
    alloc: Global,
    scope: &Scope<'_>,
    c: &CountedControl,
) -> Result<Result<TypedCount, Refusal<TypeKind>>, OutOfMemory>
    ensures { (types : TypeScope) → IsScopeOf types scope.now → IfOk result (IsOutcome (IsCount types (counted_tree c.now)) (control_refusals types (counted_tree c.now))) }
{
    let start = bound(alloc, scope, &c.start)?;
    let stop = bound(alloc, scope, &c.stop)?;
    let by = step(alloc, scope, &c.step)?;
    let found = target_of(alloc, scope, &c.variable)?;
    Ok(count_of(counted(c.variable.place, found), start, stop, by))
}

/// `while` or `until` with its condition.
fn tested(keyword: &Token, outcome: Outcome) -> ControlOutcome
    ensures { (refusals : TypeRefusals) (node : TypedExpression) → IsNodeAs refusals node outcome → IsOutcome (IsTested keyword.now node) refusals result }
{
    match outcome {
        Err(refusal) => Err(refusal),
        Ok(condition) => Ok(tested_control(keyword, condition)),
    }
}

/// The tree of `while` or `until`.
fn tested_control(keyword: &Token, condition: Node) -> TypedControl
    ensures { IsTested keyword.now (node_tree condition) result }
{
    if keyword.is_word("while") {
        TypedControl::While(condition)
    } else {
        TypedControl::Until(condition)
    }
}

/// `while` or `until` with its condition.
fn test(alloc: Global, scope: &Scope<'_>, c: &TestedControl) -> Result<ControlOutcome, OutOfMemory>
    ensures { (types : TypeScope) → IsScopeOf types scope.now → IfOk result (IsOutcome (IsHeldControl types (tested_tree c.now)) (control_refusals types (tested_tree c.now))) }
{
    let outcome = condition(alloc, scope, &c.condition)?;
    Ok(tested(&c.keyword, outcome))
}

/// A count as what stands between `do` and its `;`.
fn counted_control(count: Result<TypedCount, Refusal<TypeKind>>) -> ControlOutcome
    ensures { (types : TypeScope) (c : DoControlOf) (refusals : TypeRefusals) → IsOutcome (IsCount types c) refusals count → IsOutcome (IsHeldControl types c) refusals result }
{
    match count {
        Ok(count) => Ok(TypedControl::Count(count)),
        Err(refusal) => Err(refusal),
    }
}

/// What stands between `do` and its `;`.
pub fn control(
    alloc: Global,
    scope: &Scope<'_>,
    control: &DoControl,
) -> Result<ControlOutcome, OutOfMemory>
    ensures { (types : TypeScope) → IsScopeOf types scope.now → IfOk result (IsOutcome (IsHeldControl types (control_tree control.now)) (control_refusals types (control_tree control.now))) }
{
    match control {
        DoControl::Block => Ok(Ok(TypedControl::Block)),
        DoControl::Counted(c) => {
            let counted = count(alloc, scope, c)?;
            Ok(counted_control(counted))
        }
        DoControl::Tested(c) => test(alloc, scope, c),
    }
}
