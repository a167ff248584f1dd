//! `select`.
ghost use Rattle.std.specs.Prelude.{◌≡◌, ◌++◌, List as Items, IfOk, Option, Some, map};
ghost use Rattle.std.specs.Option.{option_map};
ghost use Rattle.ds2_elaboration.specs.ExpressionTypes.{TypeScope};
ghost use Rattle.ds2_elaboration.specs.StatementTypes.{selector_refusals};
ghost use Rattle.ds2_elaboration.specs.Typings.{TypeRefusals, ElaboratedExpression, null_clash};
ghost use Rattle.ds2_meaning.specs.TypedStatement as typed;
ghost use Rattle.ds2_meaning.specs.View.{Part, in_a_row, all_expressions, otherwise_part, typed_expression, typed_statement};
ghost use Rattle.ds2_meaning.specs.TypedExpression.{TypedExpression};
ghost use Rattle.ds2_tree.specs.StatementViews.{selector_tree};
ghost use Rattle.ds2_types.specs.Judgements.{node_tree, IsOutcome, IsJudged};
ghost use Rattle.ds2_reference_types.specs.Scopes.{IsScopeOf};
ghost use Rattle.ds2_statement_types.specs.Branches.{AreSelected};
ghost use Rattle.ds2_simple_statement_types.specs.StatementOutcomes.{boxed_tree, tree_if_any, AreTypedAs, IsNodeAs, IsStatementAs, StandsAs};
ghost use Rattle.ds2_statement_types.specs.StatementParts.{when_of};
ghost use Rattle.ds2_statement_types.specs.TestRules.{selector_node, select_form};

use crate::branches::LastOutcome;
use crate::when_tests::{TestsOutcome, selected_outcome};
use ds2_base::{List, OutOfMemory, Place, Refusal};
use ds2_expression_walk::walk::judge;
use ds2_meaning::{Expression, Statement, TypeKind, When};
use ds2_reference_types::scopes::Scope;
use ds2_simple_statement_types::outcomes::{StatementOutcome, boxed};
use ds2_simple_statement_types::parts::{Both, of_both};
use ds2_tree::Selector;
use ds2_types::judgement::{Judgement, Node, Outcome};
use ds2_types::refusals::ruled;
use ds2_types::rules::null_clash;
use std::alloc::Global;

/// A `when` part, or the first of the rules that are broken in it.
pub type WhenOutcome = Result<When, Refusal<TypeKind>>;

/// The `when` parts, or the first of the rules that are broken in them.
pub type WhensOutcome = Result<List<When>, Refusal<TypeKind>>;

/// The value of a `select`, where it has one, or the first of the rules that are broken in it.
pub type SelectorOutcome = Result<Option<Node>, Refusal<TypeKind>>;

/// The parts of a `select`.
pub type Parts = Both<List<When>, Option<Box<Statement>>>;

/// The tree of a `when` part.
fn when_node(part: Both<List<Expression>, Box<Statement>>) -> When
    ensures { when_of result ≡ (λ rest. typed.When (all_expressions (map typed_expression part.first)) (boxed_tree part.second) rest) }
{
    let Both { first, second } = part;
    When {
        tests: first,
        then: Box::into_inner(second),
    }
}

/// A `when` part: its tests, and its statement.
pub fn when_part(tests: TestsOutcome, statement: StatementOutcome) -> WhenOutcome
    ensures { (xs ys : TypeRefusals) (nodes : Items TypedExpression) (node : typed.TypedStatement) → AreTypedAs typed_expression xs nodes tests → IsStatementAs ys node statement
        → IsOutcome (λ w. when_of w ≡ (λ rest. typed.When (all_expressions nodes) node rest)) (xs ++ ys) result }
{
    match of_both(tests, statement) {
        Err(refusal) => Err(refusal),
        Ok(part) => Ok(when_node(part)),
    }
}

/// What stands of the value of a `select`: null may not stand there.
fn valued(x: Judgement) -> Outcome
    ensures { (e : ElaboratedExpression) → IsJudged e x → IsNodeAs (e.refusals ++ null_clash e.typing) e.node result }
{
    let clash = null_clash(x.typing);
    ruled(x.outcome, clash)
}

/// A value that is there.
fn some_value(outcome: Outcome) -> SelectorOutcome
    ensures { (refusals : TypeRefusals) (node : TypedExpression) → IsNodeAs refusals node outcome → IsOutcome (λ n. tree_if_any n ≡ Some node) refusals result }
{
    match outcome {
        Ok(node) => Ok(Some(node)),
        Err(refusal) => Err(refusal),
    }
}

/// The value of a `select`, where it has one, widened where decimals are compared.
pub fn selector(
    alloc: Global,
    scope: &Scope<'_>,
    selector: &Option<Selector>,
    decimals: bool,
) -> Result<SelectorOutcome, OutOfMemory>
    ensures { (types : TypeScope) → IsScopeOf types scope.now
        → IfOk result (IsOutcome (λ n. tree_if_any n ≡ selector_node types decimals (option_map selector_tree selector.now)) (selector_refusals types (option_map selector_tree selector.now))) }
{
    match selector {
        None => Ok(Ok(None)),
        Some(selector) => {
            let x = judge(alloc, scope, &selector.value)?;
            let value = selected_outcome(alloc, decimals, valued(x))?;
            Ok(some_value(value))
        }
    }
}

/// The tree of a `select`.
fn select_node(place: Place, selector: Option<Node>, parts: Parts) -> Statement
    ensures { typed_statement result ≡ select_form place (tree_if_any selector) (in_a_row (map when_of parts.first) (otherwise_part (option_map boxed_tree parts.second))) }
{
    let Both {
        first: whens,
        second: otherwise,
    } = parts;
    match selector {
        None => Statement::Select {
            place,
            whens,
            otherwise,
        },
        Some(value) => Statement::SelectValue {
            place,
            value: Box::into_inner(value.tree),
            whens,
            otherwise,
        },
    }
}

/// A `select` with its parts.
fn select_statement(
    alloc: Global,
    place: Place,
    selector: SelectorOutcome,
    parts: Result<Parts, Refusal<TypeKind>>,
) -> Result<StatementOutcome, OutOfMemory>
    ensures { (xs ys : TypeRefusals) (value : Option TypedExpression) (forms : Items (Part typed.TypedWhens)) (last : Option typed.TypedStatement)
        → IsOutcome (λ n. tree_if_any n ≡ value) xs selector
        → IsOutcome (AreSelected forms last) ys parts
        → StandsAs (xs ++ ys) (select_form place value (in_a_row forms (otherwise_part last))) result }
{
    match of_both(selector, parts) {
        Err(refusal) => Ok(Err(refusal)),
        Ok(both) => {
            let made = boxed(alloc, select_node(place, both.first, both.second))?;
            Ok(Ok(made))
        }
    }
}

/// A `select` with its value, its `when` parts and the last one.
pub fn selection(
    alloc: Global,
    place: Place,
    selector: SelectorOutcome,
    whens: WhensOutcome,
    otherwise: LastOutcome,
) -> Result<StatementOutcome, OutOfMemory>
    ensures { (xs ys zs : TypeRefusals) (value : Option TypedExpression) (forms : Items (Part typed.TypedWhens)) (last : Option typed.TypedStatement)
        → IsOutcome (λ n. tree_if_any n ≡ value) xs selector → AreTypedAs when_of ys forms whens
        → IsOutcome (λ o. option_map boxed_tree o ≡ last) zs otherwise
        → StandsAs (xs ++ (ys ++ zs)) (select_form place value (in_a_row forms (otherwise_part last))) result }
{
    select_statement(alloc, place, selector, of_both(whens, otherwise))
}
