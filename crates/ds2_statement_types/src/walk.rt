//! Statements: their typed trees, or the rules that they break.
ghost use Rattle.std.specs.Prelude.{◌≡◌, IfOk, map};
ghost use Rattle.std.specs.Option.{option_map};
ghost use Rattle.ds2_elaboration.specs.ExpressionTypes.{TypeScope};
ghost use Rattle.ds2_elaboration.specs.StatementTypes.{statements_refusals, statements_node, otherwise_refusals};
ghost use Rattle.ds2_meaning.specs.View.{typed_statement, typed_statements};
ghost use Rattle.ds2_names.specs.NameRules.{from_each};
ghost use Rattle.ds2_tree.specs.StatementViews.{statements_of, otherwise_tree};
ghost use Rattle.ds2_types.specs.Judgements.{IsOutcome};
ghost use Rattle.ds2_simple_statement_types.specs.MethodScopes.{IsMethodScope};
ghost use Rattle.ds2_simple_statement_types.specs.StatementOutcomes.{boxed_tree, AreTypedAs, StandsAs};
ghost use Rattle.ds2_statement_types.specs.StatementParts.{own_refusals, own_node, arm_refusals, arm_form, arm_of, last_node, part_refusals, when_form, when_of};
ghost use Rattle.ds2_statement_types.specs.TestRules.{test_rule};

use crate::branches::{ArmOutcome, ArmsOutcome, LastOutcome, arm, chained_if, head, last_part};
use crate::conditions::condition;
use crate::counts::control;
use crate::loops::{BodyOutcome, do_statement};
use crate::selections::{WhenOutcome, WhensOutcome, selection, selector, when_part};
use crate::when_tests::{TestRule, test_rule, tests};
use ds2_base::{List, OutOfMemory};
use ds2_meaning::Statement as TypedStatement;
use ds2_simple_statement_types::assignments::assignment;
use ds2_simple_statement_types::calls::call;
use ds2_simple_statement_types::method_scope::MethodScope;
use ds2_simple_statement_types::outcomes::{StatementOutcome, standing, unboxed};
use ds2_simple_statement_types::outputs::output;
use ds2_simple_statement_types::parts::with_one;
use ds2_simple_statement_types::puts::put;
use ds2_simple_statement_types::returns::return_statement;
use ds2_tree::{ElseIf, Otherwise, Statement, When};
use std::alloc::Global;

/// What becomes of a statement, or the first of the rules that are broken in it.
#[cycle(type_statements)]
fn statement(
    alloc: Global,
    scope: &MethodScope<'_>,
    s: &Statement,
) -> Result<StatementOutcome, OutOfMemory>
    ensures { (types : TypeScope) → IsMethodScope types scope.now → StandsAs (own_refusals types s.now) (own_node types s.now) result }
{
    match s {
        Statement::Empty { end } => standing(alloc, TypedStatement::Empty { place: *end }),
        Statement::Assignment { target, value, .. } => assignment(alloc, scope, target, value),
        Statement::Call {
            callee,
            arguments,
            ..
        } => call(alloc, scope, callee, arguments.as_slice()),
        Statement::Leave { keyword, .. } => standing(
            alloc,
            TypedStatement::Leave {
                place: keyword.place,
            },
        ),
        Statement::Continue { keyword, .. } => standing(
            alloc,
            TypedStatement::Continue {
                place: keyword.place,
            },
        ),
        Statement::Return { keyword, value, .. } => {
            return_statement(alloc, scope, keyword.place, value)
        }
        Statement::Output {
            keyword,
            tables,
            ..
        } => output(alloc, scope, keyword.place, tables.as_slice()),
        Statement::Put { keyword, items, .. } => {
            put(alloc, &scope.names, keyword.place, items.as_slice())
        }
        Statement::If {
            keyword,
            condition: e,
            then,
            others,
            otherwise,
            ..
        } => {
            let first = statement(alloc, scope, then)?;
            let further = arms(alloc, scope, others.as_slice())?;
            let ending = last(alloc, scope, otherwise)?;
            let test = condition(alloc, &scope.names, e)?;
            chained_if(alloc, keyword.place, head(test, first), further, ending)
        }
        Statement::Select {
            keyword,
            selector: value,
            whens: parts,
            otherwise,
            ..
        } => {
            let rule = test_rule(alloc, &scope.names, value, parts.as_slice())?;
            let forms = whens(alloc, scope, parts.as_slice(), rule)?;
            let ending = last(alloc, scope, otherwise)?;
            let selected = selector(alloc, &scope.names, value, rule.decimals)?;
            selection(alloc, keyword.place, selected, forms, ending)
        }
        Statement::Do {
            keyword,
            control: kind,
            body,
            ..
        } => {
            let inner = statements(alloc, scope, body.as_slice())?;
            let looped = control(alloc, &scope.names, kind)?;
            do_statement(alloc, keyword.place, looped, inner)
        }
    }
}

/// What becomes of an `else if`.
#[cycle(type_statements)]
fn else_if(alloc: Global, scope: &MethodScope<'_>, x: &ElseIf) -> Result<ArmOutcome, OutOfMemory>
    ensures { (types : TypeScope) → IsMethodScope types scope.now → IfOk result (IsOutcome (λ a. arm_of a ≡ arm_form types x.now) (arm_refusals types x.now)) }
{
    let first = statement(alloc, scope, &x.then)?;
    let test = condition(alloc, &scope.names, &x.condition)?;
    Ok(arm(x.keyword.place, test, first))
}

/// What becomes of the parts that are chained to an `if`.
#[cycle(type_statements)]
fn arms(
    alloc: Global,
    scope: &MethodScope<'_>,
    others: &[ElseIf],
) -> Result<ArmsOutcome, OutOfMemory>
    ensures { (types : TypeScope) → IsMethodScope types scope.now
        → IfOk result (AreTypedAs arm_of (from_each (arm_refusals types) others.now) (map (arm_form types) others.now)) }
{
    let mut all: ArmsOutcome = Ok(List::new(alloc));
    'others: for x in others {
        let one = else_if(alloc, scope, x)?;
        all = with_one(all, one)?;
    }
    Ok(all)
}

/// What becomes of a `when` part.
#[cycle(type_statements)]
fn when(
    alloc: Global,
    scope: &MethodScope<'_>,
    w: &When,
    rule: TestRule,
) -> Result<WhenOutcome, OutOfMemory>
    ensures { (types : TypeScope) → IsMethodScope types scope.now
        → IfOk result (IsOutcome (λ x. when_of x ≡ when_form types rule.decimals w.now) (part_refusals types (test_rule rule.beside) w.now)) }
{
    let body = statement(alloc, scope, &w.statement)?;
    let values = tests(alloc, &scope.names, rule, w.values.as_slice())?;
    Ok(when_part(values, body))
}

/// What becomes of the `when` parts of a `select`.
#[cycle(type_statements)]
fn whens(
    alloc: Global,
    scope: &MethodScope<'_>,
    parts: &[When],
    rule: TestRule,
) -> Result<WhensOutcome, OutOfMemory>
    ensures { (types : TypeScope) → IsMethodScope types scope.now
        → IfOk result (AreTypedAs when_of (from_each (part_refusals types (test_rule rule.beside)) parts.now) (map (when_form types rule.decimals) parts.now)) }
{
    let mut all: WhensOutcome = Ok(List::new(alloc));
    'parts: for w in parts {
        let one = when(alloc, scope, w, rule)?;
        all = with_one(all, one)?;
    }
    Ok(all)
}

/// What becomes of a last part, where there is one.
#[cycle(type_statements)]
fn last(
    alloc: Global,
    scope: &MethodScope<'_>,
    otherwise: &Option<Otherwise>,
) -> Result<LastOutcome, OutOfMemory>
    ensures { (types : TypeScope) → IsMethodScope types scope.now
        → IfOk result (IsOutcome (λ o. option_map boxed_tree o ≡ last_node types (otherwise_tree otherwise.now)) (otherwise_refusals types (otherwise_tree otherwise.now))) }
{
    match otherwise {
        None => Ok(Ok(None)),
        Some(part) => {
            let body = statement(alloc, scope, &part.statement)?;
            Ok(last_part(body))
        }
    }
}

/// What becomes of statements, in order.
#[cycle(type_statements)]
fn statements(
    alloc: Global,
    scope: &MethodScope<'_>,
    body: &[Statement],
) -> Result<BodyOutcome, OutOfMemory>
    ensures { (types : TypeScope) → IsMethodScope types scope.now
        → IfOk result (AreTypedAs typed_statement (from_each (own_refusals types) body.now) (map (own_node types) body.now)) }
{
    let mut all: BodyOutcome = Ok(List::new(alloc));
    'body: for s in body {
        let one = statement(alloc, scope, s)?;
        all = with_one(all, unboxed(one))?;
    }
    Ok(all)
}

/// What becomes of the statements of a method, or the one of the rules that are broken in them that is given.
pub fn method_body(
    alloc: Global,
    scope: &MethodScope<'_>,
    body: &[Statement],
) -> Result<BodyOutcome, OutOfMemory>
    ensures { (types : TypeScope) → IsMethodScope types scope.now
        → IfOk result (IsOutcome (λ l. typed_statements l ≡ statements_node types (statements_of body.now)) (statements_refusals types (statements_of body.now))) }
{
    statements(alloc, scope, body)
}
