//! The walk over the statements of a method that all rules on uses of names share.
ghost use Rattle.std.specs.Prelude.{◌≡◌, ◌∷◌, ◌++◌, [], IfOk, map};
ghost use Rattle.std.specs.Option.{option_map};
ghost use Rattle.ds2_tree.specs.ExpressionViews.{expression_tree, arguments_of};
ghost use Rattle.ds2_tree.specs.StatementViews.{selector_tree, step_tree, counted_tree, control_tree, statement_tree, statements_of, whens_of, otherwise_tree};
ghost use Rattle.ds2_names.specs.NameRules.{from_each};
ghost use Rattle.ds2_names.specs.Uses.{Sets, WritesTo, uses, argument_uses, item_uses, uses_if_any, step_uses, control_uses, selector_uses, statement_uses, statements_uses, when_uses, otherwise_uses};
ghost use Rattle.ds2_scope.specs.Earliest.{earliest};
ghost use Rattle.ds2_calls.specs.UseParts.{earliest_use, else_if_uses};

use crate::use_walk::{UseRule, in_arguments, in_call, in_expression};
use ds2_base::{OutOfMemory, Place};
use ds2_scope::earlier_of;
use ds2_token::Token;
use ds2_tree::{
    CountedControl, DoControl, ElseIf, Expression, Otherwise, PutItem, Selector, Statement, Step,
    When,
};
use std::alloc::Global;

// The earliest one in an item of `put`.
fn in_item<R: UseRule>(
    alloc: Global,
    rule: &R,
    item: &PutItem,
) -> Result<Option<Place>, OutOfMemory>
    ensures { IfOk result (λ place. place ≡ earliest_use (R.places rule.now) (item_uses (R.flags rule.now) (item.now ∷ []))) }
{
    match item {
        PutItem::Text(_) => Ok(None),
        PutItem::Variable { name, .. } => rule.value(alloc, name),
        PutItem::Member { object, member, .. } => rule.member(alloc, object, member),
    }
}

// The earliest one in the items of `put`.
fn in_items<R: UseRule>(
    alloc: Global,
    rule: &R,
    items: &[PutItem],
) -> Result<Option<Place>, OutOfMemory>
    ensures { IfOk result (λ place. place ≡ earliest_use (R.places rule.now) (item_uses (R.flags rule.now) items.now)) }
{
    let mut found: Option<Place> = None;
    'items: for item in items {
        found = earlier_of(found, in_item(alloc, rule, item)?);
    }
    Ok(found)
}

// The earliest one in the tables of `output`.
fn in_tables<R: UseRule>(
    alloc: Global,
    rule: &R,
    tables: &[Token],
) -> Result<Option<Place>, OutOfMemory>
    ensures { IfOk result (λ place. place ≡ earliest_use (R.places rule.now) (map WritesTo tables.now)) }
{
    let mut found: Option<Place> = None;
    'tables: for table in tables {
        found = earlier_of(found, rule.write(alloc, table)?);
    }
    Ok(found)
}

// The earliest one in an expression that may be left out.
fn in_value<R: UseRule>(
    alloc: Global,
    rule: &R,
    value: &Option<Expression>,
) -> Result<Option<Place>, OutOfMemory>
    ensures { IfOk result (λ place. place ≡ earliest_use (R.places rule.now) (uses_if_any (R.flags rule.now) (option_map expression_tree value.now))) }
{
    match value {
        None => Ok(None),
        Some(value) => in_expression(alloc, rule, value),
    }
}

// The earliest one in the value of a `select`.
fn in_selector<R: UseRule>(
    alloc: Global,
    rule: &R,
    selector: &Option<Selector>,
) -> Result<Option<Place>, OutOfMemory>
    ensures { IfOk result (λ place. place ≡ earliest_use (R.places rule.now) (selector_uses (R.flags rule.now) (option_map selector_tree selector.now))) }
{
    match selector {
        None => Ok(None),
        Some(selector) => in_expression(alloc, rule, &selector.value),
    }
}

// The earliest one in the step of a counted `do`.
fn in_step<R: UseRule>(
    alloc: Global,
    rule: &R,
    step: &Option<Step>,
) -> Result<Option<Place>, OutOfMemory>
    ensures { IfOk result (λ place. place ≡ earliest_use (R.places rule.now) (step_uses (R.flags rule.now) (option_map step_tree step.now))) }
{
    match step {
        None => Ok(None),
        Some(step) => in_expression(alloc, rule, &step.value),
    }
}

// The earliest one where a variable is set to a value.
#[tactic(auto, using(crate::proofs::UseLemmas::use_and))]
fn in_setting<R: UseRule>(
    alloc: Global,
    rule: &R,
    target: &Token,
    value: &Expression,
) -> Result<Option<Place>, OutOfMemory>
    ensures { IfOk result (λ place. place ≡ earliest_use (R.places rule.now) (Sets target.now ∷ uses (R.flags rule.now) (expression_tree value.now))) }
{
    let found = rule.set(alloc, target)?;
    let further = in_expression(alloc, rule, value)?;
    Ok(earlier_of(found, further))
}

// The earliest one in a count.
#[tactic(auto, using(crate::proofs::UseLemmas::uses_of_count))]
fn in_count<R: UseRule>(
    alloc: Global,
    rule: &R,
    count: &CountedControl,
) -> Result<Option<Place>, OutOfMemory>
    ensures { IfOk result (λ place. place ≡ earliest_use (R.places rule.now) (control_uses (R.flags rule.now) (counted_tree count.now))) }
{
    let found = in_setting(alloc, rule, &count.variable, &count.start)?;
    let end = in_expression(alloc, rule, &count.stop)?;
    let by = in_step(alloc, rule, &count.step)?;
    Ok(earlier_of(found, earlier_of(end, by)))
}

// The earliest one between `do` and its `;`.
fn in_control<R: UseRule>(
    alloc: Global,
    rule: &R,
    control: &DoControl,
) -> Result<Option<Place>, OutOfMemory>
    ensures { IfOk result (λ place. place ≡ earliest_use (R.places rule.now) (control_uses (R.flags rule.now) (control_tree control.now))) }
{
    match control {
        DoControl::Block => Ok(None),
        DoControl::Counted(count) => in_count(alloc, rule, count),
        DoControl::Tested(test) => in_expression(alloc, rule, &test.condition),
    }
}

// The earliest one within a statement.
#[cycle(walk_statements)]
#[tactic(auto, using(crate::proofs::UseLemmas::uses_of_if, crate::proofs::UseLemmas::uses_of_select, crate::proofs::UseLemmas::uses_of_do))]
fn in_statement<R: UseRule>(
    alloc: Global,
    rule: &R,
    s: &Statement,
) -> Result<Option<Place>, OutOfMemory>
    ensures { IfOk result (λ place. place ≡ earliest_use (R.places rule.now) (statement_uses (R.flags rule.now) (statement_tree s.now))) }
{
    match s {
        Statement::Empty { .. } => Ok(None),
        Statement::Assignment { target, value, .. } => in_setting(alloc, rule, target, value),
        Statement::Call {
            callee,
            arguments,
            ..
        } => in_call(alloc, rule, callee, arguments.as_slice()),
        Statement::Leave { .. } => Ok(None),
        Statement::Continue { .. } => Ok(None),
        Statement::Return { value, .. } => in_value(alloc, rule, value),
        Statement::Output { tables, .. } => in_tables(alloc, rule, tables.as_slice()),
        Statement::Put { items, .. } => in_items(alloc, rule, items.as_slice()),
        Statement::If {
            condition,
            then,
            others,
            otherwise,
            ..
        } => {
            let test = in_expression(alloc, rule, condition)?;
            let first = in_statement(alloc, rule, then)?;
            let further = in_others(alloc, rule, others.as_slice())?;
            let last = in_otherwise(alloc, rule, otherwise)?;
            Ok(earlier_of(test, earlier_of(first, earlier_of(further, last))))
        }
        Statement::Select {
            selector,
            whens,
            otherwise,
            ..
        } => {
            let test = in_selector(alloc, rule, selector)?;
            let first = in_whens(alloc, rule, whens.as_slice())?;
            let last = in_otherwise(alloc, rule, otherwise)?;
            Ok(earlier_of(test, earlier_of(first, last)))
        }
        Statement::Do { control, body, .. } => {
            let test = in_control(alloc, rule, control)?;
            let first = in_statements(alloc, rule, body.as_slice())?;
            Ok(earlier_of(test, first))
        }
    }
}

// The earliest one within a part that is chained to an `if`.
#[cycle(walk_statements)]
#[tactic(auto, using(crate::proofs::UseLemmas::both_uses))]
fn in_else_if<R: UseRule>(alloc: Global, rule: &R, x: &ElseIf) -> Result<Option<Place>, OutOfMemory>
    ensures { IfOk result (λ place. place ≡ earliest_use (R.places rule.now) (else_if_uses (R.flags rule.now) x.now)) }
{
    let test = in_expression(alloc, rule, &x.condition)?;
    let first = in_statement(alloc, rule, &x.then)?;
    Ok(earlier_of(test, first))
}

// The earliest one within the parts that are chained to an `if`.
#[cycle(walk_statements)]
fn in_others<R: UseRule>(
    alloc: Global,
    rule: &R,
    others: &[ElseIf],
) -> Result<Option<Place>, OutOfMemory>
    ensures { IfOk result (λ place. place ≡ earliest (from_each (λ x. from_each (R.places rule.now) (else_if_uses (R.flags rule.now) x)) others.now)) }
{
    let mut found: Option<Place> = None;
    'others: for x in others {
        found = earlier_of(found, in_else_if(alloc, rule, x)?);
    }
    Ok(found)
}

// The earliest one within a last part.
#[cycle(walk_statements)]
fn in_otherwise<R: UseRule>(
    alloc: Global,
    rule: &R,
    otherwise: &Option<Otherwise>,
) -> Result<Option<Place>, OutOfMemory>
    ensures { IfOk result (λ place. place ≡ earliest_use (R.places rule.now) (otherwise_uses (R.flags rule.now) (otherwise_tree otherwise.now))) }
{
    match otherwise {
        None => Ok(None),
        Some(last) => in_statement(alloc, rule, &last.statement),
    }
}

// The earliest one within a part of a `select`.
#[cycle(walk_statements)]
#[tactic(auto, using(crate::proofs::UseLemmas::both_uses))]
fn in_when<R: UseRule>(alloc: Global, rule: &R, when: &When) -> Result<Option<Place>, OutOfMemory>
    ensures { IfOk result (λ place. place ≡ earliest_use (R.places rule.now) (argument_uses (R.flags rule.now) [] (arguments_of when.now.values) ++ statement_uses (R.flags rule.now) (statement_tree when.now.statement))) }
{
    let test = in_arguments(alloc, rule, &[], when.values.as_slice())?;
    let first = in_statement(alloc, rule, &when.statement)?;
    Ok(earlier_of(test, first))
}

// The earliest one within the parts of a `select`.
#[cycle(walk_statements)]
fn in_whens<R: UseRule>(
    alloc: Global,
    rule: &R,
    whens: &[When],
) -> Result<Option<Place>, OutOfMemory>
    ensures { IfOk result (λ place. place ≡ earliest_use (R.places rule.now) (when_uses (R.flags rule.now) (whens_of whens.now))) }
{
    let mut found: Option<Place> = None;
    'whens: for when in whens {
        found = earlier_of(found, in_when(alloc, rule, when)?);
    }
    Ok(found)
}

/// The earliest place at which statements break a rule on uses.
#[cycle(walk_statements)]
pub fn in_statements<R: UseRule>(
    alloc: Global,
    rule: &R,
    body: &[Statement],
) -> Result<Option<Place>, OutOfMemory>
    ensures { IfOk result (λ place. place ≡ earliest_use (R.places rule.now) (statements_uses (R.flags rule.now) (statements_of body.now))) }
{
    let mut found: Option<Place> = None;
    'body: for s in body {
        found = earlier_of(found, in_statement(alloc, rule, s)?);
    }
    Ok(found)
}
