//! What statements mention.
ghost use Rattle.std.specs.Prelude.{◌≡◌, ◌∷◌, ◌++◌, [], IfOk, OnOk};
ghost use Rattle.std.specs.Option.{option_map};
ghost use Rattle.ds2_tree.specs.ExpressionViews.{expression_tree, arguments_of};
ghost use Rattle.ds2_tree.specs.StatementViews.{selector_tree, step_tree, counted_tree, control_tree, statement_tree, statements_of, whens_of, otherwise_tree};
ghost use Rattle.ds2_names.specs.NameRules.{from_each};
ghost use Rattle.ds2_names.specs.Uses.{Sets, uses, argument_uses, uses_if_any, step_uses, control_uses, selector_uses, statement_uses, statements_uses, when_uses, otherwise_uses};
ghost use Rattle.ds2_calls.specs.UseParts.{else_if_uses};
ghost use Rattle.ds2_aliases.specs.MentionParts.{flags_by_calls, mentions_in_item, mentions_in_uses};

use crate::expressions::{push_arguments, push_call, push_expression, push_member, push_name};
use crate::mentions::Mention;
use ds2_base::{List, OutOfMemory};
use ds2_calls::Calls;
use ds2_token::Token;
use ds2_tree::{
    CountedControl, DoControl, ElseIf, Expression, Otherwise, PutItem, Selector, Statement, Step,
    When,
};
use std::alloc::Global;

// Adds what an item of `put` mentions.
fn push_item(alloc: Global, found: &mut List<Mention>, item: &PutItem) -> Result<(), OutOfMemory>
    ensures { OnOk result (found.new ≡ found.old ++ mentions_in_item item.now) }
{
    match item {
        PutItem::Text(_) => Ok(()),
        PutItem::Variable { name, .. } => push_name(alloc, found, name),
        PutItem::Member { object, .. } => push_member(alloc, found, object),
    }
}

// Adds what the items of `put` mention.
fn push_items(
    alloc: Global,
    found: &mut List<Mention>,
    items: &[PutItem],
) -> Result<(), OutOfMemory>
    ensures { OnOk result (found.new ≡ found.old ++ from_each mentions_in_item items.now) }
{
    'items: for item in items {
        push_item(alloc, found, item)?;
    }
    Ok(())
}

// Adds what an expression mentions that may be left out.
fn push_value(
    alloc: Global,
    calls: &Calls<'_, '_>,
    found: &mut List<Mention>,
    value: &Option<Expression>,
) -> Result<(), OutOfMemory>
    ensures { OnOk result (found.new ≡ found.old ++ mentions_in_uses (flags_by_calls calls.now) (uses_if_any (flags_by_calls calls.now) (option_map expression_tree value.now))) }
{
    match value {
        None => Ok(()),
        Some(value) => push_expression(alloc, calls, found, value),
    }
}

// Adds what the value of a `select` mentions.
fn push_selector(
    alloc: Global,
    calls: &Calls<'_, '_>,
    found: &mut List<Mention>,
    selector: &Option<Selector>,
) -> Result<(), OutOfMemory>
    ensures { OnOk result (found.new ≡ found.old ++ mentions_in_uses (flags_by_calls calls.now) (selector_uses (flags_by_calls calls.now) (option_map selector_tree selector.now))) }
{
    match selector {
        None => Ok(()),
        Some(selector) => push_expression(alloc, calls, found, &selector.value),
    }
}

// Adds what the step of a counted `do` mentions.
fn push_step(
    alloc: Global,
    calls: &Calls<'_, '_>,
    found: &mut List<Mention>,
    step: &Option<Step>,
) -> Result<(), OutOfMemory>
    ensures { OnOk result (found.new ≡ found.old ++ mentions_in_uses (flags_by_calls calls.now) (step_uses (flags_by_calls calls.now) (option_map step_tree step.now))) }
{
    match step {
        None => Ok(()),
        Some(step) => push_expression(alloc, calls, found, &step.value),
    }
}

// Adds what is mentioned where a variable is set to a value.
fn push_setting(
    alloc: Global,
    calls: &Calls<'_, '_>,
    found: &mut List<Mention>,
    target: &Token,
    value: &Expression,
) -> Result<(), OutOfMemory>
    ensures { OnOk result (found.new ≡ found.old ++ mentions_in_uses (flags_by_calls calls.now) (Sets target.now ∷ uses (flags_by_calls calls.now) (expression_tree value.now))) }
{
    push_name(alloc, found, target)?;
    push_expression(alloc, calls, found, value)
}

// Adds what a count mentions.
#[tactic(auto, using(crate::proofs::MentionLemmas::mentions_of_count))]
fn push_count(
    alloc: Global,
    calls: &Calls<'_, '_>,
    found: &mut List<Mention>,
    count: &CountedControl,
) -> Result<(), OutOfMemory>
    ensures { OnOk result (found.new ≡ found.old ++ mentions_in_uses (flags_by_calls calls.now) (control_uses (flags_by_calls calls.now) (counted_tree count.now))) }
{
    push_setting(alloc, calls, found, &count.variable, &count.start)?;
    push_expression(alloc, calls, found, &count.stop)?;
    push_step(alloc, calls, found, &count.step)
}

// Adds what stands between `do` and its `;`.
fn push_control(
    alloc: Global,
    calls: &Calls<'_, '_>,
    found: &mut List<Mention>,
    control: &DoControl,
) -> Result<(), OutOfMemory>
    ensures { OnOk result (found.new ≡ found.old ++ mentions_in_uses (flags_by_calls calls.now) (control_uses (flags_by_calls calls.now) (control_tree control.now))) }
{
    match control {
        DoControl::Block => Ok(()),
        DoControl::Counted(count) => push_count(alloc, calls, found, count),
        DoControl::Tested(test) => push_expression(alloc, calls, found, &test.condition),
    }
}

// Adds what a statement mentions.
#[cycle(mention_statements)]
fn push_statement(
    alloc: Global,
    calls: &Calls<'_, '_>,
    found: &mut List<Mention>,
    s: &Statement,
) -> Result<(), OutOfMemory>
    ensures { OnOk result (found.new ≡ found.old ++ mentions_in_uses (flags_by_calls calls.now) (statement_uses (flags_by_calls calls.now) (statement_tree s.now))) }
{
    match s {
        Statement::Empty { .. } => Ok(()),
        Statement::Assignment { target, value, .. } => {
            push_setting(alloc, calls, found, target, value)
        }
        Statement::Call {
            callee,
            arguments,
            ..
        } => push_call(alloc, calls, found, callee, arguments.as_slice()),
        Statement::Leave { .. } => Ok(()),
        Statement::Continue { .. } => Ok(()),
        Statement::Return { value, .. } => push_value(alloc, calls, found, value),
        Statement::Output { .. } => Ok(()),
        Statement::Put { items, .. } => push_items(alloc, found, items.as_slice()),
        Statement::If {
            condition,
            then,
            others,
            otherwise,
            ..
        } => {
            push_expression(alloc, calls, found, condition)?;
            push_statement(alloc, calls, found, then)?;
            push_others(alloc, calls, found, others.as_slice())?;
            push_otherwise(alloc, calls, found, otherwise)
        }
        Statement::Select {
            selector,
            whens,
            otherwise,
            ..
        } => {
            push_selector(alloc, calls, found, selector)?;
            push_whens(alloc, calls, found, whens.as_slice())?;
            push_otherwise(alloc, calls, found, otherwise)
        }
        Statement::Do { control, body, .. } => {
            push_control(alloc, calls, found, control)?;
            push_statements(alloc, calls, found, body.as_slice())
        }
    }
}

// Adds what a part that is chained to an `if` mentions.
#[cycle(mention_statements)]
fn push_else_if(
    alloc: Global,
    calls: &Calls<'_, '_>,
    found: &mut List<Mention>,
    x: &ElseIf,
) -> Result<(), OutOfMemory>
    ensures { OnOk result (found.new ≡ found.old ++ mentions_in_uses (flags_by_calls calls.now) (else_if_uses (flags_by_calls calls.now) x.now)) }
{
    push_expression(alloc, calls, found, &x.condition)?;
    push_statement(alloc, calls, found, &x.then)
}

// Adds what the parts that are chained to an `if` mention.
#[cycle(mention_statements)]
fn push_others(
    alloc: Global,
    calls: &Calls<'_, '_>,
    found: &mut List<Mention>,
    others: &[ElseIf],
) -> Result<(), OutOfMemory>
    ensures { OnOk result (found.new ≡ found.old ++ from_each (λ x. mentions_in_uses (flags_by_calls calls.now) (else_if_uses (flags_by_calls calls.now) x)) others.now) }
{
    'others: for x in others {
        push_else_if(alloc, calls, found, x)?;
    }
    Ok(())
}

// Adds what a last part mentions.
#[cycle(mention_statements)]
fn push_otherwise(
    alloc: Global,
    calls: &Calls<'_, '_>,
    found: &mut List<Mention>,
    otherwise: &Option<Otherwise>,
) -> Result<(), OutOfMemory>
    ensures { OnOk result (found.new ≡ found.old ++ mentions_in_uses (flags_by_calls calls.now) (otherwise_uses (flags_by_calls calls.now) (otherwise_tree otherwise.now))) }
{
    match otherwise {
        None => Ok(()),
        Some(last) => push_statement(alloc, calls, found, &last.statement),
    }
}

// Adds what a part of a `select` mentions.
#[cycle(mention_statements)]
fn push_when(
    alloc: Global,
    calls: &Calls<'_, '_>,
    found: &mut List<Mention>,
    when: &When,
) -> Result<(), OutOfMemory>
    ensures { OnOk result (found.new ≡ found.old ++ mentions_in_uses (flags_by_calls calls.now) (argument_uses (flags_by_calls calls.now) [] (arguments_of when.now.values) ++ statement_uses (flags_by_calls calls.now) (statement_tree when.now.statement))) }
{
    push_arguments(alloc, calls, found, when.values.as_slice())?;
    push_statement(alloc, calls, found, &when.statement)
}

// Adds what the parts of a `select` mention.
#[cycle(mention_statements)]
fn push_whens(
    alloc: Global,
    calls: &Calls<'_, '_>,
    found: &mut List<Mention>,
    whens: &[When],
) -> Result<(), OutOfMemory>
    ensures { OnOk result (found.new ≡ found.old ++ mentions_in_uses (flags_by_calls calls.now) (when_uses (flags_by_calls calls.now) (whens_of whens.now))) }
{
    'whens: for when in whens {
        push_when(alloc, calls, found, when)?;
    }
    Ok(())
}

// Adds what statements mention.
#[cycle(mention_statements)]
fn push_statements(
    alloc: Global,
    calls: &Calls<'_, '_>,
    found: &mut List<Mention>,
    body: &[Statement],
) -> Result<(), OutOfMemory>
    ensures { OnOk result (found.new ≡ found.old ++ mentions_in_uses (flags_by_calls calls.now) (statements_uses (flags_by_calls calls.now) (statements_of body.now))) }
{
    'body: for s in body {
        push_statement(alloc, calls, found, s)?;
    }
    Ok(())
}

/// What the body of a method mentions, in order; `calls` tells which parameters of what is called are in_out.
pub(crate) fn mentions_of_body(
    alloc: Global,
    calls: &Calls<'_, '_>,
    body: &[Statement],
) -> Result<List<Mention>, OutOfMemory>
    ensures { IfOk result (λ found. found ≡ mentions_in_uses (flags_by_calls calls.now) (statements_uses (flags_by_calls calls.now) (statements_of body.now))) }
{
    let mut found: List<Mention> = List::new(alloc);
    push_statements(alloc, calls, &mut found, body)?;
    Ok(found)
}
