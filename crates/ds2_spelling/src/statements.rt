//! The tokens of statements.
ghost use Rattle.std.specs.Prelude.{◌≡◌, ◌∷◌, ◌++◌, [], OnOk};
ghost use Rattle.std.specs.Option.{option_map};
ghost use Rattle.ds2_tree.specs.Lists.{if_any, all_spelled};
ghost use Rattle.ds2_tree.specs.Marks.{semicolon_mark};
ghost use Rattle.ds2_tree.specs.Expressions.{expression_spelling};
ghost use Rattle.ds2_tree.specs.ExpressionViews.{expression_tree};
ghost use Rattle.ds2_tree.specs.Statements.{item_spelling, selector_spelling, step_spelling, control_spelling, statement_spelling, statements_spelling, whens_spelling};
ghost use Rattle.ds2_tree.specs.StatementViews.{selector_tree, step_tree, counted_tree, tested_tree, control_tree, statement_tree, statements_of, whens_of, else_if_spelling};

use crate::expressions::{spell_arguments, spell_call, spell_expression};
use crate::tokens::{Added, push_mark, push_token, push_tokens};
use ds2_base::{List, Place};
use ds2_token::Token;
use ds2_tree::{
    CountedControl, DoControl, ElseIf, Expression, PutItem, Selector, Statement, Step,
    TestedControl, When,
};
use std::alloc::Global;

// Adds a keyword and the `;` behind it.
fn spell_keyword(alloc: Global, out: &mut List<Token>, keyword: &Token, end: Place) -> Added
    ensures { OnOk result (out.new ≡ out.old ++ keyword.now ∷ (semicolon_mark end ∷ [])) }
{
    push_token(alloc, out, keyword)?;
    push_mark(alloc, out, ";", end)
}

// Adds the tokens of an item of `put`.
fn spell_item(alloc: Global, out: &mut List<Token>, item: &PutItem) -> Added
    ensures { OnOk result (out.new ≡ out.old ++ item_spelling item.now) }
{
    match item {
        PutItem::Text(text) => push_token(alloc, out, text),
        PutItem::Variable { name, equals } => {
            push_token(alloc, out, name)?;
            match equals {
                None => Ok(()),
                Some(place) => push_mark(alloc, out, "=", *place),
            }
        }
        PutItem::Member {
            object,
            dot,
            member,
        } => {
            push_token(alloc, out, object)?;
            push_mark(alloc, out, ".", *dot)?;
            push_token(alloc, out, member)
        }
    }
}

// Adds the tokens of the items of `put`.
fn spell_items(alloc: Global, out: &mut List<Token>, items: &[PutItem]) -> Added
    ensures { OnOk result (out.new ≡ out.old ++ all_spelled item_spelling items.now) }
{
    for item in items {
        spell_item(alloc, out, item)?;
    }
    Ok(())
}

// Adds the tokens of an expression, where there is one.
fn spell_value(alloc: Global, out: &mut List<Token>, value: &Option<Expression>) -> Added
    ensures { OnOk result (out.new ≡ out.old ++ if_any expression_spelling (option_map expression_tree value.now)) }
{
    match value {
        None => Ok(()),
        Some(value) => spell_expression(alloc, out, value),
    }
}

// Adds the tokens of what stands behind `select`.
fn spell_selector(alloc: Global, out: &mut List<Token>, selector: &Option<Selector>) -> Added
    ensures { OnOk result (out.new ≡ out.old ++ if_any selector_spelling (option_map selector_tree selector.now)) }
{
    match selector {
        None => Ok(()),
        Some(selector) => {
            push_mark(alloc, out, "(", selector.opening)?;
            spell_expression(alloc, out, &selector.value)?;
            push_mark(alloc, out, ")", selector.closing)
        }
    }
}

// Adds the tokens of the step of a counted loop.
fn spell_step(alloc: Global, out: &mut List<Token>, step: &Option<Step>) -> Added
    ensures { OnOk result (out.new ≡ out.old ++ if_any step_spelling (option_map step_tree step.now)) }
{
    match step {
        None => Ok(()),
        Some(step) => {
            push_token(alloc, out, &step.keyword)?;
            spell_expression(alloc, out, &step.value)
        }
    }
}

// Adds the tokens of a count.
fn spell_count(alloc: Global, out: &mut List<Token>, count: &CountedControl) -> Added
    ensures { OnOk result (out.new ≡ out.old ++ control_spelling (counted_tree count.now)) }
{
    push_token(alloc, out, &count.variable)?;
    push_mark(alloc, out, "=", count.equals)?;
    spell_expression(alloc, out, &count.start)?;
    push_token(alloc, out, &count.to_keyword)?;
    spell_expression(alloc, out, &count.stop)?;
    spell_step(alloc, out, &count.step)
}

// Adds the tokens of a tested condition.
fn spell_test(alloc: Global, out: &mut List<Token>, test: &TestedControl) -> Added
    ensures { OnOk result (out.new ≡ out.old ++ control_spelling (tested_tree test.now)) }
{
    push_token(alloc, out, &test.keyword)?;
    push_mark(alloc, out, "(", test.opening)?;
    spell_expression(alloc, out, &test.condition)?;
    push_mark(alloc, out, ")", test.closing)
}

// Adds the tokens between `do` and its `;`.
fn spell_control(alloc: Global, out: &mut List<Token>, control: &DoControl) -> Added
    ensures { OnOk result (out.new ≡ out.old ++ control_spelling (control_tree control.now)) }
{
    match control {
        DoControl::Block => Ok(()),
        DoControl::Counted(count) => spell_count(alloc, out, count),
        DoControl::Tested(test) => spell_test(alloc, out, test),
    }
}

// Adds the tokens `if` condition `then`.
fn spell_condition(
    alloc: Global,
    out: &mut List<Token>,
    keyword: &Token,
    condition: &Expression,
    then_keyword: &Token,
) -> Added
    ensures { OnOk result (out.new ≡ out.old ++ keyword.now ∷ (expression_spelling (expression_tree condition.now) ++ (then_keyword.now ∷ []))) }
{
    push_token(alloc, out, keyword)?;
    spell_expression(alloc, out, condition)?;
    push_token(alloc, out, then_keyword)
}

// Adds the tokens of a statement.
#[cycle(spell_statements)]
fn spell_statement(alloc: Global, out: &mut List<Token>, s: &Statement) -> Added
    ensures { OnOk result (out.new ≡ out.old ++ statement_spelling (statement_tree s.now)) }
{
    match s {
        Statement::Empty { end } => push_mark(alloc, out, ";", *end),
        Statement::Assignment {
            target,
            equals,
            value,
            end,
        } => {
            push_token(alloc, out, target)?;
            push_mark(alloc, out, "=", *equals)?;
            spell_expression(alloc, out, value)?;
            push_mark(alloc, out, ";", *end)
        }
        Statement::Call {
            callee,
            opening,
            arguments,
            closing,
            end,
        } => {
            spell_call(alloc, out, callee, *opening, arguments.as_slice(), *closing)?;
            push_mark(alloc, out, ";", *end)
        }
        Statement::Leave { keyword, end } => spell_keyword(alloc, out, keyword, *end),
        Statement::Continue { keyword, end } => spell_keyword(alloc, out, keyword, *end),
        Statement::Return {
            keyword,
            value,
            end,
        } => {
            push_token(alloc, out, keyword)?;
            spell_value(alloc, out, value)?;
            push_mark(alloc, out, ";", *end)
        }
        Statement::Output {
            keyword,
            tables,
            end,
        } => {
            push_token(alloc, out, keyword)?;
            push_tokens(alloc, out, tables.as_slice())?;
            push_mark(alloc, out, ";", *end)
        }
        Statement::Put {
            keyword,
            items,
            end,
        } => {
            push_token(alloc, out, keyword)?;
            spell_items(alloc, out, items.as_slice())?;
            push_mark(alloc, out, ";", *end)
        }
        Statement::If {
            keyword,
            condition,
            then_keyword,
            then,
            others,
            otherwise,
        } => {
            spell_condition(alloc, out, keyword, condition, then_keyword)?;
            spell_statement(alloc, out, then)?;
            spell_others(alloc, out, others.as_slice())?;
            match otherwise {
                None => Ok(()),
                Some(last) => {
                    push_token(alloc, out, &last.keyword)?;
                    spell_statement(alloc, out, &last.statement)
                }
            }
        }
        Statement::Select {
            keyword,
            selector,
            semicolon,
            whens,
            otherwise,
            end_keyword,
            end,
        } => {
            push_token(alloc, out, keyword)?;
            spell_selector(alloc, out, selector)?;
            push_mark(alloc, out, ";", *semicolon)?;
            spell_whens(alloc, out, whens.as_slice())?;
            match otherwise {
                None => spell_keyword(alloc, out, end_keyword, *end),
                Some(part) => {
                    push_token(alloc, out, &part.keyword)?;
                    spell_statement(alloc, out, &part.statement)?;
                    spell_keyword(alloc, out, end_keyword, *end)
                }
            }
        }
        Statement::Do {
            keyword,
            control,
            semicolon,
            body,
            end_keyword,
            end,
        } => {
            push_token(alloc, out, keyword)?;
            spell_control(alloc, out, control)?;
            push_mark(alloc, out, ";", *semicolon)?;
            spell_statements(alloc, out, body.as_slice())?;
            spell_keyword(alloc, out, end_keyword, *end)
        }
    }
}

// Adds the tokens of the `else if` parts that are chained to an `if`.
#[cycle(spell_statements)]
fn spell_others(alloc: Global, out: &mut List<Token>, others: &[ElseIf]) -> Added
    ensures { OnOk result (out.new ≡ out.old ++ all_spelled else_if_spelling others.now) }
{
    for other in others {
        push_token(alloc, out, &other.else_keyword)?;
        spell_condition(
            alloc,
            out,
            &other.keyword,
            &other.condition,
            &other.then_keyword,
        )?;
        spell_statement(alloc, out, &other.then)?;
    }
    Ok(())
}

// Adds the tokens of the `when` parts of a `select`.
#[cycle(spell_statements)]
fn spell_whens(alloc: Global, out: &mut List<Token>, whens: &[When]) -> Added
    ensures { OnOk result (out.new ≡ out.old ++ whens_spelling (whens_of whens.now)) }
{
    for when in whens {
        push_token(alloc, out, &when.keyword)?;
        push_mark(alloc, out, "(", when.opening)?;
        spell_arguments(alloc, out, when.values.as_slice())?;
        push_mark(alloc, out, ")", when.closing)?;
        spell_statement(alloc, out, &when.statement)?;
    }
    Ok(())
}

// Adds the tokens of statements.
#[cycle(spell_statements)]
pub fn spell_statements(alloc: Global, out: &mut List<Token>, statements: &[Statement]) -> Added
    ensures { OnOk result (out.new ≡ out.old ++ statements_spelling (statements_of statements.now)) }
{
    for statement in statements {
        spell_statement(alloc, out, statement)?;
    }
    Ok(())
}
