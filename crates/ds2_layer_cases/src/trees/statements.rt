//! How statements are grouped: `(x := e)` is an assignment, and `(if a s else-if b s else s)` one chain of an `if`.
use crate::trees::controls::{say_control, say_items, say_selector, say_value};
use crate::trees::expressions::{say_arguments, say_call, say_expression};
use crate::trees::tokens::{Said, say_token, say_tokens};
use ds2_token::Token;
use ds2_tree::{DoControl, ElseIf, Expression, Otherwise, Selector, Statement, When};

fn say_assignment(said: &mut String, target: &Token, value: &Expression) -> Said {
    said.push('(')?;
    say_token(said, target)?;
    said.push_str(" := ")?;
    say_expression(said, value)?;
    said.push(')')
}

fn say_return(said: &mut String, value: &Option<Expression>) -> Said {
    said.push_str("(return")?;
    say_value(said, value)?;
    said.push(')')
}

// Says a condition behind its words, and a blank.
fn say_condition(said: &mut String, words: &str, condition: &Expression) -> Said {
    said.push_str(words)?;
    say_expression(said, condition)?;
    said.push(' ')
}

#[cycle(say_statements)]
fn say_statement(said: &mut String, statement: &Statement) -> Said {
    match statement {
        Statement::Empty { .. } => said.push_str("(empty)"),
        Statement::Assignment { target, value, .. } => say_assignment(said, target, value),
        Statement::Call {
            callee,
            arguments,
            ..
        } => say_call(said, callee, arguments.as_slice()),
        Statement::Leave { .. } => said.push_str("(leave)"),
        Statement::Continue { .. } => said.push_str("(continue)"),
        Statement::Return { value, .. } => say_return(said, value),
        Statement::Output { tables, .. } => {
            said.push_str("(output")?;
            say_tokens(said, tables.as_slice())?;
            said.push(')')
        }
        Statement::Put { items, .. } => {
            said.push_str("(put")?;
            say_items(said, items.as_slice())?;
            said.push(')')
        }
        Statement::If {
            condition,
            then,
            others,
            otherwise,
            ..
        } => {
            say_condition(said, "(if ", condition)?;
            say_statement(said, then)?;
            say_others(said, others.as_slice())?;
            say_otherwise(said, " else ", otherwise)?;
            said.push(')')
        }
        Statement::Select {
            selector,
            whens,
            otherwise,
            ..
        } => {
            said.push_str("(select")?;
            say_selector(said, selector)?;
            say_whens(said, whens.as_slice())?;
            say_otherwise(said, " otherwise ", otherwise)?;
            said.push(')')
        }
        Statement::Do { control, body, .. } => {
            said.push_str("(do")?;
            say_control(said, control)?;
            say_statements(said, body.as_slice())?;
            said.push(')')
        }
    }
}

#[cycle(say_statements)]
fn say_others(said: &mut String, others: &[ElseIf]) -> Said {
    for other in others {
        say_condition(said, " else-if ", &other.condition)?;
        say_statement(said, &other.then)?;
    }
    Ok(())
}

#[cycle(say_statements)]
fn say_otherwise(said: &mut String, word: &str, otherwise: &Option<Otherwise>) -> Said {
    match otherwise {
        None => Ok(()),
        Some(otherwise) => {
            said.push_str(word)?;
            say_statement(said, &otherwise.statement)
        }
    }
}

#[cycle(say_statements)]
fn say_whens(said: &mut String, whens: &[When]) -> Said {
    for when in whens {
        said.push_str(" when ")?;
        say_arguments(said, when.values.as_slice())?;
        said.push(' ')?;
        say_statement(said, &when.statement)?;
    }
    Ok(())
}

/// Says statements, each behind a blank.
#[cycle(say_statements)]
pub fn say_statements(said: &mut String, statements: &[Statement]) -> Said {
    for statement in statements {
        said.push(' ')?;
        say_statement(said, statement)?;
    }
    Ok(())
}
