//! The parts of statements that hold no statement.
use crate::trees::expressions::say_expression;
use crate::trees::tokens::{Said, say_member, say_token};
use ds2_tree::{CountedControl, DoControl, Expression, PutItem, Selector, Step, TestedControl};

/// Says an expression behind a blank, where there is one.
pub fn say_value(said: &mut String, value: &Option<Expression>) -> Said {
    match value {
        None => Ok(()),
        Some(value) => {
            said.push(' ')?;
            say_expression(said, value)
        }
    }
}

/// Says what stands behind `select`, behind a blank.
pub fn say_selector(said: &mut String, selector: &Option<Selector>) -> Said {
    match selector {
        None => Ok(()),
        Some(selector) => {
            said.push(' ')?;
            say_expression(said, &selector.value)
        }
    }
}

fn say_step(said: &mut String, step: &Option<Step>) -> Said {
    match step {
        None => Ok(()),
        Some(step) => {
            said.push_str(" by ")?;
            say_expression(said, &step.value)
        }
    }
}

fn say_count(said: &mut String, count: &CountedControl) -> Said {
    said.push(' ')?;
    say_token(said, &count.variable)?;
    said.push_str(" = ")?;
    say_expression(said, &count.start)?;
    said.push_str(" to ")?;
    say_expression(said, &count.stop)?;
    say_step(said, &count.step)?;
    said.push(':')
}

fn say_test(said: &mut String, test: &TestedControl) -> Said {
    said.push(' ')?;
    say_token(said, &test.keyword)?;
    said.push(' ')?;
    say_expression(said, &test.condition)?;
    said.push(':')
}

/// Says what stands between `do` and its `;`, behind a blank.
pub fn say_control(said: &mut String, control: &DoControl) -> Said {
    match control {
        DoControl::Block => Ok(()),
        DoControl::Counted(count) => say_count(said, count),
        DoControl::Tested(test) => say_test(said, test),
    }
}

fn say_item(said: &mut String, item: &PutItem) -> Said {
    match item {
        PutItem::Text(text) => say_token(said, text),
        PutItem::Variable { name, equals } => {
            say_token(said, name)?;
            match equals {
                None => Ok(()),
                Some(_) => said.push('='),
            }
        }
        PutItem::Member {
            object,
            dot: _,
            member,
        } => say_member(said, object, member),
    }
}

/// Says the items of `put`, each behind a blank.
pub fn say_items(said: &mut String, items: &[PutItem]) -> Said {
    for item in items {
        said.push(' ')?;
        say_item(said, item)?;
    }
    Ok(())
}
