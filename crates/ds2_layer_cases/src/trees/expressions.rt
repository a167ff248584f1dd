//! How an expression is grouped: `(a + b - c)` is one chain, `(a < b)` a comparison, `(- a)` a prefix, `[a]` a parenthesis of the
//! source and `f(a, b)` a call.
use crate::trees::tokens::{Said, say_member, say_token};
use ds2_token::Token;
use ds2_tree::{Argument, Callee, Expression, Operand};

fn say_callee(said: &mut String, callee: &Callee) -> Said {
    match callee {
        Callee::Function(name) => say_token(said, name),
        Callee::Null(keyword) => say_token(said, keyword),
        Callee::Method {
            object,
            dot: _,
            method,
        } => say_member(said, object, method),
    }
}

#[cycle(say)]
pub fn say_call(said: &mut String, callee: &Callee, arguments: &[Argument]) -> Said {
    say_callee(said, callee)?;
    said.push('(')?;
    say_arguments(said, arguments)?;
    said.push(')')
}

#[cycle(say)]
pub fn say_expression(said: &mut String, e: &Expression) -> Said {
    match e {
        Expression::Constant(token) => say_token(said, token),
        Expression::Null(keyword) => say_token(said, keyword),
        Expression::Variable(name) => say_token(said, name),
        Expression::Member {
            object,
            dot: _,
            member,
        } => say_member(said, object, member),
        Expression::Call {
            callee,
            opening: _,
            arguments,
            closing: _,
        } => say_call(said, callee, arguments.as_slice()),
        Expression::Parenthesis {
            opening: _,
            inner,
            closing: _,
        } => {
            said.push('[')?;
            say_expression(said, inner)?;
            said.push(']')
        }
        Expression::Sign { operator, operand } => {
            said.push('(')?;
            say_operation(said, operator, operand)?;
            said.push(')')
        }
        Expression::Chain {
            kind: _,
            first,
            rest,
        } => {
            said.push('(')?;
            say_expression(said, first)?;
            say_operands(said, rest.as_slice())?;
            said.push(')')
        }
        Expression::Comparison {
            left,
            operator,
            right,
        } => {
            said.push('(')?;
            say_expression(said, left)?;
            said.push(' ')?;
            say_operation(said, operator, right)?;
            said.push(')')
        }
        Expression::Not { operator, operand } => {
            said.push('(')?;
            say_operation(said, operator, operand)?;
            said.push(')')
        }
    }
}

// Says an operator and its right operand.
#[cycle(say)]
fn say_operation(said: &mut String, operator: &Token, operand: &Expression) -> Said {
    say_token(said, operator)?;
    said.push(' ')?;
    say_expression(said, operand)
}

#[cycle(say)]
fn say_operands(said: &mut String, operands: &[Operand]) -> Said {
    for operand in operands {
        said.push(' ')?;
        say_operation(said, &operand.operator, &operand.value)?;
    }
    Ok(())
}

/// Says expressions, with a comma between them.
#[cycle(say)]
pub fn say_arguments(said: &mut String, arguments: &[Argument]) -> Said {
    for argument in arguments {
        if argument.comma.is_some() {
            said.push_str(", ")?;
        }
        say_expression(said, &argument.value)?;
    }
    Ok(())
}
