//! The tokens of expressions and calls.
ghost use Rattle.std.specs.Prelude.{◌≡◌, ◌∷◌, ◌++◌, [], OnOk};
ghost use Rattle.ds2_tree.specs.Expressions.{expression_spelling, operands_spelling, arguments_spelling, callee_spelling, call_spelling};
ghost use Rattle.ds2_tree.specs.ExpressionViews.{expression_tree, operands_of, arguments_of};

use crate::tokens::{Added, push_comma, push_mark, push_token};
use ds2_base::{List, Place};
use ds2_token::Token;
use ds2_tree::{Argument, Callee, Expression, Operand};
use std::alloc::Global;

// Adds the tokens of what is called.
fn spell_callee(alloc: Global, out: &mut List<Token>, callee: &Callee) -> Added
    ensures { OnOk result (out.new ≡ out.old ++ callee_spelling callee.now) }
{
    match callee {
        Callee::Function(name) => push_token(alloc, out, name),
        Callee::Null(keyword) => push_token(alloc, out, keyword),
        Callee::Method {
            object,
            dot,
            method,
        } => {
            push_token(alloc, out, object)?;
            push_mark(alloc, out, ".", *dot)?;
            push_token(alloc, out, method)
        }
    }
}

// Adds an operator as it is written.
fn spell_operator(alloc: Global, out: &mut List<Token>, operator: &Token) -> Added
    ensures { OnOk result (out.new ≡ out.old ++ operator.now ∷ []) }
{
    push_token(alloc, out, operator)
}

// Adds the tokens of a call.
#[cycle(spell)]
pub fn spell_call(
    alloc: Global,
    out: &mut List<Token>,
    callee: &Callee,
    opening: Place,
    arguments: &[Argument],
    closing: Place,
) -> Added
    ensures { OnOk result (out.new ≡ out.old ++ call_spelling callee.now opening (arguments_of arguments.now) closing) }
{
    spell_callee(alloc, out, callee)?;
    push_mark(alloc, out, "(", opening)?;
    spell_arguments(alloc, out, arguments)?;
    push_mark(alloc, out, ")", closing)
}

// Adds the tokens of an expression.
#[cycle(spell)]
pub fn spell_expression(alloc: Global, out: &mut List<Token>, e: &Expression) -> Added
    ensures { OnOk result (out.new ≡ out.old ++ expression_spelling (expression_tree e.now)) }
{
    match e {
        Expression::Constant(token) => push_token(alloc, out, token),
        Expression::Null(keyword) => push_token(alloc, out, keyword),
        Expression::Variable(name) => push_token(alloc, out, name),
        Expression::Member {
            object,
            dot,
            member,
        } => {
            push_token(alloc, out, object)?;
            push_mark(alloc, out, ".", *dot)?;
            push_token(alloc, out, member)
        }
        Expression::Call {
            callee,
            opening,
            arguments,
            closing,
        } => { spell_call(alloc, out, callee, *opening, arguments.as_slice(), *closing) }
        Expression::Parenthesis {
            opening,
            inner,
            closing,
        } => {
            push_mark(alloc, out, "(", *opening)?;
            spell_expression(alloc, out, inner)?;
            push_mark(alloc, out, ")", *closing)
        }
        Expression::Sign { operator, operand } => {
            spell_operator(alloc, out, operator)?;
            spell_expression(alloc, out, operand)
        }
        Expression::Chain {
            kind: _,
            first,
            rest,
        } => {
            spell_expression(alloc, out, first)?;
            spell_operands(alloc, out, rest.as_slice())
        }
        Expression::Comparison {
            left,
            operator,
            right,
        } => {
            spell_expression(alloc, out, left)?;
            spell_operator(alloc, out, operator)?;
            spell_expression(alloc, out, right)
        }
        Expression::Not { operator, operand } => {
            spell_operator(alloc, out, operator)?;
            spell_expression(alloc, out, operand)
        }
    }
}

// Adds the tokens of the further operands of a chain.
#[cycle(spell)]
fn spell_operands(alloc: Global, out: &mut List<Token>, operands: &[Operand]) -> Added
    ensures { OnOk result (out.new ≡ out.old ++ operands_spelling (operands_of operands.now)) }
{
    for operand in operands {
        spell_operator(alloc, out, &operand.operator)?;
        spell_expression(alloc, out, &operand.value)?;
    }
    Ok(())
}

// Adds the tokens of expressions, each behind its comma where it has one.
#[cycle(spell)]
pub fn spell_arguments(alloc: Global, out: &mut List<Token>, arguments: &[Argument]) -> Added
    ensures { OnOk result (out.new ≡ out.old ++ arguments_spelling (arguments_of arguments.now)) }
{
    for argument in arguments {
        push_comma(alloc, out, argument.comma)?;
        spell_expression(alloc, out, &argument.value)?;
    }
    Ok(())
}
