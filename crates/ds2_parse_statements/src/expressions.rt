//! The parser of expressions.
ghost use Rattle.std.specs.Prelude.{ℕ, ◌<◌, ◌≤◌, codes, length, None, IfOk, map};
ghost use Rattle.std.specs.Option.{option_map};
ghost use Rattle.ds2_tree.specs.Parsers.{and_then, pure, to, seq, many_of, optional, chain as chain_rule};
ghost use Rattle.ds2_tree.specs.Promise.{Gives, Promises};
ghost use Rattle.ds2_tree.specs.Expressions as tree;
ghost use Rattle.ds2_tree.specs.Expressions.{is_operator};
ghost use Rattle.ds2_tree.specs.ExpressionViews.{expression_tree, arguments_of};
ghost use Rattle.ds2_parse_rules.specs.GrammarTokens.{mark_rule, is_open_mark, is_comma_mark};
ghost use Rattle.ds2_parse_rules.specs.ExpressionGrammar as grammar;
ghost use Rattle.ds2_parse_rules.specs.TreeViews.{seen_through};
ghost use Rattle.ds2_parse_statements.specs.StatementSymbols.{expression_symbol};
ghost use Rattle.ds2_parse_statements.specs.ExpressionParts.{compared_rule, unary_rule, negation_rule, operand_rule, link_rule, parenthesis_rule, operand_pair, argument_parts, and_further};

use crate::trees::{self, CallArguments};
use ds2_base::{List, Place};
use ds2_parse_rules::front::{
    Parsed, any_word, at_mark, at_operator, begins_expression, comparison_at, constant_at, deeper,
    mark, mark_at, name_at, not_at, null_at, operator_at, sign_at,
};
use ds2_parse_rules::rules::Rule;
use ds2_token::Token;
use ds2_tree::{Argument, Callee, ChainKind, Expression, Operand};
use std::alloc::Global;

/// The expression at the front.
pub fn expression(
    alloc: Global,
    tokens: &[Token],
    end: Place,
    levels: u64,
) -> Parsed<'_, Expression>
    ensures exact { (m : ℕ) → length tokens.now < m → Gives end (λ x. (expression_tree x.0, x.1.now)) result (grammar.expression m levels tokens.now) }
    ensures promise { Promises expression_symbol levels end (λ x. (expression_tree x.0, x.1.now)) tokens.now result }
    ensures shorter { IfOk result (λ r. length r.1.now < length tokens.now) }
{
    chain(alloc, tokens, end, levels, ChainKind::Or)
}

// Operands with operators of this kind between them, or one operand.
#[cycle(expressions)]
fn chain(
    alloc: Global,
    tokens: &[Token],
    end: Place,
    levels: u64,
    kind: ChainKind,
) -> Parsed<'_, Expression>
    ensures exact { (m : ℕ) → length tokens.now < m → Gives end (λ x. (expression_tree x.0, x.1.now)) result (grammar.operators m kind (operand_rule m levels kind) tokens.now) }
    ensures shorter { IfOk result (λ r. length r.1.now < length tokens.now) }
{
    let (first, rest) = operand(alloc, tokens, end, levels, kind)?;
    if !at_operator(rest, kind) {
        return Ok((first, rest));
    }
    let (further, rest) = operands(alloc, rest, end, levels, kind)?;
    Ok((trees::chain(alloc, kind, first, further)?, rest))
}

// The further operands of a chain, each behind its operator.
#[cycle(expressions)]
fn operands(
    alloc: Global,
    tokens: &[Token],
    end: Place,
    levels: u64,
    kind: ChainKind,
) -> Parsed<'_, List<Operand>>
    ensures exact { (m : ℕ) → length tokens.now < m → Gives end (λ x. (map operand_pair x.0, x.1.now)) result (many_of m (is_operator kind) (link_rule m levels kind) tokens.now) }
    ensures shorter { IfOk result (λ r. length r.1.now ≤ length tokens.now) }
{
    let mut found: List<Operand> = List::new(alloc);
    let mut rest = tokens;
    while let Some((operator, after)) = operator_at(rest, kind) {
        let operator = operator.copy(alloc)?;
        let (value, after) = operand(alloc, after, end, levels, kind)?;
        found.push_sparing(Operand { operator, value })?;
        rest = after;
    }
    Ok((found, rest))
}

// An operand of a chain of this kind.
#[cycle(expressions)]
fn operand(
    alloc: Global,
    tokens: &[Token],
    end: Place,
    levels: u64,
    kind: ChainKind,
) -> Parsed<'_, Expression>
    ensures exact { (m : ℕ) → length tokens.now < m → Gives end (λ x. (expression_tree x.0, x.1.now)) result (operand_rule m levels kind tokens.now) }
    ensures shorter { IfOk result (λ r. length r.1.now < length tokens.now) }
{
    match kind {
        ChainKind::Or => chain(alloc, tokens, end, levels, ChainKind::And),
        ChainKind::And => negation(alloc, tokens, end, levels),
        ChainKind::Concatenation => chain(alloc, tokens, end, levels, ChainKind::Sum),
        ChainKind::Sum => chain(alloc, tokens, end, levels, ChainKind::Product),
        ChainKind::Product => unary(alloc, tokens, end, levels),
    }
}

// A negation, or a comparison.
#[cycle(expressions)]
fn negation(alloc: Global, tokens: &[Token], end: Place, levels: u64) -> Parsed<'_, Expression>
    ensures exact { (m : ℕ) → length tokens.now < m → Gives end (λ x. (expression_tree x.0, x.1.now)) result (negation_rule m levels tokens.now) }
    ensures shorter { IfOk result (λ r. length r.1.now < length tokens.now) }
{
    match not_at(tokens) {
        Some((operator, rest)) => {
            let inner = deeper(tokens, end, levels)?;
            let operator = operator.copy(alloc)?;
            let (operand, rest) = negation(alloc, rest, end, inner)?;
            Ok((trees::negated(alloc, operator, operand)?, rest))
        }
        None => comparison(alloc, tokens, end, levels),
    }
}

// One operand, or two with a comparison between them.
#[cycle(expressions)]
fn comparison(alloc: Global, tokens: &[Token], end: Place, levels: u64) -> Parsed<'_, Expression>
    ensures exact { (m : ℕ) → length tokens.now < m → Gives end (λ x. (expression_tree x.0, x.1.now)) result (grammar.comparison_with m (unary_rule m levels) tokens.now) }
    ensures shorter { IfOk result (λ r. length r.1.now < length tokens.now) }
{
    let (left, rest) = chain(alloc, tokens, end, levels, ChainKind::Concatenation)?;
    compared(alloc, left, rest, end, levels)
}

// The left operand, which was read, compared with what stands behind a comparison, or alone where none is at the front.
#[cycle(expressions)]
fn compared(
    alloc: Global,
    left: Expression,
    tokens: &[Token],
    end: Place,
    levels: u64,
) -> Parsed<'_, Expression>
    ensures exact { (m : ℕ) → length tokens.now < m → Gives end (λ x. (expression_tree x.0, x.1.now)) result (to (λ o. grammar.comparison_of (expression_tree left) o) (compared_rule m levels) tokens.now) }
    ensures shorter { IfOk result (λ r. length r.1.now ≤ length tokens.now) }
{
    match comparison_at(tokens) {
        Some((operator, rest)) => {
            let operator = operator.copy(alloc)?;
            let (right, rest) = chain(alloc, rest, end, levels, ChainKind::Concatenation)?;
            Ok((trees::comparison(alloc, left, operator, right)?, rest))
        }
        None => Ok((left, tokens)),
    }
}

// An operand behind its sign, or one without a sign.
#[cycle(expressions)]
fn unary(alloc: Global, tokens: &[Token], end: Place, levels: u64) -> Parsed<'_, Expression>
    ensures exact { (m : ℕ) → length tokens.now < m → Gives end (λ x. (expression_tree x.0, x.1.now)) result (unary_rule m levels tokens.now) }
    ensures shorter { IfOk result (λ r. length r.1.now < length tokens.now) }
{
    match sign_at(tokens) {
        Some((operator, rest)) => {
            let inner = deeper(tokens, end, levels)?;
            let operator = operator.copy(alloc)?;
            let (operand, rest) = unary(alloc, rest, end, inner)?;
            Ok((trees::signed(alloc, operator, operand)?, rest))
        }
        None => primary(alloc, tokens, end, levels),
    }
}

// A constant, `null`, what begins with a name, or a parenthesis.
#[cycle(expressions)]
fn primary(alloc: Global, tokens: &[Token], end: Place, levels: u64) -> Parsed<'_, Expression>
    ensures exact { (m : ℕ) → length tokens.now < m → Gives end (λ x. (expression_tree x.0, x.1.now)) result (grammar.primary (grammar.argument_list m levels) (parenthesis_rule m levels) tokens.now) }
    ensures shorter { IfOk result (λ r. length r.1.now < length tokens.now) }
{
    if let Some((token, rest)) = constant_at(tokens) {
        return Ok((Expression::Constant(token.copy(alloc)?), rest));
    }
    if let Some((keyword, rest)) = null_at(tokens) {
        let keyword = keyword.copy(alloc)?;
        let (arguments, rest) = optional_arguments(alloc, rest, end, levels)?;
        Ok((trees::null(alloc, keyword, arguments)?, rest))
    } else {
        match name_at(tokens) {
            Some((name, rest)) => named(alloc, name.copy(alloc)?, rest, end, levels),
            None => parenthesis(alloc, tokens, end, levels),
        }
    }
}

// What begins with a name, which was read: a call, a member, or a variable.
#[cycle(expressions)]
fn named(
    alloc: Global,
    name: Token,
    tokens: &[Token],
    end: Place,
    levels: u64,
) -> Parsed<'_, Expression>
    ensures exact { (m : ℕ) → length tokens.now < m → Gives end (λ x. (expression_tree x.0, x.1.now)) result (to (grammar.named_of name) (grammar.name_tail (grammar.argument_list m levels)) tokens.now) }
    ensures shorter { IfOk result (λ r. length r.1.now ≤ length tokens.now) }
{
    if at_mark(tokens, "(") {
        let (arguments, rest) = argument_list(alloc, tokens, end, levels)?;
        Ok((trees::call(alloc, Callee::Function(name), arguments)?, rest))
    } else {
        match mark_at(tokens, ".") {
            Some((dot, rest)) => {
                let (word, rest) = any_word(alloc, rest, end)?;
                let (arguments, rest) = optional_arguments(alloc, rest, end, levels)?;
                Ok((trees::member(alloc, name, dot, word, arguments)?, rest))
            }
            None => Ok((Expression::Variable(name), tokens)),
        }
    }
}

// An argument list where a parenthesis is at the front, or else none.
#[cycle(expressions)]
fn optional_arguments(
    alloc: Global,
    tokens: &[Token],
    end: Place,
    levels: u64,
) -> Parsed<'_, Option<CallArguments>>
    ensures exact { (m : ℕ) → length tokens.now < m → Gives end (λ x. (option_map argument_parts x.0, x.1.now)) result (optional is_open_mark (grammar.argument_list m levels) tokens.now) }
    ensures shorter { IfOk result (λ r. length r.1.now ≤ length tokens.now) }
{
    if at_mark(tokens, "(") {
        let (arguments, rest) = argument_list(alloc, tokens, end, levels)?;
        return Ok((Some(arguments), rest));
    }
    Ok((None, tokens))
}

/// An argument list.
#[cycle(expressions)]
pub fn argument_list(
    alloc: Global,
    tokens: &[Token],
    end: Place,
    levels: u64,
) -> Parsed<'_, CallArguments>
    ensures exact { (m : ℕ) → length tokens.now < m → Gives end (λ x. (argument_parts x.0, x.1.now)) result (grammar.argument_list m levels tokens.now) }
    ensures shorter { IfOk result (λ r. length r.1.now < length tokens.now) }
{
    let (opening, rest) = mark(tokens, end, "(")?;
    let inner = deeper(tokens, end, levels)?;
    let (arguments, rest) = arguments(alloc, rest, end, inner)?;
    let (closing, rest) = mark(rest, end, ")")?;
    Ok((
        CallArguments {
            opening,
            arguments,
            closing,
        },
        rest,
    ))
}

// Expressions with commas between them, or none.
#[cycle(expressions)]
fn arguments(alloc: Global, tokens: &[Token], end: Place, levels: u64) -> Parsed<'_, List<Argument>>
    ensures exact { (m : ℕ) → length tokens.now < m → Gives end (λ x. (arguments_of x.0, x.1.now)) result (to grammar.listed_arguments (optional grammar.begins_expression (chain_rule m is_comma_mark (mark_rule (codes ",")) (grammar.expression m levels))) tokens.now) }
    ensures shorter { IfOk result (λ r. length r.1.now ≤ length tokens.now) }
{
    if begins_expression(tokens) {
        return values(alloc, tokens, end, levels);
    }
    Ok((List::new(alloc), tokens))
}

/// Expressions with commas between them.
#[cycle(expressions)]
pub fn values(
    alloc: Global,
    tokens: &[Token],
    end: Place,
    levels: u64,
) -> Parsed<'_, List<Argument>>
    ensures exact { (m : ℕ) → length tokens.now < m → Gives end (λ x. (arguments_of x.0, x.1.now)) result (to (λ x. tree.Argument None x.0 (grammar.listed_further x.1)) (chain_rule m is_comma_mark (mark_rule (codes ",")) (grammar.expression m levels)) tokens.now) }
    ensures shorter { IfOk result (λ r. length r.1.now < length tokens.now) }
{
    let (value, rest) = chain(alloc, tokens, end, levels, ChainKind::Or)?;
    let mut found: List<Argument> = List::new(alloc);
    found.push_sparing(Argument { comma: None, value })?;
    further_values(alloc, found, rest, end, levels)
}

// Further expressions, each behind its comma, after those that were found.
#[cycle(expressions)]
fn further_values(
    alloc: Global,
    found: List<Argument>,
    tokens: &[Token],
    end: Place,
    levels: u64,
) -> Parsed<'_, List<Argument>>
    ensures exact { (m : ℕ) → length tokens.now < m → Gives end (λ x. (arguments_of x.0, x.1.now)) result (and_then (many_of m is_comma_mark (seq (mark_rule (codes ",")) (grammar.expression m levels)) tokens.now) (λ l. pure (and_further (arguments_of found) l))) }
    ensures shorter { IfOk result (λ r. length r.1.now ≤ length tokens.now) }
{
    let mut found = found;
    let mut rest = tokens;
    while let Some((comma, after)) = mark_at(rest, ",") {
        let (value, after) = chain(alloc, after, end, levels, ChainKind::Or)?;
        found.push(Argument {
            comma: Some(comma),
            value,
        })?;
        rest = after;
    }
    Ok((found, rest))
}

// An expression in parentheses.
#[cycle(expressions)]
fn parenthesis(alloc: Global, tokens: &[Token], end: Place, levels: u64) -> Parsed<'_, Expression>
    ensures exact { (m : ℕ) → length tokens.now < m → Gives end (λ x. (expression_tree x.0, x.1.now)) result (to (λ x. tree.Parenthesis x.0 x.1.0 x.1.1) (parenthesis_rule m levels) tokens.now) }
    ensures shorter { IfOk result (λ r. length r.1.now < length tokens.now) }
{
    let (opening, rest) = mark(tokens, end, "(")?;
    let inner = deeper(tokens, end, levels)?;
    let (value, rest) = chain(alloc, rest, end, inner, ChainKind::Or)?;
    let (closing, rest) = mark(rest, end, ")")?;
    Ok((trees::parenthesis(alloc, opening, value, closing)?, rest))
}

// ---- as rules of the grammar

/// An expression that opens at most these levels.
#[derive(Clone, Copy)]
pub struct ExpressionRule {
    pub levels: u64,
}

impl Rule for ExpressionRule {
    type Tree = Expression;

    ghost view = { seen_through expression_tree };

    ghost grammar = { λ s m. grammar.expression m s.levels };

    fn read<'t>(&self, alloc: Global, tokens: &'t [Token], end: Place) -> Parsed<'t, Expression> {
        expression(alloc, tokens, end, self.levels)
    }
}

/// An argument list that opens at most these levels.
#[derive(Clone, Copy)]
pub struct ArgumentsRule {
    pub levels: u64,
}

impl Rule for ArgumentsRule {
    type Tree = CallArguments;

    ghost view = { seen_through argument_parts };

    ghost grammar = { λ s m. grammar.argument_list m s.levels };

    fn read<'t>(
        &self,
        alloc: Global,
        tokens: &'t [Token],
        end: Place,
    ) -> Parsed<'t, CallArguments> {
        argument_list(alloc, tokens, end, self.levels)
    }
}
