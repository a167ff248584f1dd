//! The parser of statements that hold no statement.
ghost use Rattle.std.specs.Prelude.{ℕ, ◌<◌, ◌≤◌, codes, length, IfOk};
ghost use Rattle.ds2_tree.specs.Parsers.{to, seq, many_of, optional, kept};
ghost use Rattle.ds2_tree.specs.Promise.{Gives};
ghost use Rattle.ds2_token.specs.Words.{is_table};
ghost use Rattle.ds2_tree.specs.Statements as tree;
ghost use Rattle.ds2_tree.specs.StatementViews.{statement_tree};
ghost use Rattle.ds2_tree.specs.declared.expressions.Callee.TheVariants as kind_of_callee;
ghost use Rattle.ds2_parse_rules.specs.GrammarTokens.{mark_rule, word_rule};
ghost use Rattle.ds2_parse_rules.specs.ExpressionGrammar as expression_grammar;
ghost use Rattle.ds2_parse_rules.specs.StatementGrammar as grammar;

use crate::expressions::{ArgumentsRule, ExpressionRule};
use crate::trees;
use ds2_base::Place;
use ds2_parse_rules::front::{Parsed, any_word, at_mark, mark, mark_at, name, text_at, word};
use ds2_parse_rules::front_words::TokenClass;
use ds2_parse_rules::rules::{ItemsThen, Mark, OptionalThen, Rule, Then, Word};
use ds2_token::Token;
use ds2_tree::{Callee, PutItem, Statement};
use std::alloc::Global;

/// What begins with a name, which was read: an assignment, or a call.
pub fn named(
    alloc: Global,
    name: Token,
    tokens: &[Token],
    end: Place,
    levels: u64,
) -> Parsed<'_, Statement>
    ensures exact { (m : ℕ) → length tokens.now < m → Gives end (λ x. (statement_tree x.0, x.1.now)) result (to (grammar.named_statement name) (grammar.named_tail (expression_grammar.expression m levels) (expression_grammar.argument_list m levels)) tokens.now) }
    ensures shorter { IfOk result (λ r. length r.1.now < length tokens.now) }
{
    if at_mark(tokens, "=") {
        return assignment(alloc, name, tokens, end, levels);
    }
    if at_mark(tokens, "(") {
        return ended_call(alloc, Callee::Function(name), tokens, end, levels);
    }
    let (dot, rest) = mark(tokens, end, ".")?;
    let (method, rest) = any_word(alloc, rest, end)?;
    let callee = Callee::Method {
        object: name,
        dot,
        method,
    };
    ended_call(alloc, callee, rest, end, levels)
}

// An assignment behind its name.
fn assignment(
    alloc: Global,
    target: Token,
    tokens: &[Token],
    end: Place,
    levels: u64,
) -> Parsed<'_, Statement>
    ensures exact { (m : ℕ) → length tokens.now < m → Gives end (λ x. (statement_tree x.0, x.1.now)) result (to (λ x. tree.Assignment target x.0 x.1.0 x.1.1) (seq (mark_rule (codes "=")) (seq (expression_grammar.expression m levels) (mark_rule (codes ";")))) tokens.now) }
    ensures shorter { IfOk result (λ r. length r.1.now < length tokens.now) }
{
    let value = Then(ExpressionRule { levels }, Mark(";"));
    let (parts, rest) = Then(Mark("="), value).read(alloc, tokens, end)?;
    let (equals, (value, semicolon)) = parts;
    let statement = Statement::Assignment {
        target,
        equals,
        value,
        end: semicolon,
    };
    Ok((statement, rest))
}

// An argument list and the end of a call, behind what is called.
fn ended_call(
    alloc: Global,
    callee: Callee,
    tokens: &[Token],
    end: Place,
    levels: u64,
) -> Parsed<'_, Statement>
    ensures exact { (m : ℕ) → length tokens.now < m → Gives end (λ x. (statement_tree x.0, x.1.now)) result (to (λ x. tree.Call callee x.0.0 x.0.1.0 x.0.1.1 x.1) (seq (expression_grammar.argument_list m levels) (mark_rule (codes ";"))) tokens.now) }
    ensures shorter { IfOk result (λ r. length r.1.now < length tokens.now) }
{
    let rule = Then(ArgumentsRule { levels }, Mark(";"));
    let (parts, rest) = rule.read(alloc, tokens, end)?;
    let (arguments, semicolon) = parts;
    Ok((trees::call_statement(callee, arguments, semicolon), rest))
}

/// A call of the function `null`.
pub fn null_call(alloc: Global, tokens: &[Token], end: Place, levels: u64) -> Parsed<'_, Statement>
    ensures exact { (m : ℕ) → length tokens.now < m → Gives end (λ x. (statement_tree x.0, x.1.now)) result (to (λ x. tree.Call (kind_of_callee.Null x.0) x.1.0.0 x.1.0.1.0 x.1.0.1.1 x.1.1) (seq (word_rule (codes "null")) (seq (expression_grammar.argument_list m levels) (mark_rule (codes ";")))) tokens.now) }
    ensures shorter { IfOk result (λ r. length r.1.now < length tokens.now) }
{
    let (keyword, rest) = word(alloc, tokens, end, "null")?;
    ended_call(alloc, Callee::Null(keyword), rest, end, levels)
}

/// `"leave" ";"`
pub fn leave(alloc: Global, tokens: &[Token], end: Place) -> Parsed<'_, Statement>
    ensures exact { Gives end (λ x. (statement_tree x.0, x.1.now)) result (to (λ x. tree.Leave x.0 x.1) (grammar.plain_rule (codes "leave")) tokens.now) }
    ensures shorter { IfOk result (λ r. length r.1.now < length tokens.now) }
{
    let (parts, rest) = Then(Word("leave"), Mark(";")).read(alloc, tokens, end)?;
    let (keyword, semicolon) = parts;
    let statement = Statement::Leave {
        keyword,
        end: semicolon,
    };
    Ok((statement, rest))
}

/// `"continue" ";"`
pub fn continued(alloc: Global, tokens: &[Token], end: Place) -> Parsed<'_, Statement>
    ensures exact { Gives end (λ x. (statement_tree x.0, x.1.now)) result (to (λ x. tree.Continue x.0 x.1) (grammar.plain_rule (codes "continue")) tokens.now) }
    ensures shorter { IfOk result (λ r. length r.1.now < length tokens.now) }
{
    let (parts, rest) = Then(Word("continue"), Mark(";")).read(alloc, tokens, end)?;
    let (keyword, semicolon) = parts;
    let statement = Statement::Continue {
        keyword,
        end: semicolon,
    };
    Ok((statement, rest))
}

/// `"return" [expr] ";"`
pub fn returned(alloc: Global, tokens: &[Token], end: Place, levels: u64) -> Parsed<'_, Statement>
    ensures exact { (m : ℕ) → length tokens.now < m → Gives end (λ x. (statement_tree x.0, x.1.now)) result (to (λ x. tree.Return x.0 x.1.0 x.1.1) (seq (word_rule (codes "return")) (seq (optional expression_grammar.begins_expression (expression_grammar.expression m levels)) (mark_rule (codes ";")))) tokens.now) }
    ensures shorter { IfOk result (λ r. length r.1.now < length tokens.now) }
{
    let value = ExpressionRule { levels };
    let behind = OptionalThen(TokenClass::Expression, value, Mark(";"));
    let (parts, rest) = Then(Word("return"), behind).read(alloc, tokens, end)?;
    let (keyword, (value, semicolon)) = parts;
    let statement = Statement::Return {
        keyword,
        value,
        end: semicolon,
    };
    Ok((statement, rest))
}

/// `"output" { table } ";"`
pub fn output(alloc: Global, tokens: &[Token], end: Place) -> Parsed<'_, Statement>
    ensures exact { (m : ℕ) → length tokens.now < m → Gives end (λ x. (statement_tree x.0, x.1.now)) result (to (λ x. tree.Output x.0 x.1.0 x.1.1) (seq (word_rule (codes "output")) (seq (many_of m is_table (kept is_table)) (mark_rule (codes ";")))) tokens.now) }
    ensures shorter { IfOk result (λ r. length r.1.now < length tokens.now) }
{
    let tables = ItemsThen(TokenClass::Table, TokenClass::Table, Mark(";"));
    let (parts, rest) = Then(Word("output"), tables).read(alloc, tokens, end)?;
    let (keyword, (tables, semicolon)) = parts;
    let statement = Statement::Output {
        keyword,
        tables,
        end: semicolon,
    };
    Ok((statement, rest))
}

/// `"put" { item } ";"`
pub fn put(alloc: Global, tokens: &[Token], end: Place) -> Parsed<'_, Statement>
    ensures exact { (m : ℕ) → length tokens.now < m → Gives end (λ x. (statement_tree x.0, x.1.now)) result (to (λ x. tree.Put x.0 x.1.0 x.1.1) (seq (word_rule (codes "put")) (seq (many_of m grammar.begins_item grammar.item_rule) (mark_rule (codes ";")))) tokens.now) }
    ensures shorter { IfOk result (λ r. length r.1.now < length tokens.now) }
{
    let items = ItemsThen(TokenClass::PutItem, ItemRule, Mark(";"));
    let (parts, rest) = Then(Word("put"), items).read(alloc, tokens, end)?;
    let (keyword, (items, semicolon)) = parts;
    let statement = Statement::Put {
        keyword,
        items,
        end: semicolon,
    };
    Ok((statement, rest))
}

// What stands behind the name of an item, which was read.
fn named_item(alloc: Global, name: Token, tokens: &[Token], end: Place) -> Parsed<'_, PutItem>
    ensures exact { Gives end (λ x. (x.0, x.1.now)) result (to (grammar.named_item name) grammar.item_tail tokens.now) }
    ensures shorter { IfOk result (λ r. length r.1.now ≤ length tokens.now) }
{
    if let Some((equals, rest)) = mark_at(tokens, "=") {
        return Ok((
            PutItem::Variable {
                name,
                equals: Some(equals),
            },
            rest,
        ));
    }
    match mark_at(tokens, ".") {
        Some((dot, rest)) => {
            let (member, rest) = any_word(alloc, rest, end)?;
            Ok((
                PutItem::Member {
                    object: name,
                    dot,
                    member,
                },
                rest,
            ))
        }
        None => Ok((PutItem::Variable { name, equals: None }, tokens)),
    }
}

/// An item of `put`.
#[derive(Clone, Copy)]
pub struct ItemRule;

impl Rule for ItemRule {
    type Tree = PutItem;

    ghost grammar = { λ s m. grammar.item_rule };

    fn read<'t>(&self, alloc: Global, tokens: &'t [Token], end: Place) -> Parsed<'t, PutItem> {
        if let Some((text, rest)) = text_at(tokens) {
            return Ok((PutItem::Text(text.copy(alloc)?), rest));
        }
        let (name, rest) = name(alloc, tokens, end)?;
        named_item(alloc, name, rest, end)
    }
}
