//! The parser of statements.
ghost use Rattle.std.specs.Prelude.{ℕ, ◌<◌, ◌≤◌, codes, [], ◌∷◌, length, IfOk, map};
ghost use Rattle.std.specs.Option.{option_map};
ghost use Rattle.ds2_tree.specs.Parsers.{to, many_of};
ghost use Rattle.ds2_tree.specs.Promise.{Gives, Promises};
ghost use Rattle.ds2_tree.specs.StatementViews.{statement_tree, others_of, whens_of, otherwise_tree};
ghost use Rattle.ds2_parse_rules.specs.GrammarTokens.{starts};
ghost use Rattle.ds2_parse_rules.specs.ExpressionGrammar as expression_grammar;
ghost use Rattle.ds2_parse_statements.specs.StatementSymbols.{statement_symbol};
ghost use Rattle.ds2_parse_rules.specs.StatementGrammar as grammar;
ghost use Rattle.ds2_parse_rules.specs.TreeViews.{seen_through};
ghost use Rattle.ds2_parse_statements.specs.StatementParts.{within_rule, arm_rule, else_rule, otherwise_rule, selection_body_rule, arm_parts, last_parts, later_statement, selection_of, listed_body, selection_body_tree, do_of};

use crate::controls::{control, selector};
use crate::expressions::{expression, values};
use crate::simple_statements::{continued, leave, named, null_call, output, put, returned};
use crate::trees::{self, Arm, ElseParts, SelectionBody};
use ds2_base::{List, Place};
use ds2_parse_rules::front::{
    Parsed, at_word, begins_statement, mark, mark_at, name_at, too_deep, unexpected, word,
};
use ds2_parse_rules::rules::Rule;
use ds2_token::Token;
use ds2_tree::{ElseIf, Otherwise, Statement, When};
use std::alloc::Global;

/// The statement at the front.
#[cycle(statements)]
pub fn statement(alloc: Global, tokens: &[Token], end: Place, levels: u64) -> Parsed<'_, Statement>
    ensures exact { (m : ℕ) → length tokens.now < m → Gives end (λ x. (statement_tree x.0, x.1.now)) result (grammar.statement_rule m levels tokens.now) }
    ensures promise { Promises statement_symbol levels end (λ x. (statement_tree x.0, x.1.now)) tokens.now result }
    ensures shorter { IfOk result (λ r. length r.1.now < length tokens.now) }
{
    any_statement(alloc, tokens, end, levels)
}

/// Statements, up to a token that begins none.
#[cycle(statements)]
pub fn statements(
    alloc: Global,
    tokens: &[Token],
    end: Place,
    levels: u64,
) -> Parsed<'_, List<Statement>>
    ensures exact { (m : ℕ) → length tokens.now < m → Gives end (λ x. (map statement_tree x.0, x.1.now)) result (many_of m grammar.begins_statement (grammar.statement_rule m levels) tokens.now) }
    ensures shorter { IfOk result (λ r. length r.1.now ≤ length tokens.now) }
{
    let mut found: List<Statement> = List::new(alloc);
    let mut rest = tokens;
    while begins_statement(rest) {
        let (next, after) = statement(alloc, rest, end, levels)?;
        found.push(next)?;
        rest = after;
    }
    Ok((found, rest))
}

// A statement by its first token.
#[cycle(statements)]
fn any_statement(alloc: Global, tokens: &[Token], end: Place, levels: u64) -> Parsed<'_, Statement>
    ensures exact { (m : ℕ) → length tokens.now < m → Gives end (λ x. (statement_tree x.0, x.1.now)) result (grammar.statement_rule m levels tokens.now) }
    ensures shorter { IfOk result (λ r. length r.1.now < length tokens.now) }
{
    if let Some((semicolon, rest)) = mark_at(tokens, ";") {
        return Ok((Statement::Empty { end: semicolon }, rest));
    }
    if let Some((name, rest)) = name_at(tokens) {
        return named(alloc, name.copy(alloc)?, rest, end, levels);
    }
    if at_word(tokens, "null") {
        return null_call(alloc, tokens, end, levels);
    }
    if at_word(tokens, "leave") {
        return leave(alloc, tokens, end);
    }
    if at_word(tokens, "continue") {
        return continued(alloc, tokens, end);
    }
    keyword_statement(alloc, tokens, end, levels)
}

// A statement that begins with one of the other words.
#[cycle(statements)]
fn keyword_statement(
    alloc: Global,
    tokens: &[Token],
    end: Place,
    levels: u64,
) -> Parsed<'_, Statement>
    ensures exact { (m : ℕ) → length tokens.now < m → Gives end (λ x. (statement_tree x.0, x.1.now)) result (to later_statement (grammar.last7_rule m (expression_grammar.expression m levels) (within_rule m levels)) tokens.now) }
    ensures shorter { IfOk result (λ r. length r.1.now < length tokens.now) }
{
    if at_word(tokens, "return") {
        return returned(alloc, tokens, end, levels);
    }
    if at_word(tokens, "output") {
        return output(alloc, tokens, end);
    }
    if at_word(tokens, "put") {
        return put(alloc, tokens, end);
    }
    if at_word(tokens, "if") {
        return conditional(alloc, tokens, end, levels);
    }
    if at_word(tokens, "select") {
        return selection(alloc, tokens, end, levels);
    }
    block_or_loop(alloc, tokens, end, levels)
}

// A statement within one, which opens a level.
#[cycle(statements)]
#[tactic(auto, using(crate::proofs::StatementSteps::within_some, crate::proofs::StatementSteps::within_deep, crate::proofs::StatementSteps::within_none))]
fn within(alloc: Global, tokens: &[Token], end: Place, levels: u64) -> Parsed<'_, Statement>
    ensures exact { (m : ℕ) → length tokens.now < m → Gives end (λ x. (statement_tree x.0, x.1.now)) result (within_rule m levels tokens.now) }
    ensures shorter { IfOk result (λ r. length r.1.now < length tokens.now) }
{
    if levels > 0 {
        return statement(alloc, tokens, end, levels - 1);
    }
    if begins_statement(tokens) {
        return Err(too_deep(tokens, end));
    }
    Err(unexpected(tokens, end))
}

// `"do" [ control ] ";" { stmt } "end" ";"`
#[cycle(statements)]
fn block_or_loop(alloc: Global, tokens: &[Token], end: Place, levels: u64) -> Parsed<'_, Statement>
    ensures exact { (m : ℕ) → length tokens.now < m → Gives end (λ x. (statement_tree x.0, x.1.now)) result (to do_of (grammar.do_rule m (expression_grammar.expression m levels) (within_rule m levels)) tokens.now) }
    ensures shorter { IfOk result (λ r. length r.1.now < length tokens.now) }
{
    let (keyword, rest) = word(alloc, tokens, end, "do")?;
    let (control, rest) = control(alloc, rest, end, levels)?;
    let (semicolon, rest) = mark(rest, end, ";")?;
    let (body, rest) = inner_statements(alloc, rest, end, levels)?;
    let (end_keyword, rest) = word(alloc, rest, end, "end")?;
    let (last, rest) = mark(rest, end, ";")?;
    Ok((
        trees::block_or_loop(keyword, control, semicolon, body, end_keyword, last),
        rest,
    ))
}

// Statements within a statement, up to a token that begins none; each opens a level.
#[cycle(statements)]
#[tactic(auto, using(crate::proofs::StatementSteps::all_within, crate::proofs::StatementSteps::first_deep, crate::proofs::StatementSteps::none_within))]
fn inner_statements(
    alloc: Global,
    tokens: &[Token],
    end: Place,
    levels: u64,
) -> Parsed<'_, List<Statement>>
    ensures exact { (m : ℕ) → length tokens.now < m → Gives end (λ x. (map statement_tree x.0, x.1.now)) result (many_of m grammar.begins_statement (within_rule m levels) tokens.now) }
    ensures shorter { IfOk result (λ r. length r.1.now ≤ length tokens.now) }
{
    if levels > 0 {
        return statements(alloc, tokens, end, levels - 1);
    }
    if begins_statement(tokens) {
        return Err(too_deep(tokens, end));
    }
    Ok((List::new(alloc), tokens))
}

// An `if` with the parts that are chained to it.
#[cycle(statements)]
fn conditional(alloc: Global, tokens: &[Token], end: Place, levels: u64) -> Parsed<'_, Statement>
    ensures exact { (m : ℕ) → length tokens.now < m → Gives end (λ x. (statement_tree x.0, x.1.now)) result (grammar.if_rule m (expression_grammar.expression m levels) (within_rule m levels) tokens.now) }
    ensures shorter { IfOk result (λ r. length r.1.now < length tokens.now) }
{
    let (arm, rest) = arm(alloc, tokens, end, levels)?;
    let first = trees::first_arm(alloc, arm)?;
    let (parts, rest) = else_parts(alloc, rest, end, levels)?;
    Ok((trees::conditional(first, parts), rest))
}

// What stands behind an arm: further arms, and a last part where there is one.
#[cycle(statements)]
fn else_parts(alloc: Global, tokens: &[Token], end: Place, levels: u64) -> Parsed<'_, ElseParts>
    ensures exact { (m : ℕ) → length tokens.now < m → (k : ℕ) → length tokens.now < k → Gives end (λ x. (others_of x.0.others (otherwise_tree x.0.last), x.1.now)) result (to grammar.otherwise_of (else_rule k (expression_grammar.expression m levels) (within_rule m levels)) tokens.now) }
    ensures shorter { IfOk result (λ r. length r.1.now ≤ length tokens.now) }
{
    let mut others: List<ElseIf> = List::new(alloc);
    let mut rest = tokens;
    while at_word(rest, "else") {
        let (else_keyword, after) = word(alloc, rest, end, "else")?;
        if !at_word(after, "if") {
            let (statement, after) = within(alloc, after, end, levels)?;
            let last = trees::otherwise(alloc, else_keyword, statement)?;
            return Ok((
                ElseParts {
                    others,
                    last: Some(last),
                },
                after,
            ));
        }
        let (next, after) = arm(alloc, after, end, levels)?;
        others.push_sparing(trees::else_if(else_keyword, next))?;
        rest = after;
    }
    Ok((ElseParts { others, last: None }, rest))
}

// `"if" expr "then" stmt`
#[cycle(statements)]
fn arm(alloc: Global, tokens: &[Token], end: Place, levels: u64) -> Parsed<'_, Arm>
    ensures exact { (m : ℕ) → length tokens.now < m → Gives end (λ x. (arm_parts x.0, x.1.now)) result (arm_rule (expression_grammar.expression m levels) (within_rule m levels) tokens.now) }
    ensures shorter { IfOk result (λ r. length r.1.now < length tokens.now) }
{
    let (keyword, rest) = word(alloc, tokens, end, "if")?;
    let (condition, rest) = expression(alloc, rest, end, levels)?;
    let (then_keyword, rest) = word(alloc, rest, end, "then")?;
    let (then, rest) = within(alloc, rest, end, levels)?;
    Ok((
        Arm {
            keyword,
            condition,
            then_keyword,
            then,
        },
        rest,
    ))
}

// `"select" [ "(" expr ")" ] ";" { when } [ "otherwise" stmt ] "end" ";"`
#[cycle(statements)]
fn selection(alloc: Global, tokens: &[Token], end: Place, levels: u64) -> Parsed<'_, Statement>
    ensures exact { (m : ℕ) → length tokens.now < m → Gives end (λ x. (statement_tree x.0, x.1.now)) result (to selection_of (grammar.select_rule m (expression_grammar.expression m levels) (within_rule m levels)) tokens.now) }
    ensures shorter { IfOk result (λ r. length r.1.now < length tokens.now) }
{
    let (keyword, rest) = word(alloc, tokens, end, "select")?;
    let (selector, rest) = selector(alloc, rest, end, levels)?;
    let (semicolon, rest) = mark(rest, end, ";")?;
    let (body, rest) = selection_body(alloc, rest, end, levels)?;
    Ok((trees::selection(keyword, selector, semicolon, body), rest))
}

// `{ when } [ "otherwise" stmt ] "end" ";"`
#[cycle(statements)]
fn selection_body(
    alloc: Global,
    tokens: &[Token],
    end: Place,
    levels: u64,
) -> Parsed<'_, SelectionBody>
    ensures exact { (m : ℕ) → length tokens.now < m → Gives end (λ x. (selection_body_tree x.0, x.1.now)) result (to listed_body (selection_body_rule m (expression_grammar.expression m levels) (within_rule m levels)) tokens.now) }
    ensures shorter { IfOk result (λ r. length r.1.now < length tokens.now) }
{
    let (whens, rest) = whens(alloc, tokens, end, levels)?;
    let (last, rest) = otherwise(alloc, rest, end, levels)?;
    let (end_keyword, rest) = word(alloc, rest, end, "end")?;
    let (close, rest) = mark(rest, end, ";")?;
    let body = SelectionBody {
        whens,
        last,
        end_keyword,
        end: close,
    };
    Ok((body, rest))
}

// The `when` parts at the front.
#[cycle(statements)]
fn whens(alloc: Global, tokens: &[Token], end: Place, levels: u64) -> Parsed<'_, List<When>>
    ensures exact { (m : ℕ) → length tokens.now < m → Gives end (λ x. (whens_of x.0, x.1.now)) result (to grammar.listed_whens (many_of m (starts (codes "when")) (grammar.when_rule m (expression_grammar.expression m levels) (within_rule m levels))) tokens.now) }
    ensures shorter { IfOk result (λ r. length r.1.now ≤ length tokens.now) }
{
    let mut found: List<When> = List::new(alloc);
    let mut rest = tokens;
    while at_word(rest, "when") {
        let (next, after) = when(alloc, rest, end, levels)?;
        found.push(next)?;
        rest = after;
    }
    Ok((found, rest))
}

// `"when" "(" expr { "," expr } ")" stmt`
#[cycle(statements)]
fn when(alloc: Global, tokens: &[Token], end: Place, levels: u64) -> Parsed<'_, When>
    ensures exact { (m : ℕ) → length tokens.now < m → Gives end (λ x. (whens_of (x.0 ∷ []), x.1.now)) result (to (λ y. grammar.listed_whens (y ∷ [])) (grammar.when_rule m (expression_grammar.expression m levels) (within_rule m levels)) tokens.now) }
    ensures shorter { IfOk result (λ r. length r.1.now < length tokens.now) }
{
    let (keyword, rest) = word(alloc, tokens, end, "when")?;
    let (opening, rest) = mark(rest, end, "(")?;
    let (values, rest) = values(alloc, rest, end, levels)?;
    let (closing, rest) = mark(rest, end, ")")?;
    let (statement, rest) = within(alloc, rest, end, levels)?;
    Ok((
        When {
            keyword,
            opening,
            values,
            closing,
            statement,
        },
        rest,
    ))
}

// `[ "otherwise" stmt ]`
#[cycle(statements)]
fn otherwise(
    alloc: Global,
    tokens: &[Token],
    end: Place,
    levels: u64,
) -> Parsed<'_, Option<Otherwise>>
    ensures exact { (m : ℕ) → length tokens.now < m → Gives end (λ x. (option_map last_parts x.0, x.1.now)) result (otherwise_rule (within_rule m levels) tokens.now) }
    ensures shorter { IfOk result (λ r. length r.1.now ≤ length tokens.now) }
{
    if at_word(tokens, "otherwise") {
        let (keyword, rest) = word(alloc, tokens, end, "otherwise")?;
        let (statement, rest) = within(alloc, rest, end, levels)?;
        return Ok((Some(trees::otherwise(alloc, keyword, statement)?), rest));
    }
    Ok((None, tokens))
}

/// A statement that opens at most these levels.
#[derive(Clone, Copy)]
pub struct StatementRule {
    pub levels: u64,
}

impl Rule for StatementRule {
    type Tree = Statement;

    ghost view = { seen_through statement_tree };

    ghost grammar = { λ s m. grammar.statement_rule m s.levels };

    fn read<'t>(&self, alloc: Global, tokens: &'t [Token], end: Place) -> Parsed<'t, Statement> {
        statement(alloc, tokens, end, self.levels)
    }
}
