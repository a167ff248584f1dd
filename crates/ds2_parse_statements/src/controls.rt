//! The parser of what stands in parentheses behind `select`, and between `do` and its `;`.
ghost use Rattle.std.specs.Prelude.{ℕ, ◌<◌, ◌≤◌, codes, length, IfOk};
ghost use Rattle.std.specs.Option.{option_map};
ghost use Rattle.ds2_tree.specs.Parsers.{to, seq, optional};
ghost use Rattle.ds2_tree.specs.Promise.{Gives};
ghost use Rattle.ds2_tree.specs.Statements as tree;
ghost use Rattle.ds2_tree.specs.StatementViews.{control_tree};
ghost use Rattle.ds2_parse_rules.specs.GrammarTokens.{word_rule, is_open_mark, enclosed};
ghost use Rattle.ds2_parse_rules.specs.ExpressionGrammar as expression_grammar;
ghost use Rattle.ds2_parse_rules.specs.StatementGrammar as grammar;
ghost use Rattle.ds2_parse_rules.specs.TreeViews.{seen_through};
ghost use Rattle.ds2_parse_statements.specs.StatementParts.{selector_parts, step_parts, behind_variable};

use crate::expressions::ExpressionRule;
use ds2_base::Place;
use ds2_parse_rules::front::{Parsed, name_at, tested_at};
use ds2_parse_rules::rules::{Mark, Rule, Then, ThenOptional, Word, optional_of};
use ds2_token::Token;
use ds2_tree::{CountedControl, DoControl, Selector, Step, TestedControl};
use std::alloc::Global;

/// `"(" expr ")"`, where the expression opens at most these levels
#[derive(Clone, Copy)]
pub struct SelectorRule {
    pub levels: u64,
}

impl Rule for SelectorRule {
    type Tree = Selector;

    ghost view = { seen_through selector_parts };

    ghost grammar = { λ s m. enclosed (expression_grammar.expression m s.levels) };

    fn read<'t>(&self, alloc: Global, tokens: &'t [Token], end: Place) -> Parsed<'t, Selector> {
        let value = ExpressionRule {
            levels: self.levels,
        };
        let rule = Then(Mark("("), Then(value, Mark(")")));
        let (parts, rest) = rule.read(alloc, tokens, end)?;
        let (opening, (value, closing)) = parts;
        let boxed = Box::new(alloc, value)?;
        let selector = Selector {
            opening,
            value: boxed,
            closing,
        };
        Ok((selector, rest))
    }
}

/// `[ "(" expr ")" ]` behind `select`
pub fn selector(
    alloc: Global,
    tokens: &[Token],
    end: Place,
    levels: u64,
) -> Parsed<'_, Option<Selector>>
    ensures exact { (m : ℕ) → length tokens.now < m → Gives end (λ x. (option_map selector_parts x.0, x.1.now)) result (optional is_open_mark (enclosed (expression_grammar.expression m levels)) tokens.now) }
    ensures shorter { IfOk result (λ r. length r.1.now ≤ length tokens.now) }
{
    optional_of(alloc, &Mark("("), &SelectorRule { levels }, tokens, end)
}

/// `[ name "=" expr "to" expr ["by" expr] | ("while" | "until") "(" expr ")" ]`
pub fn control(alloc: Global, tokens: &[Token], end: Place, levels: u64) -> Parsed<'_, DoControl>
    ensures exact { (m : ℕ) → length tokens.now < m → Gives end (λ x. (control_tree x.0, x.1.now)) result (grammar.control_rule (expression_grammar.expression m levels) tokens.now) }
    ensures shorter { IfOk result (λ r. length r.1.now ≤ length tokens.now) }
{
    if let Some((variable, rest)) = name_at(tokens) {
        return counted(alloc, variable.copy(alloc)?, rest, end, levels);
    }
    match tested_at(tokens) {
        Some((keyword, rest)) => tested(alloc, keyword.copy(alloc)?, rest, end, levels),
        None => Ok((DoControl::Block, tokens)),
    }
}

/// `"by" expr`, where the expression opens at most these levels
#[derive(Clone, Copy)]
pub struct StepRule {
    pub levels: u64,
}

impl Rule for StepRule {
    type Tree = Step;

    ghost view = { seen_through step_parts };

    ghost grammar = { λ s m. seq (word_rule (codes "by")) (expression_grammar.expression m s.levels) };

    fn read<'t>(&self, alloc: Global, tokens: &'t [Token], end: Place) -> Parsed<'t, Step> {
        let value = ExpressionRule {
            levels: self.levels,
        };
        let (parts, rest) = Then(Word("by"), value).read(alloc, tokens, end)?;
        let (keyword, value) = parts;
        Ok((Step { keyword, value }, rest))
    }
}

// A count behind its variable.
fn counted(
    alloc: Global,
    variable: Token,
    tokens: &[Token],
    end: Place,
    levels: u64,
) -> Parsed<'_, DoControl>
    ensures exact { (m : ℕ) → length tokens.now < m → Gives end (λ x. (control_tree x.0, x.1.now)) result (to (λ x. tree.Counted variable x.0 x.1.0 x.1.1.0 x.1.1.1.0 (grammar.step_of x.1.1.1.1)) (behind_variable (expression_grammar.expression m levels)) tokens.now) }
    ensures shorter { IfOk result (λ r. length r.1.now < length tokens.now) }
{
    let value = ExpressionRule { levels };
    let stop = ThenOptional(value, Word("by"), StepRule { levels });
    let rule = Then(Mark("="), Then(value, Then(Word("to"), stop)));
    let (parts, rest) = rule.read(alloc, tokens, end)?;
    let (equals, (start, (to_keyword, (stop, step)))) = parts;
    let count = CountedControl {
        variable,
        equals,
        start,
        to_keyword,
        stop,
        step,
    };
    let boxed = Box::new(alloc, count)?;
    Ok((DoControl::Counted(boxed), rest))
}

// A tested condition behind its word.
fn tested(
    alloc: Global,
    keyword: Token,
    tokens: &[Token],
    end: Place,
    levels: u64,
) -> Parsed<'_, DoControl>
    ensures exact { (m : ℕ) → length tokens.now < m → Gives end (λ x. (control_tree x.0, x.1.now)) result (to (λ x. tree.Tested keyword x.0 x.1.0 x.1.1) (enclosed (expression_grammar.expression m levels)) tokens.now) }
    ensures shorter { IfOk result (λ r. length r.1.now < length tokens.now) }
{
    let condition = Then(ExpressionRule { levels }, Mark(")"));
    let (parts, rest) = Then(Mark("("), condition).read(alloc, tokens, end)?;
    let (opening, (condition, closing)) = parts;
    let test = TestedControl {
        keyword,
        opening,
        condition,
        closing,
    };
    let boxed = Box::new(alloc, test)?;
    Ok((DoControl::Tested(boxed), rest))
}
