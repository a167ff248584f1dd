//! The parser of reading statements.
ghost use Rattle.std.specs.Prelude.{ℕ, ◌<◌, length, IfOk};
ghost use Rattle.ds2_tree.specs.Parsers.{One, Two, to};
ghost use Rattle.ds2_tree.specs.Promise.{Gives};
ghost use Rattle.ds2_parse_rules.specs.ReadingGrammar as grammar;

use ds2_base::Place;
use ds2_parse_rules::front::{Parsed, word};
use ds2_parse_rules::front_words::{TokenClass, starts_with};
use ds2_parse_rules::rules::{Mark, OptionalThen, Rule, SomeOf, Then, ThenOptional, Word};
use ds2_token::Token;
use ds2_tree::{By, ByVariable, Input, InputFlag, MergeRetain, Reading, Threads};
use std::alloc::Global;

/// "(" "in" "=" name ")"
#[derive(Clone, Copy)]
pub struct InputFlagRule;

impl Rule for InputFlagRule {
    type Tree = InputFlag;

    ghost grammar = { λ s m. grammar.input_flag_rule };

    fn read<'t>(&self, alloc: Global, tokens: &'t [Token], end: Place) -> Parsed<'t, InputFlag> {
        let rule = Then(
            Mark("("),
            Then(
                Word("in"),
                Then(Mark("="), Then(TokenClass::Name, Mark(")"))),
            ),
        );
        let (parts, rest) = rule.read(alloc, tokens, end)?;
        let (opening, (keyword, (equals, (name, closing)))) = parts;
        let flag = InputFlag {
            opening,
            keyword,
            equals,
            name,
            closing,
        };
        Ok((flag, rest))
    }
}

/// table [ "(" "in" "=" name ")" ]
#[derive(Clone, Copy)]
pub struct InputRule;

impl Rule for InputRule {
    type Tree = Input;

    ghost grammar = { λ s m. grammar.input_rule };

    fn read<'t>(&self, alloc: Global, tokens: &'t [Token], end: Place) -> Parsed<'t, Input> {
        let rule = ThenOptional(TokenClass::Table, Mark("("), InputFlagRule);
        let (parts, rest) = rule.read(alloc, tokens, end)?;
        let (table, flag) = parts;
        Ok((Input { table, flag }, rest))
    }
}

/// ["descending"] name
#[derive(Clone, Copy)]
pub struct ByVariableRule;

impl Rule for ByVariableRule {
    type Tree = ByVariable;

    ghost grammar = { λ s m. grammar.by_variable_rule };

    fn read<'t>(&self, alloc: Global, tokens: &'t [Token], end: Place) -> Parsed<'t, ByVariable> {
        let rule = OptionalThen(Word("descending"), Word("descending"), TokenClass::Name);
        let (parts, rest) = rule.read(alloc, tokens, end)?;
        let (descending, name) = parts;
        Ok((ByVariable { descending, name }, rest))
    }
}

/// "by" ["descending"] name { ["descending"] name } ";"
#[derive(Clone, Copy)]
pub struct ByRule;

impl Rule for ByRule {
    type Tree = By;

    ghost grammar = { λ s. grammar.by_rule };

    fn read<'t>(&self, alloc: Global, tokens: &'t [Token], end: Place) -> Parsed<'t, By> {
        let variables = Then(SomeOf(TokenClass::ByVariable, ByVariableRule), Mark(";"));
        let rule = Then(Word("by"), variables);
        let (parts, rest) = rule.read(alloc, tokens, end)?;
        let (keyword, (variables, end)) = parts;
        let by = By {
            keyword,
            variables,
            end,
        };
        Ok((by, rest))
    }
}

/// "threads" "=" integer
#[derive(Clone, Copy)]
pub struct ThreadsRule;

impl Rule for ThreadsRule {
    type Tree = Threads;

    ghost grammar = { λ s m. grammar.threads_rule };

    fn read<'t>(&self, alloc: Global, tokens: &'t [Token], end: Place) -> Parsed<'t, Threads> {
        let rule = Then(Word("threads"), Then(Mark("="), TokenClass::Integer));
        let (parts, rest) = rule.read(alloc, tokens, end)?;
        let (keyword, (equals, number)) = parts;
        let threads = Threads {
            keyword,
            equals,
            number,
        };
        Ok((threads, rest))
    }
}

/// "/" "retain"
#[derive(Clone, Copy)]
pub struct MergeRetainRule;

impl Rule for MergeRetainRule {
    type Tree = MergeRetain;

    ghost grammar = { λ s m. grammar.merge_retain_rule };

    fn read<'t>(&self, alloc: Global, tokens: &'t [Token], end: Place) -> Parsed<'t, MergeRetain> {
        let rule = Then(Mark("/"), Word("retain"));
        let (parts, rest) = rule.read(alloc, tokens, end)?;
        let (slash, keyword) = parts;
        Ok((MergeRetain { slash, keyword }, rest))
    }
}

// Behind `set`: "from" name [ "threads" "=" integer ] ";"
fn set_from(alloc: Global, keyword: Token, tokens: &[Token], end: Place) -> Parsed<'_, Reading>
    ensures exact { (m : ℕ) → length tokens.now < m → Gives end (λ x. (x.0, x.1.now)) result (to (λ x. grammar.reading_of_kind (One (keyword, One x))) grammar.set_from_rule tokens.now) }
    ensures shorter { IfOk result (λ r. length r.1.now < length tokens.now) }
{
    let threads = OptionalThen(Word("threads"), ThreadsRule, Mark(";"));
    let rule = Then(Word("from"), Then(TokenClass::Name, threads));
    let (parts, rest) = rule.read(alloc, tokens, end)?;
    let (from_keyword, (instance, (threads, semicolon))) = parts;
    let reading = Reading::SetFrom {
        keyword,
        from_keyword,
        instance,
        threads,
        end: semicolon,
    };
    Ok((reading, rest))
}

// Behind `set`: input { input } ";" [ by ]
fn set_tables(alloc: Global, keyword: Token, tokens: &[Token], end: Place) -> Parsed<'_, Reading>
    ensures exact { (m : ℕ) → length tokens.now < m → Gives end (λ x. (x.0, x.1.now)) result (to (λ x. grammar.reading_of_kind (One (keyword, Two x))) (grammar.set_tables_rule m) tokens.now) }
    ensures shorter { IfOk result (λ r. length r.1.now < length tokens.now) }
{
    let by = ThenOptional(Mark(";"), Word("by"), ByRule);
    let rule = Then(SomeOf(TokenClass::Table, InputRule), by);
    let (parts, rest) = rule.read(alloc, tokens, end)?;
    let (inputs, (semicolon, by)) = parts;
    let reading = Reading::Set {
        keyword,
        inputs,
        end: semicolon,
        by,
    };
    Ok((reading, rest))
}

// "set" and what it reads from
fn set(alloc: Global, tokens: &[Token], end: Place) -> Parsed<'_, Reading>
    ensures exact { (m : ℕ) → length tokens.now < m → Gives end (λ x. (x.0, x.1.now)) result (to (λ x. grammar.reading_of_kind (One x)) (grammar.set_rule m) tokens.now) }
    ensures shorter { IfOk result (λ r. length r.1.now < length tokens.now) }
{
    let (keyword, rest) = word(alloc, tokens, end, "set")?;
    if starts_with(rest, "from") {
        return set_from(alloc, keyword, rest, end);
    }
    set_tables(alloc, keyword, rest, end)
}

// "merge" input { input } [ "/" "retain" ] ";" by
fn merge(alloc: Global, tokens: &[Token], end: Place) -> Parsed<'_, Reading>
    ensures exact { (m : ℕ) → length tokens.now < m → Gives end (λ x. (x.0, x.1.now)) result (to (λ x. grammar.reading_of_kind (Two x)) (grammar.merge_rule m) tokens.now) }
    ensures shorter { IfOk result (λ r. length r.1.now < length tokens.now) }
{
    let behind = OptionalThen(Mark("/"), MergeRetainRule, Then(Mark(";"), ByRule));
    let rule = Then(
        Word("merge"),
        Then(SomeOf(TokenClass::Table, InputRule), behind),
    );
    let (parts, rest) = rule.read(alloc, tokens, end)?;
    let (keyword, (inputs, (retain, (semicolon, by)))) = parts;
    let reading = Reading::Merge {
        keyword,
        inputs,
        retain,
        end: semicolon,
        by,
    };
    Ok((reading, rest))
}

/// A reading statement.
#[derive(Clone, Copy)]
pub struct ReadingRule;

impl Rule for ReadingRule {
    type Tree = Reading;

    ghost grammar = { λ s. grammar.reading_rule };

    fn read<'t>(&self, alloc: Global, tokens: &'t [Token], end: Place) -> Parsed<'t, Reading> {
        if starts_with(tokens, "set") {
            return set(alloc, tokens, end);
        }
        merge(alloc, tokens, end)
    }
}
