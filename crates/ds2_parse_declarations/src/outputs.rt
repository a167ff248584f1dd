//! The parser of output tables.
ghost use Rattle.std.specs.Prelude.{ℕ, ◌<◌, length, IfOk};
ghost use Rattle.ds2_tree.specs.Parsers.{One, Two, to};
ghost use Rattle.ds2_tree.specs.Promise.{Gives};
ghost use Rattle.ds2_parse_rules.specs.UnitGrammar as grammar;

use ds2_base::Place;
use ds2_parse_rules::front::Parsed;
use ds2_parse_rules::front_words::{TokenClass, at, starts_with};
use ds2_parse_rules::rules::{ItemsThen, Mark, Rule, SomeOf, Then, ThenOptional, Word};
use ds2_token::Token;
use ds2_tree::{OutputOption, OutputOptions, OutputTable, Renaming};
use std::alloc::Global;

/// name "=" name
#[derive(Clone, Copy)]
pub struct RenamingRule;

impl Rule for RenamingRule {
    type Tree = Renaming;

    ghost grammar = { λ s m. grammar.renaming_rule };

    fn read<'t>(&self, alloc: Global, tokens: &'t [Token], end: Place) -> Parsed<'t, Renaming> {
        let rule = Then(TokenClass::Name, Then(Mark("="), TokenClass::Name));
        let (parts, rest) = rule.read(alloc, tokens, end)?;
        let (old, (equals, new)) = parts;
        Ok((Renaming { old, equals, new }, rest))
    }
}

// ("keep" | "drop") "=" "(" name { name } ")"
fn kept_option(alloc: Global, tokens: &[Token], end: Place) -> Parsed<'_, OutputOption>
    ensures exact { (m : ℕ) → length tokens.now < m → Gives end (λ x. (x.0, x.1.now)) result (to (λ x. grammar.option_of_kind (One x)) (grammar.kept_option_rule m) tokens.now) }
    ensures shorter { IfOk result (λ r. length r.1.now < length tokens.now) }
{
    let names = Then(SomeOf(TokenClass::Name, TokenClass::Name), Mark(")"));
    let rule = Then(
        TokenClass::KeptOrDropped,
        Then(Mark("="), Then(Mark("("), names)),
    );
    let (parts, rest) = rule.read(alloc, tokens, end)?;
    let (keyword, (equals, (opening, (names, closing)))) = parts;
    let option = OutputOption::Listed {
        keyword,
        equals,
        opening,
        names,
        closing,
    };
    Ok((option, rest))
}

// "overwrite" "=" ("yes" | "no")
fn overwrite(alloc: Global, tokens: &[Token], end: Place) -> Parsed<'_, OutputOption>
    ensures exact { (m : ℕ) → length tokens.now < m → Gives end (λ x. (x.0, x.1.now)) result (to (λ x. grammar.option_of_kind (Two (One x))) grammar.overwrite_rule tokens.now) }
    ensures shorter { IfOk result (λ r. length r.1.now < length tokens.now) }
{
    let rule = Then(Word("overwrite"), Then(Mark("="), TokenClass::Answer));
    let (parts, rest) = rule.read(alloc, tokens, end)?;
    let (keyword, (equals, answer)) = parts;
    let option = OutputOption::Overwrite {
        keyword,
        equals,
        answer,
    };
    Ok((option, rest))
}

// "rename" "=" "(" name "=" name { name "=" name } ")"
fn rename(alloc: Global, tokens: &[Token], end: Place) -> Parsed<'_, OutputOption>
    ensures exact { (m : ℕ) → length tokens.now < m → Gives end (λ x. (x.0, x.1.now)) result (to (λ x. grammar.option_of_kind (Two (Two x))) (grammar.rename_rule m) tokens.now) }
    ensures shorter { IfOk result (λ r. length r.1.now < length tokens.now) }
{
    let renamings = Then(SomeOf(TokenClass::Name, RenamingRule), Mark(")"));
    let rule = Then(Word("rename"), Then(Mark("="), Then(Mark("("), renamings)));
    let (parts, rest) = rule.read(alloc, tokens, end)?;
    let (keyword, (equals, (opening, (renamings, closing)))) = parts;
    let option = OutputOption::Rename {
        keyword,
        equals,
        opening,
        renamings,
        closing,
    };
    Ok((option, rest))
}

/// An option of an output table, by its word.
#[derive(Clone, Copy)]
pub struct OptionRule;

impl Rule for OptionRule {
    type Tree = OutputOption;

    ghost grammar = { λ s. grammar.option_rule };

    fn read<'t>(&self, alloc: Global, tokens: &'t [Token], end: Place) -> Parsed<'t, OutputOption> {
        if at(tokens, TokenClass::KeptOrDropped) {
            return kept_option(alloc, tokens, end);
        }
        if starts_with(tokens, "overwrite") {
            return overwrite(alloc, tokens, end);
        }
        rename(alloc, tokens, end)
    }
}

/// "(" { option } ")"
#[derive(Clone, Copy)]
pub struct OptionsRule;

impl Rule for OptionsRule {
    type Tree = OutputOptions;

    ghost grammar = { λ s. grammar.options_rule };

    fn read<'t>(
        &self,
        alloc: Global,
        tokens: &'t [Token],
        end: Place,
    ) -> Parsed<'t, OutputOptions> {
        let options = ItemsThen(TokenClass::OutputOption, OptionRule, Mark(")"));
        let rule = Then(Mark("("), options);
        let (parts, rest) = rule.read(alloc, tokens, end)?;
        let (opening, (list, closing)) = parts;
        let options = OutputOptions {
            opening,
            list,
            closing,
        };
        Ok((options, rest))
    }
}

/// table [ "(" { option } ")" ]
#[derive(Clone, Copy)]
pub struct OutputRule;

impl Rule for OutputRule {
    type Tree = OutputTable;

    ghost grammar = { λ s. grammar.output_rule };

    fn read<'t>(&self, alloc: Global, tokens: &'t [Token], end: Place) -> Parsed<'t, OutputTable> {
        let rule = ThenOptional(TokenClass::Table, Mark("("), OptionsRule);
        let (parts, rest) = rule.read(alloc, tokens, end)?;
        let (table, options) = parts;
        Ok((OutputTable { table, options }, rest))
    }
}
