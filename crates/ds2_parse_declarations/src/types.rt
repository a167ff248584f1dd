//! The parser of types and of declarations of variables.
ghost use Rattle.std.specs.Prelude.{ℕ, ◌<◌, length, IfOk};
ghost use Rattle.ds2_tree.specs.Parsers.{One, Two, to};
ghost use Rattle.ds2_tree.specs.Promise.{Gives};
ghost use Rattle.ds2_parse_rules.specs.GlobalGrammar as grammar;

use ds2_base::Place;
use ds2_parse_rules::front::{Parsed, word};
use ds2_parse_rules::front_words::{TokenClass, at, starts_with, token};
use ds2_parse_rules::rules::{Mark, OptionalThen, Rule, SomeOf, Then};
use ds2_token::Token;
use ds2_tree::{Scale, TypeName, VariableDeclaration};
use std::alloc::Global;

/// "," integer
#[derive(Clone, Copy)]
pub struct ScaleRule;

impl Rule for ScaleRule {
    type Tree = Scale;

    ghost grammar = { λ s m. grammar.scale_rule };

    fn read<'t>(&self, alloc: Global, tokens: &'t [Token], end: Place) -> Parsed<'t, Scale> {
        let rule = Then(Mark(","), TokenClass::Integer);
        let (parts, rest) = rule.read(alloc, tokens, end)?;
        let (comma, number) = parts;
        Ok((Scale { comma, number }, rest))
    }
}

// ("decimal" | "numeric") "(" integer ["," integer] ")"
fn decimal_type(alloc: Global, tokens: &[Token], end: Place) -> Parsed<'_, TypeName>
    ensures exact { Gives end (λ x. (x.0, x.1.now)) result (to (λ x. grammar.type_of_kind (Two (One x))) grammar.decimal_type_rule tokens.now) }
    ensures shorter { IfOk result (λ r. length r.1.now < length tokens.now) }
{
    let scale = OptionalThen(Mark(","), ScaleRule, Mark(")"));
    let rule = Then(
        TokenClass::DecimalKeyword,
        Then(Mark("("), Then(TokenClass::Integer, scale)),
    );
    let (parts, rest) = rule.read(alloc, tokens, end)?;
    let (keyword, (opening, (precision, (scale, closing)))) = parts;
    let ty = TypeName::Decimal {
        keyword,
        opening,
        precision,
        scale,
        closing,
    };
    Ok((ty, rest))
}

// ("char" | "varchar") "(" integer ")"
fn text_type(alloc: Global, tokens: &[Token], end: Place) -> Parsed<'_, TypeName>
    ensures exact { Gives end (λ x. (x.0, x.1.now)) result (to (λ x. grammar.type_of_kind (Two (Two x))) grammar.text_type_rule tokens.now) }
    ensures shorter { IfOk result (λ r. length r.1.now < length tokens.now) }
{
    let rule = Then(
        TokenClass::TextKeyword,
        Then(Mark("("), Then(TokenClass::Integer, Mark(")"))),
    );
    let (parts, rest) = rule.read(alloc, tokens, end)?;
    let (keyword, (opening, (length, closing))) = parts;
    let ty = TypeName::Text {
        keyword,
        opening,
        length,
        closing,
    };
    Ok((ty, rest))
}

/// A type.
#[derive(Clone, Copy)]
pub struct TypeRule;

impl Rule for TypeRule {
    type Tree = TypeName;

    ghost grammar = { λ s m. grammar.type_rule };

    fn read<'t>(&self, alloc: Global, tokens: &'t [Token], end: Place) -> Parsed<'t, TypeName> {
        if starts_with(tokens, "bigint") {
            let (keyword, rest) = word(alloc, tokens, end, "bigint")?;
            return Ok((TypeName::BigInt(keyword), rest));
        }
        if at(tokens, TokenClass::DecimalKeyword) {
            return decimal_type(alloc, tokens, end);
        }
        text_type(alloc, tokens, end)
    }
}

/// Behind `dcl`: type name { name } ";"
pub fn declared_variables(
    alloc: Global,
    keyword: Token,
    tokens: &[Token],
    end: Place,
) -> Parsed<'_, VariableDeclaration>
    ensures exact { (m : ℕ) → length tokens.now < m → Gives end (λ x. (x.0, x.1.now)) result (to (λ x. grammar.variables_of (keyword, x)) (grammar.variables_tail m) tokens.now) }
    ensures shorter { IfOk result (λ r. length r.1.now < length tokens.now) }
{
    let rule = Then(
        TypeRule,
        Then(SomeOf(TokenClass::Name, TokenClass::Name), Mark(";")),
    );
    let (parts, rest) = rule.read(alloc, tokens, end)?;
    let (ty, (names, semicolon)) = parts;
    let variables = VariableDeclaration {
        keyword,
        ty,
        names,
        end: semicolon,
    };
    Ok((variables, rest))
}

/// dcl type name { name } ";"
#[derive(Clone, Copy)]
pub struct VariablesRule;

impl Rule for VariablesRule {
    type Tree = VariableDeclaration;

    ghost grammar = { λ s. grammar.variables_rule };

    fn read<'t>(
        &self,
        alloc: Global,
        tokens: &'t [Token],
        end: Place,
    ) -> Parsed<'t, VariableDeclaration> {
        let (keyword, rest) = token(alloc, tokens, end, TokenClass::Declare)?;
        declared_variables(alloc, keyword, rest, end)
    }
}
