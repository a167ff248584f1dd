//! The parser of parameters and of a method's result.
ghost use Rattle.std.specs.Prelude.{ℕ, ◌<◌, ◌≤◌, length, IfOk};
ghost use Rattle.ds2_tree.specs.Parsers.{to};
ghost use Rattle.ds2_tree.specs.Promise.{Gives};
ghost use Rattle.ds2_parse_rules.specs.GrammarTokens.{comma_list};
ghost use Rattle.ds2_parse_rules.specs.GlobalGrammar as grammar;
ghost use Rattle.ds2_parse_declarations.specs.UnitParts.{behind_comma};

use crate::types::TypeRule;
use ds2_base::{List, Place};
use ds2_parse_rules::front::{Parsed, mark};
use ds2_parse_rules::front_words::{TokenClass, at};
use ds2_parse_rules::rules::{Mark, OptionalThen, Rule, Then, Word, further_of};
use ds2_token::Token;
use ds2_tree::{Parameter, Parameters, Returns};
use std::alloc::Global;

// ["in_out"] type name, behind this comma
fn parameter(
    alloc: Global,
    comma: Option<Place>,
    tokens: &[Token],
    end: Place,
) -> Parsed<'_, Parameter>
    ensures exact { Gives end (λ x. (x.0, x.1.now)) result (to (grammar.parameter_behind comma) grammar.parameter_rule tokens.now) }
    ensures shorter { IfOk result (λ r. length r.1.now < length tokens.now) }
{
    let rule = OptionalThen(
        Word("in_out"),
        Word("in_out"),
        Then(TypeRule, TokenClass::Name),
    );
    let (parts, rest) = rule.read(alloc, tokens, end)?;
    let (in_out, (ty, name)) = parts;
    let parameter = Parameter {
        comma,
        in_out,
        ty,
        name,
    };
    Ok((parameter, rest))
}

/// A parameter behind its comma.
#[derive(Clone, Copy)]
pub struct FurtherParameterRule;

impl Rule for FurtherParameterRule {
    type Tree = Parameter;

    ghost grammar = { λ s m. behind_comma grammar.parameter_behind grammar.parameter_rule };

    fn read<'t>(&self, alloc: Global, tokens: &'t [Token], end: Place) -> Parsed<'t, Parameter> {
        let (comma, rest) = mark(tokens, end, ",")?;
        parameter(alloc, Some(comma), rest, end)
    }
}

// [ param { "," param } ]
fn parameter_list(alloc: Global, tokens: &[Token], end: Place) -> Parsed<'_, List<Parameter>>
    ensures exact { (m : ℕ) → length tokens.now < m → Gives end (λ x. (x.0, x.1.now)) result (comma_list m grammar.begins_parameter grammar.parameter_behind grammar.parameter_rule tokens.now) }
    ensures shorter { IfOk result (λ r. length r.1.now ≤ length tokens.now) }
{
    let mut found = List::new(alloc);
    if at(tokens, TokenClass::Parameter) {
        let (first, rest) = parameter(alloc, None, tokens, end)?;
        found.push(first)?;
        return further_of(alloc, &Mark(","), &FurtherParameterRule, found, rest, end);
    }
    Ok((found, tokens))
}

/// "(" [ param { "," param } ] ")"
#[derive(Clone, Copy)]
pub struct ParametersRule;

impl Rule for ParametersRule {
    type Tree = Parameters;

    ghost grammar = { λ s. grammar.parameters_rule };

    fn read<'t>(&self, alloc: Global, tokens: &'t [Token], end: Place) -> Parsed<'t, Parameters> {
        let (opening, rest) = mark(tokens, end, "(")?;
        let (list, rest) = parameter_list(alloc, rest, end)?;
        let (closing, rest) = mark(rest, end, ")")?;
        let parameters = Parameters {
            opening,
            list,
            closing,
        };
        Ok((parameters, rest))
    }
}

/// "returns" type
#[derive(Clone, Copy)]
pub struct ReturnsRule;

impl Rule for ReturnsRule {
    type Tree = Returns;

    ghost grammar = { λ s m. grammar.returns_rule };

    fn read<'t>(&self, alloc: Global, tokens: &'t [Token], end: Place) -> Parsed<'t, Returns> {
        let rule = Then(Word("returns"), TypeRule);
        let (parts, rest) = rule.read(alloc, tokens, end)?;
        let (keyword, ty) = parts;
        Ok((Returns { keyword, ty }, rest))
    }
}
