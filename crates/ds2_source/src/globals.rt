//! The parser of what a unit is made of: declarations, lists of variables, and methods.
ghost use Rattle.std.specs.Prelude.{ℕ, ◌<◌, length, IfOk};
ghost use Rattle.ds2_tree.specs.Parsers.{One, Two, to};
ghost use Rattle.ds2_tree.specs.Promise.{Gives, Promises};
ghost use Rattle.ds2_tree.specs.UnitViews.{method_tree, global_tree};
ghost use Rattle.ds2_parse_rules.specs.StatementGrammar.{statement_rule};
ghost use Rattle.ds2_parse_rules.specs.GlobalGrammar as grammar;
ghost use Rattle.ds2_parse_rules.specs.TreeViews.{seen_through};
ghost use Rattle.ds2_source.specs.ParseAnswer.{global_symbol};
ghost use Rattle.ds2_source.specs.MethodBodies.{method_body_parts};

use ds2_base::{List, Place};
use ds2_parse_declarations::declarations::declaration;
use ds2_parse_declarations::parameters::{ParametersRule, ReturnsRule};
use ds2_parse_declarations::readings::ReadingRule;
use ds2_parse_declarations::types::VariablesRule;
use ds2_parse_rules::front::Parsed;
use ds2_parse_rules::front_words::{TokenClass, at};
use ds2_parse_rules::rules::{ItemsThen, Mark, OptionalThen, Rule, SomeOf, Then, Word};
use ds2_parse_statements::statements::StatementRule;
use ds2_token::Token;
use ds2_tree::{GlobalItem, Method, Reading, Statement, VariableDeclaration};
use std::alloc::Global;

/// What stands behind the `;` of a method's first line.
#[derive(Drop)]
pub struct MethodBody {
    pub locals: List<VariableDeclaration>,
    pub reading: Option<Reading>,
    pub statements: List<Statement>,
    pub end_keyword: Token,
    pub end: Place,
}

/// { variables } [ reading ] { stmt } "end" ";", where each statement opens at most these levels
#[derive(Clone, Copy)]
pub struct MethodBodyRule {
    pub levels: u64,
}

impl Rule for MethodBodyRule {
    type Tree = MethodBody;

    ghost view = { seen_through method_body_parts };

    ghost grammar = { λ s m. grammar.body_rule m (statement_rule m s.levels) };

    fn read<'t>(&self, alloc: Global, tokens: &'t [Token], end: Place) -> Parsed<'t, MethodBody> {
        let statement = StatementRule {
            levels: self.levels,
        };
        let ending = Then(Word("end"), Mark(";"));
        let statements = ItemsThen(TokenClass::Statement, statement, ending);
        let reading = OptionalThen(TokenClass::Reading, ReadingRule, statements);
        let rule = ItemsThen(TokenClass::Declare, VariablesRule, reading);
        let (parts, rest) = rule.read(alloc, tokens, end)?;
        let (locals, (reading, (statements, (end_keyword, semicolon)))) = parts;
        let body = MethodBody {
            locals,
            reading,
            statements,
            end_keyword,
            end: semicolon,
        };
        Ok((body, rest))
    }
}

// "method" name parameters [ "returns" type ] ";", and the body
fn method(alloc: Global, tokens: &[Token], end: Place, levels: u64) -> Parsed<'_, Method>
    ensures exact { (m : ℕ) → length tokens.now < m → Gives end (λ x. (method_tree x.0, x.1.now)) result (grammar.method_rule m levels tokens.now) }
    ensures shorter { IfOk result (λ r. length r.1.now < length tokens.now) }
{
    let body = Then(Mark(";"), MethodBodyRule { levels });
    let behind = OptionalThen(Word("returns"), ReturnsRule, body);
    let named = Then(TokenClass::Name, Then(ParametersRule, behind));
    let (parts, rest) = Then(Word("method"), named).read(alloc, tokens, end)?;
    let (keyword, (name, (parameters, (returns, (semicolon, body))))) = parts;
    let method = Method {
        keyword,
        name,
        parameters,
        returns,
        semicolon,
        locals: body.locals,
        reading: body.reading,
        body: body.statements,
        end_keyword: body.end_keyword,
        end: body.end,
    };
    Ok((method, rest))
}

// ("retain" | "keep" | "drop") name { name } ";"
fn listed(alloc: Global, tokens: &[Token], end: Place) -> Parsed<'_, GlobalItem>
    ensures exact { (m : ℕ) → length tokens.now < m → Gives end (λ x. (global_tree x.0, x.1.now)) result (to (λ x. grammar.global_of_kind (Two (One x))) (grammar.listed_rule m) tokens.now) }
    ensures shorter { IfOk result (λ r. length r.1.now < length tokens.now) }
{
    let names = SomeOf(TokenClass::Name, TokenClass::Name);
    let rule = Then(TokenClass::ListKeyword, Then(names, Mark(";")));
    let (parts, rest) = rule.read(alloc, tokens, end)?;
    let (keyword, (names, semicolon)) = parts;
    let global = GlobalItem::Listed {
        keyword,
        names,
        end: semicolon,
    };
    Ok((global, rest))
}

// A declaration, a list of variables, or a method.
fn global(alloc: Global, tokens: &[Token], end: Place, levels: u64) -> Parsed<'_, GlobalItem>
    ensures exact { (m : ℕ) → length tokens.now < m → Gives end (λ x. (global_tree x.0, x.1.now)) result (grammar.global_rule m levels tokens.now) }
    ensures promise { Promises global_symbol levels end (λ x. (global_tree x.0, x.1.now)) tokens.now result }
    ensures shorter { IfOk result (λ r. length r.1.now < length tokens.now) }
{
    any_global(alloc, tokens, end, levels)
}

// Either of them, by its first word.
fn any_global(alloc: Global, tokens: &[Token], end: Place, levels: u64) -> Parsed<'_, GlobalItem>
    ensures exact { (m : ℕ) → length tokens.now < m → Gives end (λ x. (global_tree x.0, x.1.now)) result (grammar.global_rule m levels tokens.now) }
    ensures shorter { IfOk result (λ r. length r.1.now < length tokens.now) }
{
    if at(tokens, TokenClass::Declare) {
        let (declaration, rest) = declaration(alloc, tokens, end)?;
        return Ok((GlobalItem::Declaration(declaration), rest));
    }
    if at(tokens, TokenClass::ListKeyword) {
        return listed(alloc, tokens, end);
    }
    let (method, rest) = method(alloc, tokens, end, levels)?;
    Ok((GlobalItem::Method(method), rest))
}

/// A declaration, a list of variables, or a method; each statement opens at most these levels.
#[derive(Clone, Copy)]
pub struct GlobalRule {
    pub levels: u64,
}

impl Rule for GlobalRule {
    type Tree = GlobalItem;

    ghost view = { seen_through global_tree };

    ghost grammar = { λ s m. grammar.global_rule m s.levels };

    fn read<'t>(&self, alloc: Global, tokens: &'t [Token], end: Place) -> Parsed<'t, GlobalItem> {
        global(alloc, tokens, end, self.levels)
    }
}
