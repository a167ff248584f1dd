//! The parser of declarations.
ghost use Rattle.std.specs.Prelude.{ℕ, ◌<◌, ◌≤◌, codes, length, IfOk};
ghost use Rattle.ds2_tree.specs.Parsers.{One, Two, to, seq};
ghost use Rattle.ds2_tree.specs.Promise.{Gives};
ghost use Rattle.ds2_parse_rules.specs.GrammarTokens.{word_rule, comma_list};
ghost use Rattle.ds2_parse_rules.specs.GlobalGrammar as grammar;
ghost use Rattle.ds2_parse_declarations.specs.UnitParts.{behind_comma};

use crate::types::declared_variables;
use ds2_base::{List, Place};
use ds2_parse_rules::front::{Parsed, mark, word};
use ds2_parse_rules::front_words::{TokenClass, at, begins_with, starts_with, token};
use ds2_parse_rules::rules::{Mark, OptionalThen, Rule, Then, ThenOptional, Word, further_of};
use ds2_token::Token;
use ds2_tree::{Bracketed, BracketedName, Constant, Constants, Declaration, HashSize, HashTable};
use std::alloc::Global;

// ---- constants

// ["-"] integer | ["-"] decimal | text | "null", behind this comma
fn constant(
    alloc: Global,
    comma: Option<Place>,
    tokens: &[Token],
    end: Place,
) -> Parsed<'_, Constant>
    ensures exact { Gives end (λ x. (x.0, x.1.now)) result (to (grammar.constant_behind comma) grammar.constant_rule tokens.now) }
    ensures shorter { IfOk result (λ r. length r.1.now < length tokens.now) }
{
    if begins_with(tokens, "-") {
        let (minus, rest) = mark(tokens, end, "-")?;
        let (value, rest) = token(alloc, rest, end, TokenClass::Number)?;
        let constant = Constant {
            comma,
            minus: Some(minus),
            value,
        };
        return Ok((constant, rest));
    }
    let (value, rest) = token(alloc, tokens, end, TokenClass::UnsignedConstant)?;
    let constant = Constant {
        comma,
        minus: None,
        value,
    };
    Ok((constant, rest))
}

/// A constant behind its comma.
#[derive(Clone, Copy)]
pub struct FurtherConstantRule;

impl Rule for FurtherConstantRule {
    type Tree = Constant;

    ghost grammar = { λ s m. behind_comma grammar.constant_behind grammar.constant_rule };

    fn read<'t>(&self, alloc: Global, tokens: &'t [Token], end: Place) -> Parsed<'t, Constant> {
        let (comma, rest) = mark(tokens, end, ",")?;
        constant(alloc, Some(comma), rest, end)
    }
}

// [ const { "," const } ]
fn constant_list(alloc: Global, tokens: &[Token], end: Place) -> Parsed<'_, List<Constant>>
    ensures exact { (m : ℕ) → length tokens.now < m → Gives end (λ x. (x.0, x.1.now)) result (comma_list m grammar.begins_constant grammar.constant_behind grammar.constant_rule tokens.now) }
    ensures shorter { IfOk result (λ r. length r.1.now ≤ length tokens.now) }
{
    let mut found = List::new(alloc);
    if at(tokens, TokenClass::Constant) {
        let (first, rest) = constant(alloc, None, tokens, end)?;
        found.push(first)?;
        return further_of(alloc, &Mark(","), &FurtherConstantRule, found, rest, end);
    }
    Ok((found, tokens))
}

/// "(" [ const { "," const } ] ")"
#[derive(Clone, Copy)]
pub struct ConstantsRule;

impl Rule for ConstantsRule {
    type Tree = Constants;

    ghost grammar = { λ s. grammar.constants_rule };

    fn read<'t>(&self, alloc: Global, tokens: &'t [Token], end: Place) -> Parsed<'t, Constants> {
        let (opening, rest) = mark(tokens, end, "(")?;
        let (list, rest) = constant_list(alloc, rest, end)?;
        let (closing, rest) = mark(rest, end, ")")?;
        let constants = Constants {
            opening,
            list,
            closing,
        };
        Ok((constants, rest))
    }
}

// ---- names in brackets

/// [","] name
#[derive(Clone, Copy)]
pub struct BracketedNameRule;

impl Rule for BracketedNameRule {
    type Tree = BracketedName;

    ghost grammar = { λ s m. grammar.bracketed_name_rule };

    fn read<'t>(
        &self,
        alloc: Global,
        tokens: &'t [Token],
        end: Place,
    ) -> Parsed<'t, BracketedName> {
        let rule = OptionalThen(Mark(","), Mark(","), TokenClass::Name);
        let (parts, rest) = rule.read(alloc, tokens, end)?;
        let (comma, name) = parts;
        Ok((BracketedName { comma, name }, rest))
    }
}

/// name { [","] name }
#[derive(Clone, Copy)]
pub struct BracketedNamesRule;

impl Rule for BracketedNamesRule {
    type Tree = List<BracketedName>;

    ghost grammar = { λ s. grammar.bracketed_names_rule };

    fn read<'t>(
        &self,
        alloc: Global,
        tokens: &'t [Token],
        end: Place,
    ) -> Parsed<'t, List<BracketedName>> {
        let (name, rest) = token(alloc, tokens, end, TokenClass::Name)?;
        let mut found = List::new(alloc);
        found.push(BracketedName { comma: None, name })?;
        let begins = TokenClass::BracketedName;
        further_of(alloc, &begins, &BracketedNameRule, found, rest, end)
    }
}

/// "[" name { [","] name } "]"
#[derive(Clone, Copy)]
pub struct BracketedRule;

impl Rule for BracketedRule {
    type Tree = Bracketed;

    ghost grammar = { λ s. grammar.bracketed_rule };

    fn read<'t>(&self, alloc: Global, tokens: &'t [Token], end: Place) -> Parsed<'t, Bracketed> {
        let rule = Then(Mark("["), Then(BracketedNamesRule, Mark("]")));
        let (parts, rest) = rule.read(alloc, tokens, end)?;
        let (opening, (names, closing)) = parts;
        let bracketed = Bracketed {
            opening,
            names,
            closing,
        };
        Ok((bracketed, rest))
    }
}

// ---- hashes, iterators and instances

/// "," text
#[derive(Clone, Copy)]
pub struct HashTableRule;

impl Rule for HashTableRule {
    type Tree = HashTable;

    ghost grammar = { λ s m. grammar.hash_table_rule };

    fn read<'t>(&self, alloc: Global, tokens: &'t [Token], end: Place) -> Parsed<'t, HashTable> {
        let rule = Then(Mark(","), TokenClass::TableText);
        let (parts, rest) = rule.read(alloc, tokens, end)?;
        let (comma, text) = parts;
        Ok((HashTable { comma, text }, rest))
    }
}

/// "," integer [ "," text ]
#[derive(Clone, Copy)]
pub struct HashSizeRule;

impl Rule for HashSizeRule {
    type Tree = HashSize;

    ghost grammar = { λ s m. grammar.hash_size_rule };

    fn read<'t>(&self, alloc: Global, tokens: &'t [Token], end: Place) -> Parsed<'t, HashSize> {
        let table = ThenOptional(TokenClass::Integer, Mark(","), HashTableRule);
        let rule = Then(Mark(","), table);
        let (parts, rest) = rule.read(alloc, tokens, end)?;
        let (comma, (number, table)) = parts;
        let size = HashSize {
            comma,
            number,
            table,
        };
        Ok((size, rest))
    }
}

// Behind `package`: "hash" name "(" vars "," vars [ "," integer [ "," text ] ] ")" ";"
fn hash(
    alloc: Global,
    keyword: Token,
    package_keyword: Token,
    tokens: &[Token],
    end: Place,
) -> Parsed<'_, Declaration>
    ensures exact { (m : ℕ) → length tokens.now < m → Gives end (λ x. (x.0, x.1.now)) result (to (λ x. grammar.package_declaration keyword package_keyword (One x)) (grammar.hash_rule m) tokens.now) }
    ensures shorter { IfOk result (λ r. length r.1.now < length tokens.now) }
{
    let size = OptionalThen(Mark(","), HashSizeRule, Then(Mark(")"), Mark(";")));
    let variables = Then(BracketedRule, Then(Mark(","), Then(BracketedRule, size)));
    let rule = Then(
        Word("hash"),
        Then(TokenClass::Name, Then(Mark("("), variables)),
    );
    let (parts, rest) = rule.read(alloc, tokens, end)?;
    let (hash_keyword, (name, (opening, behind))) = parts;
    let (key_variables, (comma, (data_variables, (size, (closing, semicolon))))) = behind;
    let declaration = Declaration::Hash {
        keyword,
        package_keyword,
        hash_keyword,
        name,
        opening,
        key_variables,
        comma,
        data_variables,
        size,
        closing,
        end: semicolon,
    };
    Ok((declaration, rest))
}

// Behind `package`: "hiter" name "(" text ")" ";"
fn hiter(
    alloc: Global,
    keyword: Token,
    package_keyword: Token,
    tokens: &[Token],
    end: Place,
) -> Parsed<'_, Declaration>
    ensures exact { (m : ℕ) → length tokens.now < m → Gives end (λ x. (x.0, x.1.now)) result (to (λ x. grammar.package_declaration keyword package_keyword (Two (One x))) grammar.hiter_rule tokens.now) }
    ensures shorter { IfOk result (λ r. length r.1.now < length tokens.now) }
{
    let hash = Then(
        Mark("("),
        Then(TokenClass::Text, Then(Mark(")"), Mark(";"))),
    );
    let rule = Then(Word("hiter"), Then(TokenClass::Name, hash));
    let (parts, rest) = rule.read(alloc, tokens, end)?;
    let (hiter_keyword, (name, (opening, (hash, (closing, semicolon))))) = parts;
    let declaration = Declaration::Hiter {
        keyword,
        package_keyword,
        hiter_keyword,
        name,
        opening,
        hash,
        closing,
        end: semicolon,
    };
    Ok((declaration, rest))
}

// Behind `package`: pname name [ "(" [ const { "," const } ] ")" ] ";"
fn instance(
    alloc: Global,
    keyword: Token,
    package_keyword: Token,
    tokens: &[Token],
    end: Place,
) -> Parsed<'_, Declaration>
    ensures exact { (m : ℕ) → length tokens.now < m → Gives end (λ x. (x.0, x.1.now)) result (to (λ x. grammar.package_declaration keyword package_keyword (Two (Two x))) (grammar.instance_rule m) tokens.now) }
    ensures shorter { IfOk result (λ r. length r.1.now < length tokens.now) }
{
    let arguments = OptionalThen(Mark("("), ConstantsRule, Mark(";"));
    let rule = Then(TokenClass::PackageName, Then(TokenClass::Name, arguments));
    let (parts, rest) = rule.read(alloc, tokens, end)?;
    let (package, (name, (arguments, semicolon))) = parts;
    let declaration = Declaration::Instance {
        keyword,
        package_keyword,
        package,
        name,
        arguments,
        end: semicolon,
    };
    Ok((declaration, rest))
}

// What stands behind `package`, by its word.
fn behind_package(
    alloc: Global,
    keyword: Token,
    package_keyword: Token,
    tokens: &[Token],
    end: Place,
) -> Parsed<'_, Declaration>
    ensures exact { (m : ℕ) → length tokens.now < m → Gives end (λ x. (x.0, x.1.now)) result (to (λ x. grammar.package_declaration keyword package_keyword x) (grammar.package_tail m) tokens.now) }
    ensures shorter { IfOk result (λ r. length r.1.now < length tokens.now) }
{
    if starts_with(tokens, "hash") {
        return hash(alloc, keyword, package_keyword, tokens, end);
    }
    if starts_with(tokens, "hiter") {
        return hiter(alloc, keyword, package_keyword, tokens, end);
    }
    instance(alloc, keyword, package_keyword, tokens, end)
}

// Behind `dcl`: "package" and what is declared of it
fn of_package(
    alloc: Global,
    keyword: Token,
    tokens: &[Token],
    end: Place,
) -> Parsed<'_, Declaration>
    ensures exact { (m : ℕ) → length tokens.now < m → Gives end (λ x. (x.0, x.1.now)) result (to (λ x. grammar.declaration_of (keyword, One x)) (seq (word_rule (codes "package")) (grammar.package_tail m)) tokens.now) }
    ensures shorter { IfOk result (λ r. length r.1.now < length tokens.now) }
{
    let (package_keyword, rest) = word(alloc, tokens, end, "package")?;
    behind_package(alloc, keyword, package_keyword, rest, end)
}

// Behind `dcl`: "thread" name name ";"
fn of_thread(alloc: Global, keyword: Token, tokens: &[Token], end: Place) -> Parsed<'_, Declaration>
    ensures exact { (m : ℕ) → length tokens.now < m → Gives end (λ x. (x.0, x.1.now)) result (to (λ x. grammar.declaration_of (keyword, Two (One x))) grammar.thread_instance_rule tokens.now) }
    ensures shorter { IfOk result (λ r. length r.1.now < length tokens.now) }
{
    let names = Then(TokenClass::Name, Then(TokenClass::Name, Mark(";")));
    let (parts, rest) = Then(Word("thread"), names).read(alloc, tokens, end)?;
    let (thread_keyword, (thread, (name, semicolon))) = parts;
    let declaration = Declaration::Thread {
        keyword,
        thread_keyword,
        thread,
        name,
        end: semicolon,
    };
    Ok((declaration, rest))
}

// Behind `dcl`: type name { name } ";"
fn of_variables(
    alloc: Global,
    keyword: Token,
    tokens: &[Token],
    end: Place,
) -> Parsed<'_, Declaration>
    ensures exact { (m : ℕ) → length tokens.now < m → Gives end (λ x. (x.0, x.1.now)) result (to (λ x. grammar.declaration_of (keyword, Two (Two x))) (grammar.variables_tail m) tokens.now) }
    ensures shorter { IfOk result (λ r. length r.1.now < length tokens.now) }
{
    let (variables, rest) = declared_variables(alloc, keyword, tokens, end)?;
    Ok((Declaration::Variables(variables), rest))
}

// What stands behind `dcl`, by its word.
fn behind_dcl(
    alloc: Global,
    keyword: Token,
    tokens: &[Token],
    end: Place,
) -> Parsed<'_, Declaration>
    ensures exact { (m : ℕ) → length tokens.now < m → Gives end (λ x. (x.0, x.1.now)) result (to (λ x. grammar.declaration_of (keyword, x)) (grammar.declaration_tail m) tokens.now) }
    ensures shorter { IfOk result (λ r. length r.1.now < length tokens.now) }
{
    if starts_with(tokens, "package") {
        return of_package(alloc, keyword, tokens, end);
    }
    if starts_with(tokens, "thread") {
        return of_thread(alloc, keyword, tokens, end);
    }
    of_variables(alloc, keyword, tokens, end)
}

/// A declaration.
pub fn declaration(alloc: Global, tokens: &[Token], end: Place) -> Parsed<'_, Declaration>
    ensures exact { (m : ℕ) → length tokens.now < m → Gives end (λ x. (x.0, x.1.now)) result (grammar.declaration_rule m tokens.now) }
    ensures shorter { IfOk result (λ r. length r.1.now < length tokens.now) }
{
    let (keyword, rest) = token(alloc, tokens, end, TokenClass::Declare)?;
    behind_dcl(alloc, keyword, rest, end)
}
