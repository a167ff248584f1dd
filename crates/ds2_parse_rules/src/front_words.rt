//! The token at the front, by what it is to the grammar.
ghost use Rattle.std.specs.Prelude.{◌≡◌, ◌∷◌, ◌<◌, [], IfOk, length};
ghost use Rattle.ds2_tree.specs.Parsers.{first, when, kept};
ghost use Rattle.ds2_tree.specs.Promise.{Gives};
ghost use Rattle.ds2_token.specs.Words.{is_one_of};
ghost use Rattle.ds2_tree.specs.Globals as globals;
ghost use Rattle.ds2_tree.specs.Units as units;
ghost use Rattle.ds2_parse_rules.specs.GrammarTokens.{starts};
ghost use Rattle.ds2_parse_rules.specs.ReadingGrammar as reading_grammar;
ghost use Rattle.ds2_parse_rules.specs.GlobalGrammar as global_grammar;
ghost use Rattle.ds2_parse_rules.specs.UnitGrammar as unit_grammar;
ghost use Rattle.ds2_parse_rules.specs.TokenClasses.{is_in_class};

use crate::front::{
    Parsed, is_first_of_expression, is_first_of_item, is_first_of_statement, unexpected,
};
use ds2_base::Place;
use ds2_token::Token;
use std::alloc::Global;

/// A class of tokens: those that may stand at one place of the grammar.
#[derive(Clone, Copy)]
pub enum TokenClass {
    /// A word, reserved or not.
    AnyWord,
    /// A word that is not reserved.
    Table,
    /// A word that is not reserved, or a quoted token.
    Name,
    /// A name other than `hash` and `hiter`.
    PackageName,
    /// An integer constant.
    Integer,
    /// A text constant.
    Text,
    /// A text constant that spells a table.
    TableText,
    /// An integer or a decimal.
    Number,
    /// A constant without a sign.
    UnsignedConstant,
    /// The word before a declaration.
    Declare,
    /// The word before a list of variables.
    ListKeyword,
    /// The word of a decimal type.
    DecimalKeyword,
    /// The word of a text type.
    TextKeyword,
    /// `keep` or `drop`.
    KeptOrDropped,
    /// `yes` or `no`.
    Answer,
    /// What begins an expression.
    Expression,
    /// What begins an item of `put`.
    PutItem,
    /// What begins a statement.
    Statement,
    /// What begins a variable of `by`.
    ByVariable,
    /// What begins a constant.
    Constant,
    /// What begins a further name between brackets.
    BracketedName,
    /// What begins a parameter.
    Parameter,
    /// What begins a reading statement.
    Reading,
    /// What begins an option of an output table.
    OutputOption,
    /// What begins a part of a unit.
    GlobalItem,
    /// What begins a part of a source.
    SourcePart,
}

// ---- tests on one token

fn is_number(token: &Token) -> bool
    ensures { result ≡ global_grammar.is_number_constant token.now }
{
    token.is_integer() || token.is_decimal()
}

fn is_unsigned_constant(token: &Token) -> bool
    ensures { result ≡ global_grammar.is_unsigned_constant token.now }
{
    token.is_integer() || token.is_decimal() || token.is_text() || token.is_word("null")
}

fn is_declaring(token: &Token) -> bool
    ensures { result ≡ globals.is_dcl token.now }
{
    token.is_word("dcl") || token.is_word("declare")
}

fn is_list_keyword(token: &Token) -> bool
    ensures { result ≡ globals.is_list_keyword token.now }
{
    token.is_word("retain") || token.is_word("keep") || token.is_word("drop")
}

fn is_decimal_keyword(token: &Token) -> bool
    ensures { result ≡ globals.is_decimal_keyword token.now }
{
    token.is_word("decimal") || token.is_word("numeric")
}

fn is_text_keyword(token: &Token) -> bool
    ensures { result ≡ globals.is_text_keyword token.now }
{
    token.is_word("char") || token.is_word("varchar")
}

fn is_kept_or_dropped(token: &Token) -> bool
    ensures { result ≡ units.is_kept_or_dropped token.now }
{
    token.is_word("keep") || token.is_word("drop")
}

fn is_answer(token: &Token) -> bool
    ensures { result ≡ units.is_answer token.now }
{
    token.is_word("yes") || token.is_word("no")
}

fn begins_by_variable(token: &Token) -> bool
    ensures { result ≡ reading_grammar.begins_by_variable token.now }
{
    token.is_name() || token.is_word("descending")
}

fn begins_constant(token: &Token) -> bool
    ensures { result ≡ global_grammar.begins_constant token.now }
{
    token.is_mark("-") || is_unsigned_constant(token)
}

fn begins_bracketed_name(token: &Token) -> bool
    ensures { result ≡ global_grammar.begins_bracketed_name token.now }
{
    token.is_mark(",") || token.is_name()
}

fn begins_type(token: &Token) -> bool
    ensures { result ≡ global_grammar.begins_type token.now }
{
    token.is_word("bigint")
        || token.is_word("decimal")
        || token.is_word("numeric")
        || token.is_word("char")
        || token.is_word("varchar")
}

fn begins_parameter(token: &Token) -> bool
    ensures { result ≡ global_grammar.begins_parameter token.now }
{
    token.is_word("in_out") || begins_type(token)
}

fn begins_reading(token: &Token) -> bool
    ensures { result ≡ reading_grammar.begins_reading token.now }
{
    token.is_word("set") || token.is_word("merge")
}

fn begins_option(token: &Token) -> bool
    ensures { result ≡ unit_grammar.begins_option token.now }
{
    token.is_word("keep")
        || token.is_word("drop")
        || token.is_word("overwrite")
        || token.is_word("rename")
}

fn begins_global(token: &Token) -> bool
    ensures { result ≡ global_grammar.begins_global token.now }
{
    token.is_word("dcl")
        || token.is_word("declare")
        || token.is_word("retain")
        || token.is_word("keep")
        || token.is_word("drop")
        || token.is_word("method")
}

fn begins_part(token: &Token) -> bool
    ensures { result ≡ unit_grammar.begins_part token.now }
{
    token.is_word("proc")
        || token.is_word("run")
        || token.is_word("quit")
        || token.is_word("package")
        || token.is_word("thread")
        || token.is_word("data")
}

fn is_of(token: &Token, class: TokenClass) -> bool
    ensures { result ≡ is_in_class class token.now }
{
    match class {
        TokenClass::AnyWord => token.is_any_word(),
        TokenClass::Table => token.is_table(),
        TokenClass::Name => token.is_name(),
        TokenClass::PackageName => token.is_package_name(),
        TokenClass::Integer => token.is_integer(),
        TokenClass::Text => token.is_text(),
        TokenClass::TableText => token.spells_table(),
        TokenClass::Number => is_number(token),
        TokenClass::UnsignedConstant => is_unsigned_constant(token),
        TokenClass::Declare => is_declaring(token),
        TokenClass::ListKeyword => is_list_keyword(token),
        TokenClass::DecimalKeyword => is_decimal_keyword(token),
        TokenClass::TextKeyword => is_text_keyword(token),
        TokenClass::KeptOrDropped => is_kept_or_dropped(token),
        TokenClass::Answer => is_answer(token),
        TokenClass::Expression => is_first_of_expression(token),
        TokenClass::PutItem => is_first_of_item(token),
        TokenClass::Statement => is_first_of_statement(token),
        TokenClass::ByVariable => begins_by_variable(token),
        TokenClass::Constant => begins_constant(token),
        TokenClass::BracketedName => begins_bracketed_name(token),
        TokenClass::Parameter => begins_parameter(token),
        TokenClass::Reading => begins_reading(token),
        TokenClass::OutputOption => begins_option(token),
        TokenClass::GlobalItem => begins_global(token),
        TokenClass::SourcePart => begins_part(token),
    }
}

// ---- the token at the front

/// Whether a token of the class stands at the front.
pub fn at(tokens: &[Token], class: TokenClass) -> bool
    ensures { result ≡ when (is_in_class class) (first tokens.now) }
{
    match tokens {
        [token, ..] => is_of(token, class),
        [] => false,
    }
}

/// Whether the word, which is in lower case, stands at the front.
pub fn starts_with(tokens: &[Token], word: &str) -> bool
    ensures { result ≡ when (starts word.now) (first tokens.now) }
{
    match tokens {
        [token, ..] => token.is_word(word),
        [] => false,
    }
}

/// Whether the mark stands at the front.
pub fn begins_with(tokens: &[Token], mark: &str) -> bool
    ensures { result ≡ when (is_one_of [] (mark.now ∷ [])) (first tokens.now) }
{
    match tokens {
        [token, ..] => token.is_mark(mark),
        [] => false,
    }
}

/// A token of the class.
pub fn token<'t>(
    alloc: Global,
    tokens: &'t [Token],
    end: Place,
    class: TokenClass,
) -> Parsed<'t, Token>
    ensures exact { Gives end (λ x. (x.0, x.1.now)) result (kept (is_in_class class) tokens.now) }
    ensures shorter { IfOk result (λ r. length r.1.now < length tokens.now) }
{
    match tokens {
        [] => Err(unexpected(tokens, end)),
        [token, rest @ ..] => match is_of(token, class) {
            true => Ok((token.copy(alloc)?, rest)),
            false => Err(unexpected(tokens, end)),
        },
    }
}
