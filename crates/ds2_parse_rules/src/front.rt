//! The tokens at the front, one of which is looked at.
ghost use Rattle.std.specs.Prelude.{◌≡◌, ◌∷◌, ◌<◌, suc, codes, [], MatchOption, IfSome, IfOk, IfErr, true, false, length};
ghost use Rattle.ds2_tree.specs.Parsers.{first, when, kept, Read, Unexpected, TooDeep};
ghost use Rattle.ds2_tree.specs.Promise.{place_of, Gives, Fails};
ghost use Rattle.ds2_token.specs.Words as words;
ghost use Rattle.ds2_tree.specs.Expressions as tests;
ghost use Rattle.ds2_tree.specs.Statements as statement_tests;
ghost use Rattle.ds2_parse_rules.specs.GrammarTokens as grammar;
ghost use Rattle.ds2_parse_rules.specs.GrammarTokens.{Fronted};
ghost use Rattle.ds2_parse_rules.specs.ExpressionGrammar as expressions;
ghost use Rattle.ds2_parse_rules.specs.StatementGrammar as statement_grammar;

use ds2_base::{Place, Refusal, Stop};
use ds2_token::Token;
use ds2_tree::{ChainKind, ParseKind};
use std::alloc::Global;

/// Why nothing was read.
pub type Refused = Stop<Refusal<ParseKind>>;

/// What was read, and the tokens behind it.
pub type Parsed<'t, T> = Result<(T, &'t [Token]), Refused>;

/// A token, and the tokens behind it.
pub type Taken<'t> = Option<(&'t Token, &'t [Token])>;

// ---- refusals

// The place of the first token, or the end of the text.
fn first_place(tokens: &[Token], end: Place) -> Place
    ensures { result ≡ place_of end tokens.now }
{
    match tokens {
        [token, ..] => token.place,
        [] => end,
    }
}

// Nothing goes on with the first token.
pub fn unexpected(tokens: &[Token], end: Place) -> Refused
    ensures { Fails {A = Unit {0}} end result (Unexpected tokens.now) }
{
    Stop::Refused(Refusal {
        kind: ParseKind::Unexpected,
        place: first_place(tokens, end),
    })
}

// The first token opens a level too many.
pub fn too_deep(tokens: &[Token], end: Place) -> Refused
    ensures { Fails {A = Unit {0}} end result (TooDeep tokens.now) }
{
    Stop::Refused(Refusal {
        kind: ParseKind::TooDeep,
        place: first_place(tokens, end),
    })
}

/// The levels that are left within the one that the first token opens.
pub fn deeper(tokens: &[Token], end: Place, levels: u64) -> Result<u64, Refused>
    ensures ok { IfOk result (λ inner. levels ≡ suc inner) }
    ensures err { IfErr result (λ e. (levels ≡ 0) × Fails {A = Unit {0}} end e (TooDeep tokens.now)) }
{
    if levels == 0 {
        return Err(too_deep(tokens, end));
    }
    Ok(levels - 1)
}

// ---- tests on one token

fn is_constant(token: &Token) -> bool
    ensures { result ≡ tests.is_constant token.now }
{
    token.is_integer() || token.is_decimal() || token.is_text()
}

fn is_sign(token: &Token) -> bool
    ensures { result ≡ tests.is_sign token.now }
{
    token.is_mark("-") || token.is_mark("+")
}

fn is_not(token: &Token) -> bool
    ensures { result ≡ tests.is_not token.now }
{
    token.is_word("not") || token.is_mark("^") || token.is_mark("~")
}

fn is_comparison_word(token: &Token) -> bool
    ensures { result ≡ words.is_one_of (codes "eq" ∷ codes "ne" ∷ codes "lt" ∷ codes "le" ∷ codes "gt" ∷ codes "ge" ∷ []) [] token.now }
{
    token.is_word("eq")
        || token.is_word("ne")
        || token.is_word("lt")
        || token.is_word("le")
        || token.is_word("gt")
        || token.is_word("ge")
}

fn is_comparison_mark(token: &Token) -> bool
    ensures { result ≡ words.is_one_of [] (codes "=" ∷ codes "^=" ∷ codes "~=" ∷ codes "<" ∷ codes "<=" ∷ codes ">" ∷ codes ">=" ∷ []) token.now }
{
    token.is_mark("=")
        || token.is_mark("^=")
        || token.is_mark("~=")
        || token.is_mark("<")
        || token.is_mark("<=")
        || token.is_mark(">")
        || token.is_mark(">=")
}

fn is_comparison(token: &Token) -> bool
    ensures { result ≡ tests.is_comparison token.now }
{
    is_comparison_mark(token) || is_comparison_word(token)
}

fn is_operator(token: &Token, kind: ChainKind) -> bool
    ensures { result ≡ tests.is_operator kind token.now }
{
    match kind {
        ChainKind::Or => token.is_word("or") || token.is_mark("|"),
        ChainKind::And => token.is_word("and") || token.is_mark("&"),
        ChainKind::Concatenation => token.is_mark("||"),
        ChainKind::Sum => token.is_mark("+") || token.is_mark("-"),
        ChainKind::Product => token.is_mark("*") || token.is_mark("/"),
    }
}

/// Whether an expression begins with the token.
pub fn is_first_of_expression(token: &Token) -> bool
    ensures { result ≡ expressions.begins_expression token.now }
{
    is_constant(token)
        || token.is_name()
        || token.is_word("null")
        || token.is_mark("(")
        || is_sign(token)
        || is_not(token)
}

// ---- the token at the front, where it passes a test

/// Whether the mark stands at the front.
pub fn at_mark(tokens: &[Token], mark: &str) -> bool
    ensures { result ≡ when (words.is_mark mark.now) (first tokens.now) }
{
    match tokens {
        [token, ..] => token.is_mark(mark),
        [] => false,
    }
}

/// Whether an expression begins with the token at the front.
pub fn begins_expression(tokens: &[Token]) -> bool
    ensures { result ≡ when expressions.begins_expression (first tokens.now) }
{
    match tokens {
        [token, ..] => is_first_of_expression(token),
        [] => false,
    }
}

/// A constant at the front.
pub fn constant_at(tokens: &[Token]) -> Taken<'_>
    ensures { MatchOption result (when tests.is_constant (first tokens.now) ≡ false) (λ r. Fronted tests.is_constant tokens.now r.0.now r.1.now) }
{
    match tokens {
        [] => None,
        [token, rest @ ..] => match is_constant(token) {
            true => Some((token, rest)),
            false => None,
        },
    }
}

/// The word `null` at the front.
pub fn null_at(tokens: &[Token]) -> Taken<'_>
    ensures { MatchOption result (when tests.is_null_word (first tokens.now) ≡ false) (λ r. Fronted tests.is_null_word tokens.now r.0.now r.1.now) }
{
    match tokens {
        [] => None,
        [token, rest @ ..] => match token.is_word("null") {
            true => Some((token, rest)),
            false => None,
        },
    }
}

/// A name at the front.
pub fn name_at(tokens: &[Token]) -> Taken<'_>
    ensures { MatchOption result (when words.is_name_token (first tokens.now) ≡ false) (λ r. Fronted words.is_name_token tokens.now r.0.now r.1.now) }
{
    match tokens {
        [] => None,
        [token, rest @ ..] => match token.is_name() {
            true => Some((token, rest)),
            false => None,
        },
    }
}

/// A sign at the front.
pub fn sign_at(tokens: &[Token]) -> Taken<'_>
    ensures { MatchOption result (when tests.is_sign (first tokens.now) ≡ false) (λ r. Fronted tests.is_sign tokens.now r.0.now r.1.now) }
{
    match tokens {
        [] => None,
        [token, rest @ ..] => match is_sign(token) {
            true => Some((token, rest)),
            false => None,
        },
    }
}

/// A negation at the front.
pub fn not_at(tokens: &[Token]) -> Taken<'_>
    ensures { MatchOption result (when tests.is_not (first tokens.now) ≡ false) (λ r. Fronted tests.is_not tokens.now r.0.now r.1.now) }
{
    match tokens {
        [] => None,
        [token, rest @ ..] => match is_not(token) {
            true => Some((token, rest)),
            false => None,
        },
    }
}

/// The operator of a comparison at the front.
pub fn comparison_at(tokens: &[Token]) -> Taken<'_>
    ensures { MatchOption result (when tests.is_comparison (first tokens.now) ≡ false) (λ r. Fronted tests.is_comparison tokens.now r.0.now r.1.now) }
{
    match tokens {
        [] => None,
        [token, rest @ ..] => match is_comparison(token) {
            true => Some((token, rest)),
            false => None,
        },
    }
}

/// An operator of a chain of this kind at the front.
pub fn operator_at(tokens: &[Token], kind: ChainKind) -> Taken<'_>
    ensures { MatchOption result (when (tests.is_operator kind) (first tokens.now) ≡ false) (λ r. Fronted (tests.is_operator kind) tokens.now r.0.now r.1.now) }
{
    match tokens {
        [] => None,
        [token, rest @ ..] => match is_operator(token, kind) {
            true => Some((token, rest)),
            false => None,
        },
    }
}

/// Whether an operator of a chain of this kind stands at the front.
pub fn at_operator(tokens: &[Token], kind: ChainKind) -> bool
    ensures { result ≡ when (tests.is_operator kind) (first tokens.now) }
{
    match tokens {
        [token, ..] => is_operator(token, kind),
        [] => false,
    }
}

/// The place of a mark at the front.
#[tactic(auto, using(crate::proofs::FrontSteps::mark_read))]
pub fn mark_at<'t>(tokens: &'t [Token], mark: &str) -> Option<(Place, &'t [Token])>
    ensures test { MatchOption result (when (words.is_mark mark.now) (first tokens.now) ≡ false) (λ r. when (words.is_mark mark.now) (first tokens.now) ≡ true) }
    ensures exact { IfSome result (λ r. grammar.mark_rule mark.now tokens.now ≡ Read r.0 r.1.now) }
    ensures shorter { IfSome result (λ r. length r.1.now < length tokens.now) }
{
    match tokens {
        [] => None,
        [token, rest @ ..] => match token.is_mark(mark) {
            true => Some((token.place, rest)),
            false => None,
        },
    }
}

// ---- tokens that have to stand there

/// The place of a mark.
pub fn mark<'t>(tokens: &'t [Token], end: Place, mark: &str) -> Parsed<'t, Place>
    ensures exact { Gives end (λ x. (x.0, x.1.now)) result (grammar.mark_rule mark.now tokens.now) }
    ensures shorter { IfOk result (λ r. length r.1.now < length tokens.now) }
{
    match mark_at(tokens, mark) {
        Some(found) => Ok(found),
        None => Err(unexpected(tokens, end)),
    }
}

/// Any word, reserved or not.
pub fn any_word(alloc: Global, tokens: &[Token], end: Place) -> Parsed<'_, Token>
    ensures exact { Gives end (λ x. (x.0, x.1.now)) result (kept words.is_any_word tokens.now) }
    ensures shorter { IfOk result (λ r. length r.1.now < length tokens.now) }
{
    match tokens {
        [] => Err(unexpected(tokens, end)),
        [token, rest @ ..] => match token.is_any_word() {
            true => Ok((token.copy(alloc)?, rest)),
            false => Err(unexpected(tokens, end)),
        },
    }
}

/// Whether the word stands at the front.
pub fn at_word(tokens: &[Token], spelling: &str) -> bool
    ensures { result ≡ when (words.is_word spelling.now) (first tokens.now) }
{
    match tokens {
        [token, ..] => token.is_word(spelling),
        [] => false,
    }
}

/// A text constant at the front.
pub fn text_at(tokens: &[Token]) -> Taken<'_>
    ensures { MatchOption result (when words.is_text (first tokens.now) ≡ false) (λ r. Fronted words.is_text tokens.now r.0.now r.1.now) }
{
    match tokens {
        [] => None,
        [token, rest @ ..] => match token.is_text() {
            true => Some((token, rest)),
            false => None,
        },
    }
}

/// Whether an item of `put` begins with the token.
pub fn is_first_of_item(token: &Token) -> bool
    ensures { result ≡ statement_grammar.begins_item token.now }
{
    token.is_text() || token.is_name()
}

/// The word.
pub fn word<'t>(alloc: Global, tokens: &'t [Token], end: Place, spelling: &str) -> Parsed<'t, Token>
    ensures exact { Gives end (λ x. (x.0, x.1.now)) result (grammar.word_rule spelling.now tokens.now) }
    ensures shorter { IfOk result (λ r. length r.1.now < length tokens.now) }
{
    match tokens {
        [] => Err(unexpected(tokens, end)),
        [token, rest @ ..] => match token.is_word(spelling) {
            true => Ok((token.copy(alloc)?, rest)),
            false => Err(unexpected(tokens, end)),
        },
    }
}

/// A name.
pub fn name(alloc: Global, tokens: &[Token], end: Place) -> Parsed<'_, Token>
    ensures exact { Gives end (λ x. (x.0, x.1.now)) result (kept words.is_name_token tokens.now) }
    ensures shorter { IfOk result (λ r. length r.1.now < length tokens.now) }
{
    match tokens {
        [] => Err(unexpected(tokens, end)),
        [token, rest @ ..] => match token.is_name() {
            true => Ok((token.copy(alloc)?, rest)),
            false => Err(unexpected(tokens, end)),
        },
    }
}

fn is_statement_word(token: &Token) -> bool
    ensures { result ≡ words.is_one_of statement_grammar.statement_words [] token.now }
{
    token.is_word("null")
        || token.is_word("leave")
        || token.is_word("continue")
        || token.is_word("return")
        || token.is_word("output")
        || token.is_word("put")
        || token.is_word("if")
        || token.is_word("select")
        || token.is_word("do")
}

/// Whether a statement begins with the token.
pub fn is_first_of_statement(token: &Token) -> bool
    ensures { result ≡ statement_grammar.begins_statement token.now }
{
    token.is_name() || token.is_mark(";") || is_statement_word(token)
}

/// Whether a statement begins with the token at the front.
pub fn begins_statement(tokens: &[Token]) -> bool
    ensures { result ≡ when statement_grammar.begins_statement (first tokens.now) }
{
    match tokens {
        [token, ..] => is_first_of_statement(token),
        [] => false,
    }
}

fn is_while_or_until(token: &Token) -> bool
    ensures { result ≡ statement_tests.is_while_or_until token.now }
{
    token.is_word("while") || token.is_word("until")
}

/// The word before a tested condition at the front.
pub fn tested_at(tokens: &[Token]) -> Taken<'_>
    ensures { MatchOption result (when statement_tests.is_while_or_until (first tokens.now) ≡ false) (λ r. Fronted statement_tests.is_while_or_until tokens.now r.0.now r.1.now) }
{
    match tokens {
        [] => None,
        [token, rest @ ..] => match is_while_or_until(token) {
            true => Some((token, rest)),
            false => None,
        },
    }
}
