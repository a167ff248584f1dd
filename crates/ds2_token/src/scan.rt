//! What stands at the front of a text.
ghost use Rattle.std.specs.Prelude.{◌≡◌, ◌+◌, ◌<◌, ◌≤◌, ◌^◌, length, IsTrue, IfSome, slice_get};
ghost use Rattle.std.specs.List.{prefix_len};
ghost use Rattle.ds2_token.specs.Forms.{is_word_letter, is_word_part, begins_with, opens_comment};
ghost use Rattle.ds2_token.specs.Scan as spec;

use crate::{LexKind, TokenKind};

/// A form at the front of a text, and how many bytes it has.
#[derive(Drop)]
pub struct Found {
    /// What the form is, or why it is refused whatever its length.
    pub form: Result<TokenKind, LexKind>,
    pub size: usize,
}

/// A blank, a tab, a carriage return or a line feed.
fn is_blank_byte(c: u8) -> bool
    ensures { result ≡ spec.is_blank_byte c }
{
    c == b' ' || c == b'\t' || c == b'\r' || c == b'\n'
}

/// Whether `*/` stands first.
fn closes_here(text: &[u8]) -> bool
    ensures { result ≡ spec.closes_here text.now }
{
    match text {
        [c, d, ..] => *c == b'*' && *d == b'/',
        _ => false,
    }
}

/// How many bytes stand up to and with the first `*/`; 0 where there is none.
#[tactic(auto, using(crate::proofs::Pieces::comment_end_more))]
fn comment_end(text: &[u8]) -> usize
    ensures value { result ≡ spec.comment_end text.now }
    ensures within { result ≤ length text.now }
{
    let mut passed = 0;
    let mut rest = text;
    while let [_, after @ ..] = rest {
        if closes_here(rest) {
            return passed + 2;
        }
        passed += 1;
        rest = after;
    }
    0
}

/// How many bytes the blank or the comment at the front has; 0 where there is neither.
pub fn piece_size(text: &[u8]) -> usize
    ensures value { result ≡ spec.piece_size text.now }
    ensures within { result ≤ length text.now }
{
    match text {
        [] => 0,
        [c, ..] if is_blank_byte(*c) => 1,
        [b'/', b'*', rest @ ..] => match comment_end(rest) {
            0 => 0,
            n => n + 2,
        },
        _ => 0,
    }
}

/// A letter or `_`.
fn is_word_letter(c: u8) -> bool
    ensures { result ≡ is_word_letter c }
{
    c.is_ascii_alphabetic() || c == b'_'
}

/// A letter, a digit or `_`.
fn is_word_part(c: u8) -> bool
    ensures { result ≡ is_word_part c }
{
    is_word_letter(c) || c.is_ascii_digit()
}

/// Whether this byte stands first.
fn begins_with(c: u8, text: &[u8]) -> bool
    ensures { result ≡ begins_with c text.now }
{
    match text {
        [] => false,
        [d, ..] => *d == c,
    }
}

/// How many bytes at the front belong to a word.
fn word_len(text: &[u8]) -> usize
    ensures value { result ≡ prefix_len is_word_part text.now }
    ensures within { result ≤ length text.now }
{
    let mut count = 0;
    let mut rest = text;
    while let [c, after @ ..] = rest {
        if !is_word_part(*c) {
            break;
        }
        count += 1;
        rest = after;
    }
    count
}

/// How many digits stand at the front.
pub fn digits_len(text: &[u8]) -> usize
    ensures value { result ≡ spec.digits_len text.now }
    ensures within { result ≤ length text.now }
{
    let mut count = 0;
    let mut rest = text;
    while let [c, after @ ..] = rest {
        if !c.is_ascii_digit() {
            break;
        }
        count += 1;
        rest = after;
    }
    count
}

/// How many bytes stand before the first double quote.
fn before_double_quote(text: &[u8]) -> usize
    ensures value { result ≡ spec.before_double_quote text.now }
    ensures within { result ≤ length text.now }
{
    let mut count = 0;
    let mut rest = text;
    while let [c, after @ ..] = rest {
        if *c == b'"' {
            break;
        }
        count += 1;
        rest = after;
    }
    count
}

/// How many bytes stand before the first single quote that is not one of a pair.
fn paired_len(text: &[u8]) -> usize
    ensures value { result ≡ spec.paired_len text.now }
    ensures within { result ≤ length text.now }
{
    let mut count = 0;
    let mut rest = text;
    while let [c, after @ ..] = rest {
        if *c != b'\'' {
            count += 1;
            rest = after;
        } else if let [b'\'', behind @ ..] = after {
            count += 2;
            rest = behind;
        } else {
            break;
        }
    }
    count
}

/// A token of this kind.
fn token(kind: TokenKind, size: usize) -> Found
    ensures { result ≡ spec.token_found kind size }
{
    Found {
        form: Ok(kind),
        size,
    }
}

/// A form that is refused.
fn fault(kind: LexKind, size: usize) -> Found
    ensures { result ≡ spec.fault_found kind size }
{
    Found {
        form: Err(kind),
        size,
    }
}

/// A quoted name, given what stands behind its opening quote.
fn quoted(rest: &[u8]) -> Found
    requires { length rest.now + 1 < 2 ^ 63 }
    ensures { result ≡ spec.quoted_found rest.now }
{
    let size = before_double_quote(rest);
    if size < rest.len() {
        token(TokenKind::Quoted, size + 2)
    } else {
        fault(LexKind::OpenText, rest.len() + 1)
    }
}

/// A text constant, given what stands behind its opening quote.
fn text_constant(rest: &[u8]) -> Found
    requires { length rest.now + 1 < 2 ^ 63 }
    ensures { result ≡ spec.text_found rest.now }
{
    let size = paired_len(rest);
    if size < rest.len() {
        token(TokenKind::Text, size + 2)
    } else {
        fault(LexKind::OpenText, rest.len() + 1)
    }
}

/// Whether the `n` of a decimal stands first.
fn begins_with_n(text: &[u8]) -> bool
    ensures { result ≡ spec.begins_with_n text.now }
{
    begins_with(b'n', text) || begins_with(b'N', text)
}

/// A number of `size` bytes up to its point and the digits behind it, given what follows.
fn pointed(size: usize, rest: &[u8]) -> Found
    requires { size + length rest.now < 2 ^ 63 }
    ensures { result ≡ spec.pointed_found size rest.now }
{
    if begins_with_n(rest) {
        token(TokenKind::Decimal, size + 1)
    } else {
        fault(LexKind::DoubleConstant, size)
    }
}

/// A number of `size` digits, given what follows them.
fn number_after_digits(size: usize, rest: &[u8]) -> Found
    requires { size + length rest.now < 2 ^ 63 }
    ensures { result ≡ spec.number_after_digits size rest.now }
{
    if begins_with_n(rest) {
        return token(TokenKind::Decimal, size + 1);
    }
    match rest {
        [b'.', fraction @ ..] => {
            let digits = digits_len(fraction);
            let (_, behind) = rest.split_at(1 + digits);
            pointed(size + 1 + digits, behind)
        }
        _ => token(TokenKind::Integer, size),
    }
}

/// A number at the front.
fn number(text: &[u8]) -> Found
    requires { length text.now < 2 ^ 63 }
    ensures { result ≡ spec.number_found text.now }
{
    let size = digits_len(text);
    let (_, rest) = text.split_at(size);
    number_after_digits(size, rest)
}

fn is_mark_byte(c: u8) -> bool
    ensures { result ≡ spec.is_mark_byte c }
{
    matches!(
        c,
        b';' | b','
            | b'('
            | b')'
            | b'['
            | b']'
            | b'='
            | b'<'
            | b'>'
            | b'+'
            | b'-'
            | b'*'
            | b'/'
            | b'&'
            | b'|'
            | b'^'
            | b'~'
            | b'.'
    )
}

fn is_mark_pair(c: u8, d: u8) -> bool
    ensures { result ≡ spec.is_mark_pair c d }
{
    if d == b'=' {
        c == b'^' || c == b'~' || c == b'<' || c == b'>'
    } else {
        c == b'|' && d == b'|'
    }
}

/// How many bytes the mark at the front has; 0 where there is none.
fn mark_size(text: &[u8]) -> usize
    ensures { result ≡ spec.mark_size text.now }
{
    match text {
        [] => 0,
        [c, d, ..] if is_mark_pair(*c, *d) => 2,
        [c, ..] if is_mark_byte(*c) => 1,
        _ => 0,
    }
}

fn mark(size: usize) -> Option<Found>
    ensures { result ≡ spec.mark_found size }
{
    if size == 0 {
        None
    } else {
        Some(token(TokenKind::Mark, size))
    }
}

/// Whether `/*` stands first.
fn opens_comment(text: &[u8]) -> bool
    ensures { result ≡ opens_comment text.now }
{
    match text {
        [b'/', b'*', ..] => true,
        _ => false,
    }
}

/// The form at the front of a text that begins with no gap; None where there is none.
#[tactic(auto, unfolding(crate::specs::Scan::found))]
pub fn find_form(text: &[u8]) -> Option<Found>
    requires { length text.now < 2 ^ 63 }
    ensures { result ≡ spec.found text.now }
{
    let [c, rest @ ..] = text else { return None };
    if is_word_letter(*c) {
        Some(token(TokenKind::Word, word_len(text)))
    } else if c.is_ascii_digit() {
        Some(number(text))
    } else if *c == b'"' {
        Some(quoted(rest))
    } else if *c == b'\'' {
        Some(text_constant(rest))
    } else if opens_comment(text) {
        Some(fault(LexKind::OpenComment, text.len()))
    } else {
        mark(mark_size(text))
    }
}
