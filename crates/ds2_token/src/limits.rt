//! The limits of tokens.
ghost use Rattle.std.specs.Prelude.{◌≡◌, IfOk, IsTrue};
ghost use Rattle.std.specs.Str.{IsUtf8};
ghost use Rattle.ds2_token.specs.Forms.{is_quoted_form, is_text_form};
ghost use Rattle.ds2_token.specs.Limits as limits;
ghost use Rattle.ds2_token.specs.declared.kinds.TokenKind.TheVariants as variant;

use crate::values::{scale, undoubled, units};
use crate::words::between_quotes;
use crate::{LexKind, TokenKind};
use ds2_base::{NAME_CHARACTERS, Name, OutOfMemory, Stop, Text, char_count};
use ds2_decimal::MOST_DIGITS;
use std::alloc::Global;

/// The most characters of the text that a text constant stands for.
pub const CONTENT_CHARACTERS: usize = 1024;

/// The numbers that have at most 38 digits are below this one.
const DECIMAL_LIMIT: u128 = 100_000_000_000_000_000_000_000_000_000_000_000_000;

/// The refusal where a limit is broken.
fn unless(within: bool, refusal: LexKind) -> Option<LexKind>
    ensures { result ≡ limits.unless within refusal }
{
    if within { None } else { Some(refusal) }
}

/// A word.
fn word_fault(spelling: &[u8]) -> Option<LexKind>
    ensures { result ≡ limits.limit_fault variant.Word spelling.now }
{
    unless(spelling.len() <= NAME_CHARACTERS, LexKind::BadName)
}

/// A name between quotes.
#[tactic(auto, using(crate::proofs::LimitLemmas::quoted_text))]
fn quoted_fault(alloc: Global, spelling: &[u8]) -> Result<Option<LexKind>, OutOfMemory>
    requires text { IsUtf8 spelling.now }
    requires form { IsTrue (is_quoted_form spelling.now) }
    ensures { IfOk result (λ fault. fault ≡ limits.limit_fault variant.Quoted spelling.now) }
{
    match std::str::from_utf8(between_quotes(spelling)) {
        Ok(letters) => match Name::new(alloc, letters) {
            Ok(_) => Ok(None),
            Err(Stop::Refused(_)) => Ok(Some(LexKind::BadName)),
            Err(Stop::OutOfMemory) => Err(OutOfMemory),
        },
        Err(_) => Ok(Some(LexKind::BadName)),
    }
}

/// A text constant.
fn text_fault(alloc: Global, spelling: &[u8]) -> Result<Option<LexKind>, OutOfMemory>
    requires text { IsUtf8 spelling.now }
    requires form { IsTrue (is_text_form spelling.now) }
    ensures { IfOk result (λ fault. fault ≡ limits.limit_fault variant.Text spelling.now) }
{
    let quoted = between_quotes(spelling);
    if quoted.len() <= CONTENT_CHARACTERS {
        return Ok(None);
    }
    match Text::from_bytes(alloc, undoubled(alloc, quoted)?)? {
        Some(content) => Ok(unless(
            char_count(content.as_str()) <= CONTENT_CHARACTERS,
            LexKind::TextTooLong,
        )),
        None => Ok(Some(LexKind::TextTooLong)),
    }
}

/// An integer.
fn integer_fault(spelling: &[u8]) -> Option<LexKind>
    ensures { result ≡ limits.limit_fault variant.Integer spelling.now }
{
    match units(spelling) {
        Some(units) => unless(units < 1u128 << 63, LexKind::NumberTooLong),
        None => Some(LexKind::NumberTooLong),
    }
}

/// A decimal.
fn decimal_fault(spelling: &[u8]) -> Option<LexKind>
    ensures { result ≡ limits.limit_fault variant.Decimal spelling.now }
{
    match units(spelling) {
        Some(units) => unless(
            units < DECIMAL_LIMIT && scale(spelling) <= MOST_DIGITS as usize,
            LexKind::NumberTooLong,
        ),
        None => Some(LexKind::NumberTooLong),
    }
}

/// The refusal of a token of this kind, where it breaks a limit.
pub fn limit_fault(
    alloc: Global,
    kind: TokenKind,
    spelling: &[u8],
) -> Result<Option<LexKind>, OutOfMemory>
    requires text { IsUtf8 spelling.now }
    requires quoted { kind ≡ variant.Quoted → IsTrue (is_quoted_form spelling.now) }
    requires text_form { kind ≡ variant.Text → IsTrue (is_text_form spelling.now) }
    ensures { IfOk result (λ fault. fault ≡ limits.limit_fault kind spelling.now) }
{
    match kind {
        TokenKind::Word => Ok(word_fault(spelling)),
        TokenKind::Quoted => quoted_fault(alloc, spelling),
        TokenKind::Text => text_fault(alloc, spelling),
        TokenKind::Integer => Ok(integer_fault(spelling)),
        TokenKind::Decimal => Ok(decimal_fault(spelling)),
        TokenKind::Mark => Ok(None),
    }
}
