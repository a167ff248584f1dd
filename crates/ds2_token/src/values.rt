//! The values that tokens stand for.
ghost use Rattle.std.specs.Prelude.{◌≡◌, ◌^◌, ◌≤◌, ◌+◌, ◌-◌, ◌*◌, length, IfOk, IsTrue};
ghost use Rattle.std.specs.Char.{is_ascii_digit};
ghost use Rattle.std.specs.List.{filter, prefix_len};
ghost use Rattle.ds2_base.specs.Says.{Says};
ghost use Rattle.ds2_token.specs.Forms as forms;
ghost use Rattle.ds2_token.specs.Limits as limits;
ghost use Rattle.ds2_token.specs.Values as values;

use crate::words::between_quotes;
use crate::{Token, TokenKind};
use ds2_base::{BadName, Bytes, List, Name, OutOfMemory, Stop, Text};
use ds2_decimal::Dec;
use std::alloc::Global;

/// The characters with one quote for each pair of quotes.
pub fn undoubled(alloc: Global, quoted: &[u8]) -> Result<Bytes, OutOfMemory>
    ensures { IfOk result (λ bytes. bytes ≡ limits.undoubled quoted.now) }
{
    let mut text = List::new(alloc);
    text.reserve(quoted.len())?;
    let mut rest = quoted;
    while let [c, after @ ..] = rest {
        text.push(*c)?;
        rest = past_quote(*c, after);
    }
    Ok(text)
}

/// What follows a character: behind a quote, the other quote of its pair is passed.
fn past_quote(c: u8, after: &[u8]) -> &[u8]
    ensures value { result.now ≡ values.past_quote c after.now }
    ensures size { length result.now ≤ length after.now }
{
    match after {
        [_, left @ ..] if c == b'\'' => left,
        _ => after,
    }
}

/// The number that all digits of a spelling write; None where it is 2 ^ 128 or more.
pub fn units(spelling: &[u8]) -> Option<u128>
    ensures { result ≡ values.below (2 ^ 128) (limits.units_of spelling.now) }
{
    let mut value: u128 = 0;
    let mut rest = spelling;
    while let [c, after @ ..] = rest {
        if c.is_ascii_digit() {
            value = with_digit(value, *c)?;
        }
        rest = after;
    }
    Some(value)
}

/// The number with one more digit behind it.
fn with_digit(value: u128, c: u8) -> Option<u128>
    requires { IsTrue (is_ascii_digit c) }
    ensures { result ≡ values.below (2 ^ 128) (value * 10 + (c - 48)) }
{
    value.checked_mul(10)?.checked_add(u128::from(c - b'0'))
}

/// How many digits stand at the front.
fn leading_count(spelling: &[u8]) -> usize
    ensures count { result ≡ prefix_len is_ascii_digit spelling.now }
    ensures within { result ≤ length spelling.now }
{
    let mut count = 0;
    let mut rest = spelling;
    while let [c, after @ ..] = rest {
        if !c.is_ascii_digit() {
            break;
        }
        count += 1;
        rest = after;
    }
    count
}

/// What stands behind the digits at the front.
fn past_digits(spelling: &[u8]) -> &[u8]
    ensures { result.now ≡ forms.past_digits spelling.now }
{
    spelling.split_at(leading_count(spelling)).1
}

/// The number of digits.
fn digit_count(spelling: &[u8]) -> usize
    ensures { result ≡ length (filter is_ascii_digit spelling.now) }
{
    let mut count = 0;
    let mut rest = spelling;
    while let [c, after @ ..] = rest {
        if c.is_ascii_digit() {
            count += 1;
        }
        rest = after;
    }
    count
}

/// How many digits stand behind the point of a number.
pub fn scale(spelling: &[u8]) -> usize
    ensures { result ≡ limits.scale_of spelling.now }
{
    digit_count(past_digits(spelling))
}

impl Token {
    /// The letters of the token's name.
    fn name_letters(&self) -> &[u8]
        ensures { result.now ≡ values.name_letters self.now }
    {
        match self.kind {
            TokenKind::Quoted => between_quotes(self.spelling.as_bytes()),
            _ => self.spelling.as_bytes(),
        }
    }

    /// The name that a word or a quoted token stands for, its ASCII letters in lower case. Refuses exactly what is no name
    /// ([`BadName`]), which no name among the tokens of a text is.
    #[tactic(auto, using(crate::proofs::ValueLemmas::name_of_text, crate::proofs::ValueLemmas::name_of_no_text))]
    pub fn name(&self, alloc: Global) -> Result<Name, Stop<BadName>>
        ensures { Says result (values.token_name self.now) }
    {
        match std::str::from_utf8(self.name_letters()) {
            Ok(letters) => Name::new(alloc, letters),
            Err(_) => Err(Stop::Refused(BadName)),
        }
    }

    /// The text that a text constant stands for, in which two quotes are one. None where the characters of the token, without
    /// the first and the last byte, are no text, as they are in every text constant.
    pub fn text(&self, alloc: Global) -> Result<Option<Text>, OutOfMemory>
        ensures { IfOk result (λ text. text ≡ values.token_text self.now) }
    {
        Text::from_bytes(
            alloc,
            undoubled(alloc, between_quotes(self.spelling.as_bytes()))?,
        )
    }

    /// The number that the digits of an integer write; None above 9223372036854775807.
    pub fn integer(&self) -> Option<i64>
        ensures { result ≡ values.token_integer self.now }
    {
        i64::try_from(units(self.spelling.as_bytes())?).ok()
    }

    /// The number that a decimal writes; its scale is the number of digits behind the point. None where it has more than 38
    /// digits, leading zeros not counted, or more than 38 behind the point.
    pub fn decimal(&self) -> Option<Dec>
        ensures { result ≡ values.token_decimal self.now }
    {
        let spelling = self.spelling.as_bytes();
        let units = i128::try_from(units(spelling)?).ok()?;
        let scale = u8::try_from(scale(spelling)).ok()?;
        Dec::new(units, scale)
    }
}
