//! Decimals from text.
ghost use Rattle.std.specs.Prelude.{◌≡◌, ◌^◌, ◌<◌, ◌++◌, length, IfSome};
ghost use Rattle.std.specs.List.{position};
ghost use Rattle.ds2_decimal.specs.Steps.{digits_behind};
ghost use Rattle.ds2_decimal.specs.Text as spec;

use crate::dec::Dec;

/// 10 ^ 37, the first number behind which no digit fits 38 digits.
const LAST: u128 = 10_000_000_000_000_000_000_000_000_000_000_000_000;

/// The decimal that a text without sign writes.
pub(crate) fn read_unsigned(text: &[u8]) -> Option<Dec>
    ensures { result ≡ spec.read_unsigned text.now }
{
    match find_point(text) {
        Some(point) => of_parts(&text[..point], &text[point + 1..]),
        None => of_digits(text, &[]),
    }
}

/// Where the first point stands.
fn find_point(text: &[u8]) -> Option<usize>
    ensures value { result ≡ position spec.is_point text.now }
    ensures bound { IfSome result (λ point. point < length text.now) }
{
    text.iter().position(|byte| *byte == b'.')
}

/// The decimal with these digits before the point and these, at least one, behind it.
fn of_parts(whole: &[u8], fraction: &[u8]) -> Option<Dec>
    ensures { result ≡ spec.of_parts whole.now fraction.now }
{
    if fraction.is_empty() {
        None
    } else {
        of_digits(whole, fraction)
    }
}

/// The decimal with these digits before the point and these behind it.
fn of_digits(whole: &[u8], fraction: &[u8]) -> Option<Dec>
    ensures { result ≡ spec.of_digits whole.now fraction.now }
{
    if !is_whole(whole) || fraction.len() > 38 {
        return None;
    }
    match number(whole, fraction) {
        Some(units) => Dec::new(units as i128, fraction.len() as u8),
        None => None,
    }
}

/// The number that both texts together write, or `None` where there is a byte that is no digit or that has more than 38
/// digits.
fn number(whole: &[u8], fraction: &[u8]) -> Option<u128>
    ensures value { result ≡ digits_behind 0 (whole.now ++ fraction.now) }
    ensures digits { IfSome result (λ units. units < 10 ^ 38) }
{
    match more_digits(0, whole) {
        Some(units) => more_digits(units, fraction),
        None => None,
    }
}

/// `0`, or digits of which the first is not 0.
fn is_whole(text: &[u8]) -> bool
    ensures { result ≡ spec.is_whole text.now }
{
    match text {
        [] => false,
        [digit] => digit.is_ascii_digit(),
        [digit, ..] => *digit != b'0' && are_digits(text),
    }
}

/// Every byte is a digit.
fn are_digits(text: &[u8]) -> bool
    ensures { result ≡ spec.are_digits text.now }
{
    text.iter().all(|byte| byte.is_ascii_digit())
}

/// The number that digits write behind those of `number`, or `None` where there is another byte or that has more than 38
/// digits.
fn more_digits(number: u128, digits: &[u8]) -> Option<u128>
    requires { number < 10 ^ 38 }
    ensures value { result ≡ digits_behind number digits.now }
    ensures digits { IfSome result (λ units. units < 10 ^ 38) }
{
    let mut value = number;
    for digit in digits {
        if !digit.is_ascii_digit() {
            return None;
        }
        if value >= LAST {
            return None;
        }
        value = value * 10 + (*digit - b'0') as u128;
    }
    Some(value)
}
