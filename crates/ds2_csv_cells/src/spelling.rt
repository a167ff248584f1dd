//! The spelling of a type.
ghost use Rattle.std.specs.Prelude.{◌≡◌, ◌≤◌, min, option_map, IfSome};
ghost use Rattle.ds2_csv_cells.specs.Spelling.{inside, number_of, decimal_of, char_of, varchar_of, bounded, type_spelled};
ghost use Rattle.ds2_csv_cells.specs.declared.spelling.TheConstants.{TOO_MANY};

use ds2_csv_records::cut;
use ds2_decimal::MOST_DIGITS;
use ds2_value::{TEXT_CHARACTERS, Ty};

// What is too many for each number of a type.
const TOO_MANY: u16 = TEXT_CHARACTERS + 1;

// The number that digits spell, and `TOO_MANY` for every greater one.
fn number(digits: &[u8]) -> Option<u16>
    ensures value { result ≡ option_map (λ n. min n TOO_MANY) (number_of digits.now) }
    ensures bound { IfSome result (λ n. n ≤ TOO_MANY) }
{
    if digits.is_empty() {
        return None;
    }
    let mut n = 0u16;
    let mut rest = digits;
    'digits: while let [c, after @ ..] = rest {
        if !c.is_ascii_digit() {
            return None;
        }
        n = (n * 10 + (*c - b'0') as u16).min(TOO_MANY);
        rest = after;
    }
    Some(n)
}

// What stands between a word and a closing parenthesis.
fn inside<'a>(text: &'a [u8], word: &[u8]) -> Option<&'a [u8]>
    ensures { option_map (λ s. s.now) result ≡ inside word.now text.now }
{
    text.strip_prefix(word)?.strip_suffix(b")")
}

fn decimal(text: &[u8]) -> Option<Option<Ty>>
    ensures { result ≡ option_map bounded (decimal_of text.now) }
{
    let (digits, scale) = cut(text, b',');
    let p = number(digits)?;
    let s = number(scale)?;
    if 1 <= p && p <= MOST_DIGITS as u16 && s <= p {
        Some(Some(Ty::Decimal {
            p: p as u8,
            s: s as u8,
        }))
    } else {
        Some(None)
    }
}

fn char(digits: &[u8]) -> Option<Option<Ty>>
    ensures { result ≡ option_map bounded (char_of digits.now) }
{
    let n = number(digits)?;
    if 1 <= n && n <= TEXT_CHARACTERS {
        Some(Some(Ty::Char { n }))
    } else {
        Some(None)
    }
}

fn varchar(digits: &[u8]) -> Option<Option<Ty>>
    ensures { result ≡ option_map bounded (varchar_of digits.now) }
{
    let n = number(digits)?;
    if 1 <= n && n <= TEXT_CHARACTERS {
        Some(Some(Ty::Varchar { n }))
    } else {
        Some(None)
    }
}

/// The type that a text spells; the inner None where its numbers are outside their range.
#[tactic(auto, unfolding(crate::specs::Spelling::type_spelled))]
pub fn type_spelled(text: &[u8]) -> Option<Option<Ty>>
    ensures { result ≡ option_map bounded (type_spelled text.now) }
{
    if text == b"bigint".as_slice() {
        return Some(Some(Ty::BigInt));
    }
    if let Some(numbers) = inside(text, b"decimal(") {
        return decimal(numbers);
    }
    if let Some(digits) = inside(text, b"char(") {
        return char(digits);
    }
    match inside(text, b"varchar(") {
        Some(digits) => varchar(digits),
        None => None,
    }
}
