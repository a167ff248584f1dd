//! The heads of keys: a whole number of each row that most comparisons of keys need alone.
ghost use Rattle.std.specs.Prelude.{◌≡◌, [], ◌+◌, ◌-◌, ◌*◌, ◌^◌, ◌<◌, ◌≤◌, pos, ◌+ℤ◌, ◌*ℤ◌, ◌≤ℤ◌};
ghost use Rattle.std.specs.Str.{chars};
ghost use Rattle.ds2_value.specs.Cell.{lent_value};
ghost use Rattle.ds2_value.specs.Texts.{padded_cmp};
ghost use Rattle.ds2_value.specs.declared.value.Value.TheVariants.{Int, Dec as DecimalValue};
ghost use Rattle.ds2_reading.specs.KeyHeads.{first_digit, behind_digit, rest_digit, head_with_digits, tells_all, IsKeyHead};

use ds2_decimal::Dec;
use ds2_value::Cell;
use std::cmp::Ordering;

// The head of null, and the last digit of a head that leaves nothing out.
const NOTHING_LEFT_OUT: u128 = 32;

// The last digit of a head that leaves out what stands behind it.
const MORE_LEFT_OUT: u128 = 33;

// The head of what stands behind all BIGINTs.
const BEHIND_BIGINTS: u128 = 0x80_0000_0000_0000_00a1;

// Brings the least BIGINT above null.
const ABOVE_NULL: i128 = 0x8000_0000_0000_0001;

/// Whether keys with this head are equal in their first part.
pub(crate) fn tells_all(head: u128) -> bool
    ensures { result ≡ tells_all head }
{
    head % 128 == NOTHING_LEFT_OUT
}

// The head of a BIGINT, as a whole number.
fn number_front(i: i64) -> u128
    ensures value { pos result ≡ (i +ℤ pos (2 ^ 63 + 1)) *ℤ pos 128 +ℤ pos 32 }
    ensures low { pos 1 ≤ℤ (i +ℤ pos (2 ^ 63 + 1)) }
    ensures high { (i +ℤ pos (2 ^ 63 + 1)) ≤ℤ pos (2 ^ 64) }
    ensures bound { result < 2 * 128 ^ 13 }
{
    (i as i128 + ABOVE_NULL) as u128 * 128 + NOTHING_LEFT_OUT
}

// The head of a BIGINT.
fn number_head(i: i64) -> u128
    ensures head { IsKeyHead result (Int i) }
    ensures bound { result < 2 * 128 ^ 13 }
{
    number_front(i)
}

// The head of a DECIMAL: that of the whole number below it, where this is a BIGINT.
fn decimal_head(d: Dec) -> u128
    ensures { IsKeyHead result (DecimalValue d) }
{
    let _scale = d.scale();
    let whole = d.floor();
    let units = whole.units();
    if units < i64::MIN as i128 {
        return MORE_LEFT_OUT;
    }
    if units > i64::MAX as i128 {
        return BEHIND_BIGINTS;
    }
    let front = (units + ABOVE_NULL) as u128 * 128;
    if d.compare(whole).is_eq() {
        front + NOTHING_LEFT_OUT
    } else {
        front + MORE_LEFT_OUT
    }
}

// How characters stand to blanks, by their bytes.
fn order_to_blanks(rest: &[u8]) -> Ordering
    ensures { result ≡ padded_cmp rest.now [] }
{
    'characters: for c in rest {
        let order = c.cmp(&b' ');
        if order.is_ne() {
            return order;
        }
    }
    Ordering::Equal
}

// The digit for the bytes that a head leaves out.
fn rest_digit(rest: &[u8]) -> u128
    ensures value { result ≡ rest_digit (padded_cmp rest.now []) }
    ensures bound { result < 128 }
{
    match order_to_blanks(rest) {
        Ordering::Less => 31,
        Ordering::Equal => NOTHING_LEFT_OUT,
        Ordering::Greater => MORE_LEFT_OUT,
    }
}

// The first byte as a digit, a blank where there is none.
fn first_digit(rest: &[u8]) -> u128
    ensures value { result ≡ first_digit rest.now }
    ensures bound { result < 128 }
{
    match rest {
        [] => 32,
        [byte, ..] => (*byte).min(127) as u128,
    }
}

// The bytes behind the first one, where its digit is below 127.
fn behind_digit(rest: &[u8]) -> &[u8]
    ensures { result.now ≡ behind_digit rest.now }
{
    match rest {
        [] => rest,
        [byte, behind @ ..] => { if *byte < 127 { behind } else { rest } }
    }
}

// The head of a text, by its bytes: those of a character that is not in ASCII are above 127 themselves.
fn bytes_head(text: &[u8]) -> u128
    ensures value { result ≡ head_with_digits 12 1 text.now }
    ensures bound { result < 2 * 128 ^ 13 }
{
    let mut head = 1u128;
    let mut rest = text;
    'characters: for i in 0..12usize {
        head = head * 128 + first_digit(rest);
        rest = behind_digit(rest);
    }
    head * 128 + rest_digit(rest)
}

// The head of a text.
fn text_head(text: &str) -> u128
    ensures value { result ≡ head_with_digits 12 1 (chars text.now) }
    ensures bound { result < 2 * 128 ^ 13 }
{
    bytes_head(text.as_bytes())
}

/// The head of a value.
pub(crate) fn key_head(value: &Cell<'_>) -> u128
    ensures head { IsKeyHead result (lent_value value.now) }
    ensures bound { result < 2 * 128 ^ 13 }
{
    match value {
        Cell::Null => NOTHING_LEFT_OUT,
        Cell::Int(i) => number_head(*i),
        Cell::Dec(d) => decimal_head(*d),
        Cell::Txt(t) => text_head(*t),
    }
}
