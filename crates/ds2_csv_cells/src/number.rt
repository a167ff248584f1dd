//! Integers.
ghost use Rattle.std.specs.Prelude.{◌≡◌, ◌≤◌, ◌^◌, ◌+◌, ◌*◌, length, IfSome};
ghost use Rattle.ds2_csv_cells.specs.Short.{number_behind};
ghost use Rattle.ds2_csv_cells.specs.Number.{begins_well, size_of, below_zero, not_below_zero, integer_of};

/// The greatest number behind which any digit may stand, so that the whole is at most 2^63 + 1.
const MOST: u64 = 922_337_203_685_477_580;

pub(crate) fn begins_well(digits: &[u8]) -> bool
    ensures { result ≡ begins_well digits.now }
{
    !digits.is_empty() && !(digits.len() > 1 && digits[0] == b'0')
}

/// The number that digits spell behind those of `n`, with at most 18 digits in all; None where a byte is no digit.
pub(crate) fn number_behind(n: u64, digits: &[u8]) -> Option<u64>
    requires { (n + 1) * 10 ^ length digits.now ≤ 10 ^ 18 }
    ensures value { result ≡ number_behind n digits.now }
    ensures room { IfSome result (λ m. m + 1 ≤ (n + 1) * 10 ^ length digits.now) }
{
    let mut number = n;
    let mut rest = digits;
    while let [c, after @ ..] = rest {
        if !c.is_ascii_digit() {
            return None;
        }
        number = number * 10 + (*c - b'0') as u64;
        rest = after;
    }
    Some(number)
}

/// The size of an integer that is spelled by `digits`, which have no 0 too many in front; none above 2^63.
fn size(digits: &[u8]) -> Option<u64>
    ensures size { result ≡ size_of digits.now }
    ensures within { IfSome result (λ n. n ≤ 2 ^ 63) }
{
    if !begins_well(digits) {
        return None;
    }
    if digits.len() <= 18 {
        return number_behind(0, digits);
    }
    let mut n = 0u64;
    let mut rest = digits;
    while let [c, after @ ..] = rest {
        if !c.is_ascii_digit() || n > MOST {
            return None;
        }
        n = n * 10 + (*c - b'0') as u64;
        rest = after;
    }
    if n <= 1 << 63 { Some(n) } else { None }
}

fn below_zero(size: u64) -> Option<i64>
    requires { size ≤ 2 ^ 63 }
    ensures { result ≡ below_zero size }
{
    if size == 0 {
        None
    } else {
        Some(-((size - 1) as i64) - 1)
    }
}

fn not_below_zero(size: u64) -> Option<i64>
    ensures { result ≡ not_below_zero size }
{
    if size < 1 << 63 {
        Some(size as i64)
    } else {
        None
    }
}

/// The integer that a cell spells.
#[tactic(auto, unfolding(crate::specs::Number::integer_of))]
pub fn integer(cell: &[u8]) -> Option<i64>
    ensures { result ≡ integer_of cell.now }
{
    match cell {
        [] => None,
        [b'-', digits @ ..] => match size(digits) {
            Some(n) => below_zero(n),
            None => None,
        },
        _ => match size(cell) {
            Some(n) => not_below_zero(n),
            None => None,
        },
    }
}
