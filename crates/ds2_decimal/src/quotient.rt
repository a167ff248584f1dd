//! Long division within 128 bits: a dividend with zeros behind it, by groups of digits.
ghost use Rattle.std.specs.Prelude.{◌≡◌, ◌+◌, ◌*◌, ◌/◌, ◌%◌, ◌^◌, ◌<◌, ◌≤◌, nat_lt, unsigned_abs, if◌then◌else◌};
ghost use Rattle.ds2_decimal.specs.Steps.{quotient, quotient_and_rest, signed_quotient};

use crate::powers::{LIMIT, SHORT, power_of_ten};
use crate::units::{divide_half_up, with_sign};

/// dividend * 10 ^ zeros / divisor, a half away from zero, or `None` where that has more than 38 digits.
pub(crate) fn divide_signed(dividend: i128, zeros: u8, divisor: i128) -> Option<i128>
    requires dividend_digits { unsigned_abs dividend < 10 ^ 38 }
    requires some_divisor { 0 < unsigned_abs divisor }
    requires divisor_digits { unsigned_abs divisor < 10 ^ 38 }
    ensures { result ≡ signed_quotient dividend zeros divisor }
{
    let negative = (dividend < 0) != (divisor < 0);
    match divide_long(dividend.unsigned_abs(), zeros, divisor.unsigned_abs()) {
        Some(magnitude) => Some(with_sign(negative, magnitude)),
        None => None,
    }
}

/// dividend * 10 ^ zeros / divisor, a half upwards, or `None` where that has more than 38 digits.
fn divide_long(dividend: u128, zeros: u8, divisor: u128) -> Option<u128>
    requires dividend_digits { dividend < 10 ^ 38 }
    requires some_divisor { 0 < divisor }
    requires divisor_digits { divisor < 10 ^ 38 }
    ensures { result ≡ quotient dividend zeros divisor }
{
    if zeros <= 38 && dividend < power_of_ten(38 - zeros) {
        return below_limit(divide_half_up(dividend * power_of_ten(zeros), divisor));
    }
    match divide_by_groups(dividend, zeros, divisor) {
        Some((quotient, rest)) if rest >= divisor - rest => below_limit(quotient + 1),
        Some((quotient, _)) => Some(quotient),
        None => None,
    }
}

/// The number, or `None` where it has more than 38 digits.
fn below_limit(magnitude: u128) -> Option<u128>
    ensures { result ≡ (if nat_lt magnitude (10 ^ 38) then Some magnitude else None) }
{
    if magnitude < LIMIT {
        Some(magnitude)
    } else {
        None
    }
}

/// dividend * 10 ^ zeros / divisor downwards, and the rest; `None` where the quotient has more than 38 digits.
fn divide_by_groups(dividend: u128, zeros: u8, divisor: u128) -> Option<(u128, u128)>
    requires dividend_digits { dividend < 10 ^ 38 }
    requires some_divisor { 0 < divisor }
    requires divisor_digits { divisor < 10 ^ 38 }
    ensures { result ≡ quotient_and_rest dividend zeros divisor }
{
    let group = group_digits(divisor);
    let mut quotient = dividend / divisor;
    let mut rest = dividend - quotient * divisor;
    let mut left = zeros;
    while left > 0 {
        let count = left.min(group);
        if quotient >= power_of_ten(38 - count) {
            return None;
        }
        let (digits, next) = divide_group(rest, count, divisor);
        quotient = quotient * power_of_ten(count) + digits;
        rest = next;
        left -= count;
    }
    Some((quotient, rest))
}

/// How many digits of a quotient by this divisor one division gives: for a divisor of at most 10 ^ 19 as many as it leaves
/// room for, else half as many as the divisor has.
fn group_digits(divisor: u128) -> u8
    ensures some { 0 < result }
    ensures bound { result ≤ 19 }
    ensures long_divisor { 10 ^ 19 < divisor → 10 ^ (2 * result) ≤ divisor }
{
    if divisor <= SHORT {
        return 19;
    }
    let mut digits = 9;
    while digits < 18 && power_of_ten(2 * digits + 2) <= divisor {
        digits += 1;
    }
    digits
}

/// The next `count` digits of a quotient, and the rest that they leave: rest * 10 ^ count divided by the divisor.
fn divide_group(rest: u128, count: u8, divisor: u128) -> (u128, u128)
    requires rest { rest < divisor }
    requires divisor_digits { divisor < 10 ^ 38 }
    requires count { count ≤ 19 }
    requires long_divisor { 10 ^ 19 < divisor → 10 ^ (2 * count) ≤ divisor }
    ensures digits { result.0 ≡ rest * 10 ^ count / divisor }
    ensures rest { result.1 ≡ rest * 10 ^ count % divisor }
{
    let base = power_of_ten(count);
    if divisor > SHORT {
        return divide_estimated(rest, base, divisor);
    }
    let raised = rest * base;
    let digits = raised / divisor;
    (digits, raised - digits * divisor)
}

/// rest * base divided by the divisor, and what that leaves, where the product need not fit 128 bits: the quotient by the
/// divisor's high digits plus one is at most one too low.
fn divide_estimated(rest: u128, base: u128, divisor: u128) -> (u128, u128)
    requires rest { rest < divisor }
    requires divisor_digits { divisor < 10 ^ 38 }
    requires base { 0 < base }
    requires square { base * base ≤ divisor }
    ensures quotient { result.0 ≡ rest * base / divisor }
    ensures rest { result.1 ≡ rest * base % divisor }
{
    let high = divisor / base;
    let low = divisor - high * base;
    let estimate = rest / (high + 1);
    let beside = rest - estimate * (high + 1);
    let left = base * (estimate + beside) - estimate * low;
    if left < divisor {
        (estimate, left)
    } else {
        (estimate + 1, left - divisor)
    }
}
