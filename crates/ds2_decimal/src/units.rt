//! Units as signed numbers of at most 38 digits: zeros behind, rounded division.
ghost use Rattle.std.specs.Prelude.{◌≡◌, ◌/◌, ◌%◌, ◌^◌, ◌<◌, ◌≤◌, unsigned_abs, int_rem};
ghost use Rattle.ds2_decimal.specs.Rounding.{rounded_half_up, round, round_down};
ghost use Rattle.ds2_decimal.specs.Steps.{raised, signed_number};

use crate::powers::power_of_ten;

/// units * 10 ^ zeros, or `None` where that has more than 38 digits.
#[inline]
pub(crate) fn raise(units: i128, zeros: u8) -> Option<i128>
    requires digits { unsigned_abs units < 10 ^ 38 }
    requires zeros_bound { zeros ≤ 38 }
    ensures { result ≡ raised units zeros }
{
    if units.unsigned_abs() < power_of_ten(38 - zeros) {
        Some(units * power_of_ten(zeros) as i128)
    } else {
        None
    }
}

/// The number of this magnitude, below 0 where `negative`.
#[inline]
pub(crate) fn with_sign(negative: bool, magnitude: u128) -> i128
    requires { magnitude < 2 ^ 127 }
    ensures { result ≡ signed_number negative magnitude }
{
    let units = magnitude as i128;
    if negative { -units } else { units }
}

/// The quotient downwards and the rest; operands of 64 bits take the machine's own division.
#[inline]
fn divide(dividend: u128, divisor: u128) -> (u128, u128)
    requires { 0 < divisor }
    ensures quotient { result.0 ≡ dividend / divisor }
    ensures rest { result.1 ≡ dividend % divisor }
{
    match (u64::try_from(dividend), u64::try_from(divisor)) {
        (Ok(short), Ok(by)) => ((short / by) as u128, (short % by) as u128),
        _ => {
            let quotient = dividend / divisor;
            (quotient, dividend - quotient * divisor)
        }
    }
}

/// dividend / divisor, a half upwards.
pub(crate) fn divide_half_up(dividend: u128, divisor: u128) -> u128
    requires divisor { 0 < divisor }
    requires dividend { dividend < 10 ^ 38 }
    ensures { result ≡ rounded_half_up dividend divisor }
{
    let (quotient, rest) = divide(dividend, divisor);
    if rest >= divisor - rest {
        quotient + 1
    } else {
        quotient
    }
}

/// units / divisor, a half away from zero.
pub(crate) fn divide_rounded(units: i128, divisor: u128) -> i128
    requires digits { unsigned_abs units < 10 ^ 38 }
    requires divisor { 0 < divisor }
    ensures { result ≡ round units divisor }
{
    with_sign(units < 0, divide_half_up(units.unsigned_abs(), divisor))
}

/// units / divisor, downwards.
pub(crate) fn divide_down(units: i128, divisor: u128) -> i128
    requires digits { unsigned_abs units < 10 ^ 38 }
    requires divisor { 0 < divisor }
    ensures { result ≡ round_down units divisor }
{
    if units < 0 {
        -1 - divide((-1 - units) as u128, divisor).0 as i128
    } else {
        divide(units as u128, divisor).0 as i128
    }
}

/// What is left of the dividend, with its sign.
pub(crate) fn remainder(dividend: i128, divisor: i128) -> i128
    requires digits { unsigned_abs dividend < 10 ^ 38 }
    requires some_divisor { 0 < unsigned_abs divisor }
    ensures value { result ≡ int_rem dividend divisor }
    ensures digits { unsigned_abs result < 10 ^ 38 }
{
    let (_, rest) = divide(dividend.unsigned_abs(), divisor.unsigned_abs());
    with_sign(dividend < 0, rest)
}
