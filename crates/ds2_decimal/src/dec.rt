//! The type of decimals and its operations.
ghost use Rattle.std.specs.Prelude.{◌≡◌, ◌+◌, ◌^◌, ◌<◌, ◌≤◌, pos, ◌*ℤ◌, ◌+ℤ◌, unsigned_abs, int_rem, length, IsTrue};
ghost use Rattle.std.specs.Ordering.{int_cmp};
ghost use Rattle.std.specs.Fmt.{decimal};
ghost use Rattle.ds2_decimal.specs.Decimal.{is_within, digit_count, IsDecimal};
ghost use Rattle.ds2_decimal.specs.Arithmetic as spec;
ghost use Rattle.ds2_decimal.specs.Text as text;

use crate::powers::{LIMIT, SHORT, power_of_ten};
use crate::quotient::divide_signed;
use crate::read::read_unsigned;
use crate::units::{divide_down, divide_rounded, raise, remainder};
use crate::words::Units;
use std::cmp::Ordering;
use std::marker::Model;
use std::mem::size_of;

/// The most digits of a decimal, and the most of them after the point.
pub const MOST_DIGITS: u8 = 38;

/// Why an operation on decimals has no result.
#[derive(Clone, Copy, PartialEq, Eq, Drop)]
pub enum DecFault {
    /// An operand brought to the scale of the result, or the result, has more than 38 digits (`rescale`: more than p).
    Overflow,
    /// The divisor is 0.
    DivideByZero,
}

/// The number units / 10 ^ scale, with at most 38 digits, and at most 38 of them after the point.
#[derive(Clone, Copy)]
pub struct Dec {
    units: Units,
    scale: u8,
}

// A table holds many decimals, so one is small.
const _: () = prove!(size_of::<Dec>() <= 24);

impl Model for Dec {
    ghost use Rattle.std.specs.Prelude.{◌^◌, ◌<◌, ◌≤◌, unsigned_abs};
    ghost use Rattle.ds2_decimal.specs.Decimal.{Decimal};

    ghost Value = { Decimal };

    ghost view = { λ d. record { units = d.units; scale = d.scale } };

    ghost use Rattle.ds2_decimal.specs.declared.dec.TheConstants.{MOST_DIGITS};

    ghost invariant = { λ d. (unsigned_abs d.units < 10 ^ MOST_DIGITS) × (d.scale ≤ MOST_DIGITS) };

    ghost inverse = { λ d. record { units = d.units; scale = d.scale } };
}

impl Dec {
    /// The number units / 10 ^ scale; `None` where it has more than 38 digits or a scale above 38.
    pub fn new(units: i128, scale: u8) -> Option<Dec>
        ensures { result ≡ spec.new units scale }
    {
        if units.unsigned_abs() < LIMIT && scale <= MOST_DIGITS {
            Some(Dec {
                units: Units::of(units),
                scale,
            })
        } else {
            None
        }
    }

    /// The number that a text writes: an optional `-`, then `0` or digits without a leading 0, then optionally a point and at
    /// least one digit; the scale is the number of digits behind the point. `None` for every other text, above 38 digits
    /// (leading zeros not counted) and above scale 38.
    pub fn read(s: &str) -> Option<Dec>
        ensures { result ≡ text.read s.now }
    {
        match s.as_bytes() {
            [b'-', digits @ ..] => Some(read_unsigned(digits)?.neg()),
            digits => read_unsigned(digits),
        }
    }

    /// The number without its point.
    #[inline]
    pub fn units(self) -> i128
        ensures value { result ≡ self.units }
        ensures digits { IsTrue (is_within 38 result) }
    {
        self.units.get()
    }

    /// How many digits stand after the point.
    #[inline]
    pub fn scale(self) -> u8
        ensures value { result ≡ self.scale }
        ensures bound { result ≤ 38 }
    {
        self.scale
    }

    /// How many digits the number without its point is written with, at least 1: 2 for 0.12 and for 12, 1 for 0.
    pub fn digits(self) -> u8
        ensures value { result ≡ digit_count self }
        ensures some { 1 ≤ result }
        ensures bound { result ≤ 38 }
    {
        digit_count(self.units.get().unsigned_abs())
    }

    /// The number with the other sign.
    #[inline]
    pub fn neg(self) -> Dec
        ensures { result ≡ spec.neg self }
    {
        Dec {
            units: Units::of(-self.units.get()),
            scale: self.scale,
        }
    }

    /// The number without its sign.
    #[inline]
    pub fn abs(self) -> Dec
        ensures { result ≡ spec.abs self }
    {
        Dec {
            units: Units::of(self.units.get().abs()),
            scale: self.scale,
        }
    }

    /// The greatest whole number that is not above this one, with scale 0.
    pub fn floor(self) -> Dec
        ensures { result ≡ spec.floor self }
    {
        Dec {
            units: Units::of(divide_down(self.units.get(), power_of_ten(self.scale))),
            scale: 0,
        }
    }

    /// The least whole number that is not below this one, with scale 0.
    pub fn ceil(self) -> Dec
        ensures { result ≡ spec.ceil self }
    {
        self.neg().floor().neg()
    }

    /// How the exact values stand.
    #[inline]
    pub fn compare(self, other: Dec) -> Ordering
        ensures { result ≡ spec.compare self other }
    {
        let (first, second) = (self.units.get(), other.units.get());
        if self.scale == other.scale {
            first.cmp(&second)
        } else if self.scale < other.scale {
            compare_raised(first, other.scale - self.scale, second)
        } else {
            compare_raised(second, self.scale - other.scale, first).reverse()
        }
    }

    /// The sum, at the larger scale. `Overflow` where an operand brought to that scale, or the sum, has more than 38 digits.
    #[inline]
    pub fn add(self, other: Dec) -> Result<Dec, DecFault>
        ensures { result ≡ spec.add self other }
    {
        if self.scale == other.scale {
            return sum(self.units.get(), other.units.get(), self.scale);
        }
        match aligned(self, other) {
            Some((first, second)) => sum(first, second, self.scale.max(other.scale)),
            None => Err(DecFault::Overflow),
        }
    }

    /// The difference, at the larger scale. `Overflow` where an operand brought to that scale, or the difference, has more
    /// than 38 digits.
    #[inline]
    pub fn sub(self, other: Dec) -> Result<Dec, DecFault>
        ensures { result ≡ spec.sub self other }
    {
        self.add(other.neg())
    }

    /// The product; its scale is the sum of the scales. `Overflow` where it has more than 38 digits.
    pub fn mul(self, other: Dec) -> Result<Dec, DecFault>
        requires { self.scale + other.scale ≤ 38 }
        ensures { result ≡ spec.mul self other }
    {
        product(
            self.units.get(),
            other.units.get(),
            self.scale + other.scale,
        )
    }

    /// The quotient at the larger scale, at least 6, rounded half away from zero. `DivideByZero` where `other` is 0,
    /// `Overflow` where the rounded quotient has more than 38 digits.
    pub fn div(self, other: Dec) -> Result<Dec, DecFault>
        ensures { result ≡ spec.div self other }
    {
        if other.units.get() == 0 {
            return Err(DecFault::DivideByZero);
        }
        let scale = self.scale.max(other.scale).max(6);
        let zeros = scale + other.scale - self.scale;
        match divide_signed(self.units.get(), zeros, other.units.get()) {
            Some(units) => Ok(Dec {
                units: Units::of(units),
                scale,
            }),
            None => Err(DecFault::Overflow),
        }
    }

    /// The remainder at the larger scale, with the sign of this number. `DivideByZero` where `other` is 0, else `Overflow`
    /// where an operand brought to that scale has more than 38 digits.
    pub fn modulo(self, other: Dec) -> Result<Dec, DecFault>
        ensures { result ≡ spec.modulo self other }
    {
        match other.units.get() {
            0 => Err(DecFault::DivideByZero),
            _ => aligned_remainder(self, other),
        }
    }

    /// The same number at this scale with at most `precision` digits, rounded half away from zero where digits go.
    /// `Overflow` where it has more digits.
    pub fn rescale(self, precision: u8, scale: u8) -> Result<Dec, DecFault>
        requires some_digits { 1 ≤ precision }
        requires precision_bound { precision ≤ 38 }
        requires scale_bound { scale ≤ precision }
        ensures { result ≡ spec.rescale precision scale self }
    {
        if self.scale > scale {
            let units = divide_rounded(self.units.get(), power_of_ten(self.scale - scale));
            return within(precision, units, scale);
        }
        match raise(self.units.get(), scale - self.scale) {
            Some(units) => within(precision, units, scale),
            None => Err(DecFault::Overflow),
        }
    }
}

/// How many digits a number of at most 38 digits is written with.
fn digit_count(magnitude: u128) -> u8
    requires { magnitude < 10 ^ 38 }
    ensures value { result ≡ length (decimal magnitude) }
    ensures some { 1 ≤ result }
    ensures bound { result ≤ 38 }
{
    let mut digits = 1u8;
    let mut rest = magnitude;
    'tens: while rest >= 10 {
        rest /= 10;
        digits += 1;
    }
    digits
}

/// units / 10 ^ scale, or `Overflow` where that has more than `precision` digits.
#[inline]
fn within(precision: u8, units: i128, scale: u8) -> Result<Dec, DecFault>
    requires precision_bound { precision ≤ 38 }
    requires scale_bound { scale ≤ 38 }
    ensures { result ≡ spec.within precision units scale }
{
    if units.unsigned_abs() < power_of_ten(precision) {
        Ok(Dec {
            units: Units::of(units),
            scale,
        })
    } else {
        Err(DecFault::Overflow)
    }
}

/// (first + second) / 10 ^ scale, or `Overflow` where that has more than 38 digits.
#[inline]
fn sum(first: i128, second: i128, scale: u8) -> Result<Dec, DecFault>
    requires { scale ≤ 38 }
    ensures { result ≡ spec.within 38 (first +ℤ second) scale }
{
    match first.checked_add(second) {
        Some(units) => within(38, units, scale),
        None => Err(DecFault::Overflow),
    }
}

/// first * second / 10 ^ scale, or `Overflow` where that has more than 38 digits.
fn product(first: i128, second: i128, scale: u8) -> Result<Dec, DecFault>
    requires { scale ≤ 38 }
    ensures { result ≡ spec.within 38 (first *ℤ second) scale }
{
    if first.unsigned_abs() < SHORT && second.unsigned_abs() < SHORT {
        let units = first * second;
        return Ok(Dec {
            units: Units::of(units),
            scale,
        });
    }
    match first.checked_mul(second) {
        Some(units) => within(38, units, scale),
        None => Err(DecFault::Overflow),
    }
}

/// The units of both at the larger scale, or `None` where one has more than 38 digits there.
fn aligned(first: Dec, second: Dec) -> Option<(i128, i128)>
    ensures { result ≡ spec.aligned first second }
{
    if first.scale < second.scale {
        Some((
            raise(first.units.get(), second.scale - first.scale)?,
            second.units.get(),
        ))
    } else {
        Some((
            first.units.get(),
            raise(second.units.get(), first.scale - second.scale)?,
        ))
    }
}

/// What whole multiples of the second leave of the first, at the larger scale, or `Overflow` where one has more than 38
/// digits there.
fn aligned_remainder(first: Dec, second: Dec) -> Result<Dec, DecFault>
    requires { 0 < unsigned_abs second.units }
    ensures { result ≡ spec.on_aligned int_rem first second }
{
    match aligned(first, second) {
        Some((dividend, divisor)) => within(
            38,
            remainder(dividend, divisor),
            first.scale.max(second.scale),
        ),
        None => Err(DecFault::Overflow),
    }
}

/// How units * 10 ^ zeros and `other` stand.
fn compare_raised(units: i128, zeros: u8, other: i128) -> Ordering
    requires digits { unsigned_abs units < 10 ^ 38 }
    requires zeros_bound { zeros ≤ 38 }
    requires other_digits { unsigned_abs other < 10 ^ 38 }
    ensures { result ≡ int_cmp (units *ℤ pos (10 ^ zeros)) other }
{
    match raise(units, zeros) {
        Some(raised) => raised.cmp(&other),
        None if units < 0 => Ordering::Less,
        None => Ordering::Greater,
    }
}
