//! The text of a decimal.
ghost use Rattle.std.specs.Prelude.{◌≡◌, ◌^◌, ◌<◌, ◌≤◌, ◌++◌, ◌∷◌, IfOk, string_bytes};
ghost use Rattle.std.specs.Fmt.{decimal};
ghost use Rattle.ds2_decimal.specs.Text.{decimal_text};
ghost use Rattle.ds2_value.specs.DecimalText.{wide};

use ds2_base::{OutOfMemory, Text};
use ds2_decimal::Dec;
use std::alloc::{AllocError, Global};

pub(crate) fn power_of_ten(n: u8) -> u128
    requires { n ≤ 38 }
    ensures { result ≡ 10 ^ n }
{
    let mut unit = 1u128;
    'tens: for i in 0..n {
        unit *= 10;
    }
    unit
}

// A sign, a whole number, and a fraction of `width` digits.
fn pointed(
    alloc: Global,
    sign: &str,
    whole: u128,
    rest: u128,
    width: usize,
) -> Result<String, AllocError>
    requires { 0 < width }
    ensures { IfOk result (λ s. string_bytes s ≡ sign.now ++ (decimal whole ++ 46 ∷ wide width rest)) }
{
    format!(in alloc; "{sign}{whole}.{rest:0width$}")
}

/// The text of a decimal, which [`Dec::read`] gives back: `-` below 0, at least one digit before the point, and a point with as many digits after it as the scale
/// has, where that is above 0.
pub fn write_dec(alloc: Global, d: Dec) -> Result<Text, OutOfMemory>
    ensures { IfOk result (λ text. text ≡ decimal_text d) }
{
    let units = d.units();
    let scale = d.scale();
    let magnitude = units.unsigned_abs();
    let sign = if units < 0 { "-" } else { "" };
    if scale == 0 {
        return Text::from_string(alloc, format!(in alloc; "{sign}{magnitude}")?);
    }
    let unit = power_of_ten(scale);
    let text = pointed(
        alloc,
        sign,
        magnitude / unit,
        magnitude % unit,
        scale as usize,
    )?;
    Text::from_string(alloc, text)
}
