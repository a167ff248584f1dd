//! Drawn numbers.
ghost use Rattle.std.specs.Prelude.{◌≡◌, ◌^◌, ◌<◌, IfOk};
ghost use Rattle.ds2_answer.specs.Drawn.{hundredths_of, in_hundredths, next_drawn, region_of};

use ds2_base::{OutOfMemory, Text};
use ds2_decimal::Dec;
use std::alloc::Global;

/// How many regions there are.
pub const REGIONS: u64 = 40;

/// How many amounts there are: the largest has one hundredth less.
pub const AMOUNTS: u64 = 30_000;

/// The number that is drawn behind this one.
#[tactic(auto, unfolding(crate::specs::Drawn::next_drawn))]
pub(crate) fn next_drawn(number: u64) -> u64
    requires { number < 2 ^ 31 }
    ensures value { result ≡ next_drawn number }
    ensures small { result < 2 ^ 31 }
{
    (1_103_515_245 * number + 12_345) % (1 << 31)
}

/// The region of a drawn number.
#[tactic(auto, unfolding(crate::specs::Drawn::region_of))]
pub(crate) fn region_of(alloc: Global, number: u64) -> Result<Text, OutOfMemory>
    ensures { IfOk result (λ region. region ≡ region_of number) }
{
    let region = number / 65_536 % REGIONS;
    let (tens, ones) = (region / 10, region % 10);
    Text::from_string(alloc, format!(in alloc; "R{tens}{ones}")?)
}

/// The hundredths of a drawn number's amount.
#[tactic(auto, unfolding(crate::specs::Drawn::hundredths_of))]
pub(crate) fn hundredths_of(number: u64) -> u64
    ensures value { result ≡ hundredths_of number }
    ensures small { result < 30000 }
{
    number / 65_536 % AMOUNTS
}

/// An amount of so many hundredths.
pub(crate) fn in_hundredths(units: u64) -> Dec
    ensures { result ≡ in_hundredths units }
{
    Dec::new(units as i128, 2).unwrap()
}
