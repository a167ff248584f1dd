//! Decimals, short ones first.
ghost use Rattle.std.specs.Prelude.{◌≡◌, ◌++◌, ◌∷◌, [], ◌≤◌, length, take, slice_get, Some, IfSome, OnOk, OnErr};

use ds2_base::{List, OutOfMemory};
use ds2_decimal::{Dec, MOST_DIGITS};
use std::alloc::Global;
use std::marker::Model;

/// Decimals, nearly all of one scale. Those in front whose units have 64 bits, which are mostly all, take eight bytes each. A
/// contract sees the list of the numbers.
#[derive(Drop)]
pub(crate) struct Decimals {
    scale: u8,
    // the units of the first numbers, which have the scale
    short: List<i64>,
    // the numbers from the first one on whose units have more than 64 bits, or which has another scale
    wide: List<Dec>,
}

impl Model for Decimals {
    ghost use Rattle.std.specs.Prelude.{List as Items, ◌++◌, ◌≤◌, map};
    ghost use Rattle.ds2_decimal.specs.Decimal.{Decimal};
    ghost use Rattle.ds2_columns.specs.Decimals.{short_decimal};

    ghost Value = { Items Decimal };

    ghost view = { λ d. map (short_decimal d.scale) d.short ++ d.wide };

    ghost invariant = { λ d. d.scale ≤ 38 };
}

// The number of these units.
#[inline]
fn short_decimal(units: i64, scale: u8) -> Option<Dec>
    requires { scale ≤ 38 }
    ensures { result ≡ Some (record { units = units; scale = scale }) }
{
    Dec::new(units as i128, scale)
}

// The units of a number of this scale, where they have 64 bits.
#[inline]
fn short_units(number: Dec, scale: u8) -> Option<i64>
    ensures { IfSome result (λ units. number ≡ record { units = units; scale = scale }) }
{
    if number.scale() != scale {
        return None;
    }
    i64::try_from(number.units()).ok()
}

impl Decimals {
    /// No numbers. The short ones will have this scale, or 38 where it is above that. Takes no memory.
    pub(crate) fn new(alloc: Global, scale: u8) -> Decimals
        ensures { result ≡ [] }
    {
        Decimals {
            scale: scale.min(MOST_DIGITS),
            short: List::new(alloc),
            wide: List::new(alloc),
        }
    }

    /// The number of numbers.
    pub(crate) fn len(&self) -> usize
        ensures { result ≡ length self.now }
    {
        self.short.as_slice().len() + self.wide.as_slice().len()
    }

    /// The number at `row`, counted from 0; None exactly past the end.
    #[inline]
    pub(crate) fn get(&self, row: usize) -> Option<Dec>
        ensures { result ≡ slice_get self.now row }
    {
        match self.short.get(row) {
            Some(units) => short_decimal(*units, self.scale),
            None => self.wide.get(row - self.short.len()).copied(),
        }
    }

    /// Adds a number at the end. After a refusal they are as they were.
    #[inline]
    pub(crate) fn push(&mut self, number: Dec) -> Result<(), OutOfMemory>
        ensures ok { OnOk result (self.new ≡ self.old ++ number ∷ []) }
        ensures err { OnErr result (self.new ≡ self.old) }
    {
        if self.wide.is_empty() {
            if let Some(units) = short_units(number, self.scale) {
                return self.short.push(units);
            }
        }
        self.wide.push(number)
    }

    /// The number 0 with the scale of the short ones.
    pub(crate) fn zero(&self) -> Dec {
        match short_decimal(0, self.scale) {
            Some(zero) => zero,
            None => unreachable!(),
        }
    }

    /// Makes room for `count` more short numbers.
    pub(crate) fn reserve(&mut self, count: usize) -> Result<(), OutOfMemory>
        ensures { self.new ≡ self.old }
    {
        self.short.reserve(count)
    }

    /// Drops all numbers but the first `count`.
    pub(crate) fn truncate(&mut self, count: usize)
        ensures { self.new ≡ take count self.old }
    {
        self.wide.truncate(count.saturating_sub(self.short.len()));
        self.short.truncate(count);
    }
}
