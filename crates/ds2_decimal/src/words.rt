//! Units in two words: what holds them is aligned to 8 bytes, where an `i128` asks for 16.
ghost use Rattle.std.specs.Prelude.{◌≡◌};

use std::marker::Model;

/// 2 ^ 64.
const WORD: i128 = 18_446_744_073_709_551_616;

/// The whole number high * 2 ^ 64 + low.
#[derive(Clone, Copy)]
pub(crate) struct Units {
    high: i64,
    low: u64,
}

impl Model for Units {
    ghost use Rattle.std.specs.Prelude.{ℤ, ◌^◌, ◌<◌};
    ghost use Rattle.ds2_decimal.specs.Words.{joined, high_word, low_word, high_word-joined, low_word-joined};

    ghost Value = { ℤ };

    ghost view = { λ u. joined u.high u.low };

    ghost invariant = { λ u. u.low < 2 ^ 64 };

    ghost inverse = { λ n. record { high = high_word n; low = low_word n } };

    ghost inverse_ok = { λ u h i. record {
      high = high_word-joined u.high u.low h i;
      low = low_word-joined u.high u.low h i;
    } };
}

impl Units {
    /// This number in two words.
    #[inline]
    pub(crate) fn of(n: i128) -> Units
        ensures { result ≡ n }
    {
        let high = n >> 64;
        Units {
            high: high as i64,
            low: (n - high * WORD) as u64,
        }
    }

    /// The number.
    #[inline]
    pub(crate) fn get(self) -> i128
        ensures { result ≡ self }
    {
        self.high as i128 * WORD + self.low as i128
    }
}
