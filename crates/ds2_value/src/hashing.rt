//! The hash of values: alike for equal values, and in whole words, which a hasher reads at once.
ghost use Rattle.std.specs.Prelude.{◌≡◌, ◌<◌, length};
ghost use Rattle.std.specs.List.{fold};
ghost use Rattle.ds2_decimal.specs.Decimal.{value};
ghost use Rattle.ds2_value.specs.Hashing.{lowest, digits_of, number_word, digit_writes, last_word, text_writes, value_writes};
ghost use Rattle.ds2_value.specs.Order.{exact};
ghost use Rattle.ds2_value.specs.ValueLaws.{value_alike};
ghost use Rattle.ds2_value.specs.declared.value.Value.TheVariants.{Int};

use crate::Value;
use crate::texts::trimmed;
use ds2_decimal::Dec;
use std::hash::{Hash, Hasher};

// That a value is null. No text has this byte, nor the next two.
const NULL: u64 = 253;

// That it is a number.
const NUMBER: u64 = 254;

// Behind a text.
const END: u8 = 255;

// The numbers that a word holds are below this. So many times a number is the word behind another one.
const WORD: u128 = 1 << 64;

fn lowest_in_word(magnitude: u64, scale: u8) -> (u64, u8)
    ensures { result ≡ lowest magnitude scale }
{
    let mut m = magnitude;
    let mut s = scale;
    'zeros: while s > 0 && m % 10 == 0 {
        m /= 10;
        s -= 1;
    }
    (m, s)
}

fn lowest_in_words(magnitude: u128, scale: u8) -> (u128, u8)
    ensures { result ≡ lowest magnitude scale }
{
    let mut m = magnitude;
    let mut s = scale;
    'zeros: while s > 0 && m % 10 == 0 {
        m /= 10;
        s -= 1;
    }
    (m, s)
}

// Digits that a word holds are divided in one.
fn lowest_terms(magnitude: u128, scale: u8) -> (u128, u8)
    ensures { result ≡ lowest magnitude scale }
{
    if magnitude < WORD {
        let (digits, left) = lowest_in_word(magnitude as u64, scale);
        return (digits as u128, left);
    }
    lowest_in_words(magnitude, scale)
}

fn number_word(negative: bool, words: u8, scale: u8) -> u64
    ensures { result ≡ number_word negative words scale }
{
    NUMBER + 256 * (negative as u64) + 65536 * (words as u64) + 16777216 * (scale as u64)
}

fn feed_word<H: Hasher>(negative: bool, digits: u64, scale: u8, state: &mut H)
    ensures { state.new ≡ fold H.write state.old (digit_writes (negative, digits, scale)) }
{
    state.write_u128(number_word(negative, 1, scale) as u128 + WORD * (digits as u128));
}

fn feed_digits<H: Hasher>(negative: bool, digits: u128, scale: u8, state: &mut H)
    ensures { state.new ≡ fold H.write state.old (digit_writes (negative, digits, scale)) }
{
    if digits < WORD {
        feed_word(negative, digits as u64, scale, state);
        return;
    }
    state.write_u64(number_word(negative, 2, scale));
    state.write_u128(digits);
}

#[tactic(auto, using(crate::proofs::LowestLemmas::digit_forms))]
fn feed_integer<H: Hasher>(i: i64, state: &mut H)
    ensures { state.new ≡ fold H.write state.old (digit_writes (digits_of (exact (Int i)))) }
{
    feed_word(i < 0, i.unsigned_abs(), 0, state);
}

#[tactic(auto, using(crate::proofs::LowestLemmas::digit_forms))]
fn feed_decimal<H: Hasher>(d: Dec, state: &mut H)
    ensures { state.new ≡ fold H.write state.old (digit_writes (digits_of (value d))) }
{
    let units = d.units();
    let (digits, scale) = lowest_terms(units.unsigned_abs(), d.scale());
    feed_digits(units < 0, digits, scale, state);
}

fn last_word(bytes: &[u8]) -> [u8; 8]
    requires { length bytes.now < 8 }
    ensures { result ≡ last_word bytes.now }
{
    let mut word = [END; 8];
    word[..bytes.len()].copy_from_slice(bytes);
    word
}

fn feed_text<H: Hasher>(text: &str, state: &mut H)
    ensures { state.new ≡ fold H.write state.old (text_writes text.now) }
{
    let bytes = text.as_bytes();
    let (words, rest) = bytes.split_at(bytes.len() - bytes.len() % 8);
    state.write(words);
    state.write(&last_word(rest));
}

impl Hash for Value {
    ghost hash_input = { value_writes };

    ghost respects_eq = { value_alike };

    #[tactic(auto, unfolding(crate::specs::Hashing::value_writes))]
    fn hash<H: Hasher>(&self, state: &mut H) {
        match self {
            Value::Null => state.write_u64(NULL),
            Value::Int(i) => feed_integer(*i, state),
            Value::Dec(d) => feed_decimal(*d, state),
            Value::Txt(t) => feed_text(trimmed(t.as_str()), state),
        }
    }
}
