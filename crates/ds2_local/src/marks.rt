//! Sets of locations, by the deeds that name them.
ghost use Rattle.std.specs.List.{list_any, filter, range_with_len};
ghost use Rattle.std.specs.Prelude.{◌≡◌, ◌++◌, ◌∷◌, [], false, if◌then◌else◌, map, replicate, IfOk, OnOk};
ghost use Rattle.ds2_deeds.specs.NumberedCalls.{changes_number, mentions_number};
ghost use Rattle.ds2_recorded_walk.specs.LocationBits.{is_on};
ghost use Rattle.ds2_local.specs.MarkedLocations.{number_changed, number_mentioned, numbers_mentioned, with_location_on};

use ds2_base::{List, OutOfMemory};
use ds2_deeds::NumberedDeed;
use ds2_recorded_walk::is_on;
use std::alloc::Global;

// The number of the location that a deed mentions.
fn number_mentioned(deed: NumberedDeed) -> Option<usize>
    ensures { result ≡ number_mentioned deed }
{
    match deed {
        NumberedDeed::Mention(number) => Some(number),
        NumberedDeed::Change(_) => None,
        NumberedDeed::Call(_) => None,
        NumberedDeed::Write(_) => None,
    }
}

// The number of the location that a deed changes.
fn number_changed(deed: NumberedDeed) -> Option<usize>
    ensures { result ≡ number_changed deed }
{
    match deed {
        NumberedDeed::Change(number) => Some(number),
        NumberedDeed::Mention(_) => None,
        NumberedDeed::Call(_) => None,
        NumberedDeed::Write(_) => None,
    }
}

// No one of so many locations.
fn none_on(alloc: Global, count: usize) -> Result<List<bool>, OutOfMemory>
    ensures { IfOk result (λ bits. bits ≡ replicate count false) }
{
    let mut bits = List::new(alloc);
    'locations: for _ in 0..count {
        bits.push(false)?;
    }
    Ok(bits)
}

// Adds the location of a number to a set, where there is such a number.
fn mark(bits: &mut List<bool>, number: Option<usize>)
    ensures { bits.new ≡ with_location_on bits.old number }
{
    if let Some(number) = number {
        if number < bits.len() {
            bits.replace(number, true);
        }
    }
}

// Which of so many locations deeds mention.
fn mentioned_bits(
    alloc: Global,
    count: usize,
    deeds: &[NumberedDeed],
) -> Result<List<bool>, OutOfMemory>
    ensures { IfOk result (λ bits. bits ≡ map (λ n. list_any (mentions_number n) deeds.now) (range_with_len 0 count)) }
{
    let mut bits = none_on(alloc, count)?;
    'deeds: for deed in deeds {
        mark(&mut bits, number_mentioned(*deed));
    }
    Ok(bits)
}

/// Which of so many locations deeds change.
pub fn changed_bits(
    alloc: Global,
    count: usize,
    deeds: &[NumberedDeed],
) -> Result<List<bool>, OutOfMemory>
    ensures { IfOk result (λ bits. bits ≡ map (λ n. list_any (changes_number n) deeds.now) (range_with_len 0 count)) }
{
    let mut bits = none_on(alloc, count)?;
    'deeds: for deed in deeds {
        mark(&mut bits, number_changed(*deed));
    }
    Ok(bits)
}

// Adds a number, where its location is in a set.
fn add_if_on(numbers: &mut List<usize>, bits: &[bool], number: usize) -> Result<(), OutOfMemory>
    ensures { OnOk result (numbers.new ≡ (if is_on bits.now number then numbers.old ++ number ∷ [] else numbers.old)) }
{
    if is_on(bits, number) {
        return numbers.push(number);
    }
    Ok(())
}

// The numbers of those of so many locations that are in a set, in order.
fn numbers_on(alloc: Global, count: usize, bits: &[bool]) -> Result<List<usize>, OutOfMemory>
    ensures { IfOk result (λ numbers. numbers ≡ filter (is_on bits.now) (range_with_len 0 count)) }
{
    let mut numbers = List::new(alloc);
    'locations: for number in 0..count {
        add_if_on(&mut numbers, bits, number)?;
    }
    Ok(numbers)
}

/// The numbers of those of so many locations that deeds mention, in order.
pub fn numbers_mentioned(
    alloc: Global,
    count: usize,
    deeds: &[NumberedDeed],
) -> Result<List<usize>, OutOfMemory>
    ensures { IfOk result (λ numbers. numbers ≡ numbers_mentioned count deeds.now) }
{
    let bits = mentioned_bits(alloc, count, deeds)?;
    numbers_on(alloc, count, bits.as_slice())
}
