//! Which methods deeds may call, by way of others too.
ghost use Rattle.std.specs.Prelude.{◌≡◌, ◌≤◌, IfOk, OnOk, drop, flat_map, length};
ghost use Rattle.ds2_deeds.specs.NumberedCalls.{number_called, numbers_called, with_numbers, deeds_numbered as deeds_of_number, calls_by_number, may_call as reached_by, with_called as deeds_with_called};

use crate::deed::NumberedDeed;
use crate::marked_numbers::MarkedNumbers;
use ds2_base::{List, OutOfMemory};
use std::alloc::Global;

// Adds the method that a deed calls.
fn add_called(numbers: &mut MarkedNumbers, deed: NumberedDeed) -> Result<(), OutOfMemory>
    ensures { OnOk result (numbers.new ≡ with_numbers numbers.old (number_called deed)) }
{
    match deed {
        NumberedDeed::Call(number) => numbers.add(number),
        NumberedDeed::Mention(_) => Ok(()),
        NumberedDeed::Change(_) => Ok(()),
        NumberedDeed::Write(_) => Ok(()),
    }
}

// Adds the methods that deeds call.
fn add_all_called(numbers: &mut MarkedNumbers, deeds: &[NumberedDeed]) -> Result<(), OutOfMemory>
    ensures { OnOk result (numbers.new ≡ with_numbers numbers.old (numbers_called deeds.now)) }
{
    'deeds: for deed in deeds {
        add_called(numbers, *deed)?;
    }
    Ok(())
}

// The deeds of the method of a number.
fn deeds_numbered(all: &[List<NumberedDeed>], number: usize) -> &[NumberedDeed]
    ensures { result.now ≡ deeds_of_number all.now number }
{
    match all.get(number) {
        None => &[],
        Some(deeds) => deeds.as_slice(),
    }
}

// Adds the methods that these call, but for those at the front whose methods have been walked.
fn add_round(
    alloc: Global,
    numbers: &mut MarkedNumbers,
    all: &[List<NumberedDeed>],
    walked: usize,
) -> Result<(), OutOfMemory>
    requires { walked ≤ length numbers.old }
    ensures { OnOk result (numbers.new ≡ with_numbers numbers.old (flat_map (calls_by_number all.now) (drop walked numbers.old))) }
{
    let fresh = List::from_slice(alloc, numbers.as_slice().split_at(walked).1)?;
    'fresh: for number in fresh.as_slice() {
        add_all_called(numbers, deeds_numbered(all, *number))?;
    }
    Ok(())
}

/// The methods that deeds may call, calls so many deep. Where a round brings no further one, none does.
pub fn may_call(
    alloc: Global,
    all: &[List<NumberedDeed>],
    rounds: usize,
    deeds: &[NumberedDeed],
) -> Result<List<usize>, OutOfMemory>
    ensures { IfOk result (λ numbers. numbers ≡ reached_by all.now rounds deeds.now) }
{
    let mut numbers = MarkedNumbers::new(alloc, all.len());
    add_all_called(&mut numbers, deeds)?;
    let mut walked: usize = 0;
    'rounds: for _ in 0..rounds {
        let count = numbers.len();
        add_round(alloc, &mut numbers, all, walked)?;
        if numbers.len() == count {
            return Ok(numbers.into_list());
        }
        walked = count;
    }
    Ok(numbers.into_list())
}

/// Deeds, and those of all methods that they may call.
pub fn with_called(
    alloc: Global,
    all: &[List<NumberedDeed>],
    rounds: usize,
    deeds: &[NumberedDeed],
) -> Result<List<NumberedDeed>, OutOfMemory>
    ensures { IfOk result (λ whole. whole ≡ deeds_with_called all.now rounds deeds.now) }
{
    let numbers = may_call(alloc, all, rounds, deeds)?;
    let mut whole = List::from_slice(alloc, deeds)?;
    'numbers: for number in numbers.as_slice() {
        whole.append(deeds_numbered(all, *number))?;
    }
    Ok(whole)
}
