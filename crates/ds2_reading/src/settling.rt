//! Rows whose heads are equal, sorted by what the heads leave out of their keys.
ghost use Rattle.std.specs.Prelude.{◌≡◌, ◌+◌, ◌-◌, ◌<◌, ◌≤◌, ◌||◌, nat_le, length};
ghost use Rattle.std.specs.List.{All};
ghost use Rattle.std.specs.List.Sorted.{IsPermutation, IsNonDecreasing};
ghost use Rattle.ds2_table.specs.LoadLaws.{HaveTableKeys};
ghost use Rattle.ds2_reading.specs.KeyHeads.{level_of_head, row_of};
ghost use Rattle.ds2_reading.specs.Numbers.{IsHeadedNumber, IsHeadRun, SettlesRun, IsRisingRun, AreSortedRows, order_from};

use crate::heads::tells_all;
use crate::inputs::Inputs;
use crate::numbers::{head_of, row_of};
use std::cmp::Ordering;

/// In how many BY variables rows with this head are equal at least.
pub(crate) fn level_of_head(inputs: &Inputs, head: u128) -> usize
    ensures value { result ≡ level_of_head inputs.now.descending head }
    ensures bound { result ≤ length inputs.now.descending }
{
    if tells_all(head) {
        inputs.bys().min(1)
    } else {
        0
    }
}

// Where the rows of one head end that begin at a place.
fn end_of_run(numbers: &[u128], from: usize) -> usize
    requires { from < length numbers.now }
    ensures { IsHeadRun from result numbers.now }
{
    let head = head_of(numbers[from]);
    let mut end = from + 1;
    'numbers: while end < numbers.len() {
        if head_of(numbers[end]) != head {
            return end;
        }
        end += 1;
    }
    end
}

// How two rows stand by their keys from a BY variable on, and then by their numbers.
fn compare(inputs: &Inputs, level: usize, a: u128, b: u128) -> Ordering
    ensures { result ≡ order_from inputs.now level (row_of a) (row_of b) }
{
    let first = row_of(a);
    let second = row_of(b);
    inputs
        .compare(level, first, second)
        .then(first.cmp(&second))
}

// Whether rows between two places that are equal in so many BY variables are sorted.
fn is_settled(inputs: &Inputs, level: usize, from: usize, end: usize) -> bool
    requires { from ≤ end }
    ensures { result ≡ (nat_le (end - from) 1 || nat_le (length inputs.now.descending) level) }
{
    end - from <= 1 || inputs.bys() <= level
}

// Sorts rows of one head, where that leaves something out.
fn settle_run(inputs: &Inputs, numbers: &mut [u128], from: usize, end: usize)
    requires keys { HaveTableKeys inputs.now.descending inputs.now.tables }
    requires run { IsHeadRun from end numbers.old }
    requires headed { All (IsHeadedNumber inputs.now) numbers.old }
    requires rising { IsRisingRun from end numbers.old }
    ensures { SettlesRun inputs.now from end numbers.old numbers.new }
{
    let level = level_of_head(inputs, head_of(numbers[from]));
    if is_settled(inputs, level, from, end) {
        return;
    }
    numbers[from..end].sort_unstable_by(|a, b| compare(inputs, level, *a, *b));
}

/// Sorts rows that are sorted by their heads by their whole keys, and those of equal keys by their numbers.
pub(crate) fn settle(inputs: &Inputs, numbers: &mut [u128])
    requires keys { HaveTableKeys inputs.now.descending inputs.now.tables }
    requires headed { All (IsHeadedNumber inputs.now) numbers.old }
    requires rising { IsNonDecreasing numbers.old }
    ensures moved { IsPermutation numbers.old numbers.new }
    ensures sorted { AreSortedRows inputs.now numbers.new }
{
    let mut from = 0;
    'runs: while from < numbers.len() {
        let end = end_of_run(numbers, from);
        settle_run(inputs, numbers, from, end);
        from = end;
    }
}
