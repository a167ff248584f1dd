//! The rows of all tables as numbers that stand in BY order: the head of a row's key, and behind it the number of the row.
ghost use Rattle.std.specs.Prelude.{◌≡◌, [], map, ◌+◌, ◌-◌, ◌*◌, ◌^◌, ◌<◌, ◌≤◌, IfOk, OnOk, length};
ghost use Rattle.std.specs.List.{All, range_with_len};
ghost use Rattle.std.specs.List.Sorted.{IsPermutation, IsNonDecreasing};
ghost use Rattle.ds2_table.specs.Loads.{input_rows};
ghost use Rattle.ds2_reading.specs.KeyHeads.{directed_head, head_of, row_of};
ghost use Rattle.ds2_reading.specs.Numbers.{IsHeadedNumber, AreInOrder};

use crate::heads::key_head;
use crate::inputs::Inputs;
use crate::settling::settle;
use ds2_base::OutOfMemory;
use std::alloc::{AllocError, Global};

// One more than the greatest number of a row.
const ROWS: u128 = 0x1_0000_0000;

// What a head is taken from where the first BY variable is descending; its last digit leaves one that tells all as it is.
const MOST_HEAD: u128 = 0xffff_ffff_ffff_ffff_ffff_ffc0;

/// The number of a row, out of its head and number.
pub(crate) fn row_of(number: u128) -> usize
    ensures { result ≡ row_of number }
{
    (number % ROWS) as usize
}

/// The head of a row's key, out of its head and number; where the first BY variable is descending, taken from the greatest one.
pub(crate) fn head_of(number: u128) -> u128
    ensures { result ≡ head_of number }
{
    number / ROWS
}

// A head in the direction of the first BY variable.
fn directed(is_descending: bool, head: u128) -> u128
    requires { head < 2 * 128 ^ 13 }
    ensures value { result ≡ directed_head is_descending head }
    ensures bound { result < 2 ^ 96 }
{
    if is_descending {
        MOST_HEAD - head
    } else {
        head
    }
}

// A head and the number of a row.
fn numbered(is_descending: bool, head: u128, row: usize) -> u128
    requires head { head < 2 * 128 ^ 13 }
    requires row { row < 2 ^ 32 }
    ensures head { head_of result ≡ directed_head is_descending head }
    ensures row { row_of result ≡ row }
{
    directed(is_descending, head) * ROWS + row as u128
}

// The rows of all tables, as they stand.
fn headed_numbers(alloc: Global, inputs: &Inputs, rows: usize) -> Result<Vec<u128>, AllocError>
    requires count { rows ≡ length (input_rows 0 inputs.now.tables) }
    requires bound { rows < 2 ^ 32 }
    ensures headed { IfOk result (λ numbers. All (IsHeadedNumber inputs.now) numbers.items) }
    ensures rows { IfOk result (λ numbers. map row_of numbers.items ≡ range_with_len 0 rows) }
{
    let is_descending = inputs.is_descending();
    let mut numbers = Vec::new(alloc);
    numbers.reserve(rows)?;
    'rows: for row in 0..rows {
        let value = inputs.part(row, 0);
        numbers.push(numbered(is_descending, key_head(&value), row))?;
    }
    Ok(numbers)
}

// Sorts numbers.
fn sort(numbers: &mut Vec<u128>) -> Result<(), AllocError>
    ensures moved { IsPermutation numbers.old.items numbers.new.items }
    ensures sorted { OnOk result (IsNonDecreasing numbers.new.items) }
{
    numbers.sort()
}

/// The rows of all tables in BY order. Where they stand so already it costs one pass.
pub(crate) fn ordered_numbers(alloc: Global, inputs: &Inputs) -> Result<Vec<u128>, OutOfMemory>
    ensures order { IfOk result (λ numbers. AreInOrder inputs.now numbers.items) }
    ensures bound { IfOk result (λ numbers. length numbers.items < 2 ^ 32) }
{
    inputs.have_keys();
    let rows = inputs.count_rows()?;
    let mut numbers = headed_numbers(alloc, inputs, rows)?;
    sort(&mut numbers)?;
    settle(inputs, &mut numbers);
    Ok(numbers)
}
