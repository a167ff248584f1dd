//! Sets of locations, as a truth value for each of the locations in order; those behind the last value are not in the set.
ghost use Rattle.std.specs.Prelude.{◌≡◌, false, IfOk};
ghost use Rattle.ds2_recorded_walk.specs.LocationBits.{first_bit as bit_in_front, later_bits, is_on as is_on_at, either_on, both_on};

use ds2_base::{List, OutOfMemory};
use std::alloc::Global;

/// Whether the location of a number is in a set.
pub fn is_on(bits: &[bool], number: usize) -> bool
    ensures { result ≡ is_on_at bits.now number }
{
    match bits.get(number) {
        None => false,
        Some(bit) => *bit,
    }
}

// The first value of a set, and the later ones.
fn first_bit(bits: &[bool]) -> (bool, &[bool])
    ensures first { result.0 ≡ bit_in_front bits.now }
    ensures later { result.1.now ≡ later_bits bits.now }
{
    match bits {
        [] => (false, bits),
        [bit, later @ ..] => (*bit, later),
    }
}

/// The locations that are in one of two sets.
pub fn united(alloc: Global, a: &[bool], b: &[bool]) -> Result<List<bool>, OutOfMemory>
    ensures { IfOk result (λ bits. bits ≡ either_on a.now b.now) }
{
    let mut bits = List::new(alloc);
    let mut others = b;
    'bits: for bit in a {
        let (other, later) = first_bit(others);
        bits.push(*bit || other)?;
        others = later;
    }
    bits.append(others)?;
    Ok(bits)
}

/// The locations that are in both of two sets.
pub fn common(alloc: Global, a: &[bool], b: &[bool]) -> Result<List<bool>, OutOfMemory>
    ensures { IfOk result (λ bits. bits ≡ both_on a.now b.now) }
{
    let mut bits = List::new(alloc);
    let mut others = b;
    'bits: for bit in a {
        let (other, later) = first_bit(others);
        bits.push(*bit && other)?;
        others = later;
    }
    Ok(bits)
}
