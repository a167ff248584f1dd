//! Sums that fit 32 bits.
ghost use Rattle.std.specs.Prelude.{◌≡◌, ◌+◌, IfOk};

use ds2_base::OutOfMemory;

/// A sum; want of memory where it has more than 32 bits.
pub fn sum(a: u32, b: u32) -> Result<u32, OutOfMemory>
    ensures { IfOk result (λ n. n ≡ a + b) }
{
    match a.checked_add(b) {
        None => Err(OutOfMemory),
        Some(n) => Ok(n),
    }
}

/// A sum with a length; want of memory where it has more than 32 bits.
pub fn plus_length(a: u32, n: usize) -> Result<u32, OutOfMemory>
    ensures { IfOk result (λ sum. sum ≡ a + n) }
{
    let Ok(b) = u32::try_from(n) else {
        return Err(OutOfMemory);
    };
    sum(a, b)
}
