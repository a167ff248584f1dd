//! Searches among locations in order.
ghost use Rattle.std.specs.Prelude.{◌≡◌, IfOk};
ghost use Rattle.ds2_numbering.specs.Searching.{first_or_this, unbegun, looked_on};

use ds2_base::OutOfMemory;

/// The number of the first location that was the one sought, where one was, and how many were looked at.
#[derive(Clone, Copy)]
pub struct Search {
    pub found: Option<u32>,
    pub seen: u32,
}

// A number that was found, or this one where it is the one sought.
fn found_or(found: Option<u32>, is_sought: bool, number: u32) -> Option<u32>
    ensures { result ≡ first_or_this found is_sought number }
{
    match found {
        Some(n) => Some(n),
        None => { if is_sought { Some(number) } else { None } }
    }
}

impl Search {
    /// One that has not begun.
    pub fn new() -> Search
        ensures { result ≡ unbegun }
    {
        Search {
            found: None,
            seen: 0,
        }
    }

    /// One location more has been looked at; want of memory where it is the 2 ^ 32nd.
    pub fn on(self, is_sought: bool) -> Result<Search, OutOfMemory>
        ensures { IfOk result (λ s. s ≡ looked_on self is_sought) }
    {
        match self.seen.checked_add(1) {
            None => Err(OutOfMemory),
            Some(seen) => Ok(Search {
                found: found_or(self.found, is_sought, self.seen),
                seen,
            }),
        }
    }
}
