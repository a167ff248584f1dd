//! Calls that are to fail.
ghost use Rattle.std.specs.Prelude.{◌≡◌, []};
ghost use Rattle.ds2_outside.specs.Calls.{next_call, is_to_fail};

use ds2_base::List;
use std::alloc::Global;

/// The number of calls made, and the numbers of those that fail, counted from 1.
#[derive(Drop)]
pub(crate) struct Calls {
    pub(crate) made: u64,
    pub(crate) failing: List<u64>,
}

impl Calls {
    pub(crate) fn new(alloc: Global) -> Calls
        ensures { result ≡ record { made = 0; failing = [] } }
    {
        Calls {
            made: 0,
            failing: List::new(alloc),
        }
    }

    /// Counts a call, and says whether it is to fail.
    pub(crate) fn next_fails(&mut self) -> bool
        ensures counts { self.new ≡ record self.old { made = next_call self.old.made } }
        ensures fails { result ≡ is_to_fail self.old.made self.old.failing }
    {
        self.made = self.made.saturating_add(1);
        self.failing.as_slice().contains(&self.made)
    }
}
