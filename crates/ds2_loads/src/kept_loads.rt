//! Loads that are kept in a list.
ghost use Rattle.std.specs.Prelude.{◌≡◌, ◌+◌, false, None, Some, IfOk, MatchOption, map, drop, slice_get};
ghost use Rattle.ds2_table.specs.Loads.{KeyedLoad};
ghost use Rattle.ds2_reading.specs.LoadMeaning.{load_meaning};

use ds2_base::{List, OutOfMemory};
use ds2_merge::MergeWalk;
use ds2_reading::Load;
use std::alloc::Global;

/// Loads that are kept, each a group by itself, and how many of them were given.
#[derive(Drop)]
pub(crate) struct KeptLoads {
    pub loads: List<Load>,
    pub given: usize,
}

impl KeptLoads {
    /// The next load; None exactly behind the last one.
    pub(crate) fn next_load(&mut self) -> Option<Load>
        ensures next { MatchOption result (slice_get self.old.loads self.old.given ≡ None)
            (λ load. (slice_get self.old.loads self.old.given ≡ Some load) × (self.new.given ≡ self.old.given + 1)) }
        ensures loads { self.new.loads ≡ self.old.loads }
    {
        let loads = self.loads.as_slice();
        if self.given >= loads.len() {
            return None;
        }
        let load = loads[self.given];
        self.given += 1;
        Some(load)
    }

    /// Equal kept loads.
    pub(crate) fn copy(&self, alloc: Global) -> Result<KeptLoads, OutOfMemory>
        ensures { IfOk result (λ kept. kept ≡ self.now) }
    {
        let loads = self.loads.copy(alloc)?;
        Ok(KeptLoads {
            loads,
            given: self.given,
        })
    }
}

/// A load that reads nothing.
pub(crate) fn no_load() -> Load
    ensures { result.is_fresh ≡ false }
{
    Load {
        rows: [u64::MAX; 16],
        is_fresh: false,
        first: 0,
        last: 0,
        present: 0,
    }
}

/// The loads of `merge` that a walk has left.
pub(crate) fn kept_walk(alloc: Global, mut walk: MergeWalk) -> Result<List<Load>, OutOfMemory>
    ensures { IfOk result (λ loads. map (load_meaning walk.tables walk.bys) loads ≡ map (λ (l : KeyedLoad). l.load) (drop walk.given walk.loads)) }
{
    let mut loads = List::new(alloc);
    'loads: while let Some(load) = walk.next_load() {
        loads.push(load)?;
    }
    Ok(loads)
}
