//! The rows of a thread program as the loads of the program that reads from it.
ghost use Rattle.std.specs.Prelude.{◌≡◌, ◌<◌, length, take, drop};
ghost use Rattle.ds2_slots.specs.LoadedHashes.{AreSlotTypesInBounds};

use crate::columns::set_columns;
use crate::source::LoadSource;
use ds2_base::{List, OutOfMemory};
use ds2_code::Slot;
use ds2_machine::{OutRow, UnitLoad};
use ds2_value::Value;
use std::alloc::Global;

/// The rows of a thread program, in the order in which they were written, each a group: the one at which the reader stands, and those that
/// are left.
#[derive(Drop)]
pub struct StageRows<'a> {
    pub slots: &'a [Slot],
    /// The slot of each column of the thread program's output.
    pub into: &'a [u32],
    pub row: &'a [Value],
    pub rest: &'a [OutRow],
    pub all: &'a [OutRow],
    ghost in_bounds: { AreSlotTypesInBounds slots.now },
}

impl UnitLoad for StageRows<'_> {
    ghost use Rattle.ds2_code.specs.CodeUnit.{row_slot_settings};

    ghost settings = { λ loads. row_slot_settings loads.slots.now loads.into.now loads.row.now };

    fn set_into(&self, alloc: Global, slots: &mut List<Value>) -> Result<(), OutOfMemory> {
        set_columns(alloc, self.slots, self.into, self.row, slots)
    }
}

impl<'a> LoadSource for StageRows<'a> {
    ghost use Rattle.ds2_loads.specs.StageRows.{rows_as_loads, rows_apart};

    ghost left = { λ loads. rows_as_loads loads.slots.now loads.into.now loads.rest.now };

    ghost grouped = { λ loads. rows_apart loads.slots.now loads.into.now loads.all.now };

    fn next_load(&mut self) -> bool {
        match self.rest {
            [] => false,
            [first, after @ ..] => {
                self.row = first.row.as_slice();
                self.rest = after;
                true
            }
        }
    }

    fn groups(&self) -> u64 {
        self.all.len() as u64
    }

    fn enter(&mut self, g: u64) {
        self.rest = one_row(self.all, g as usize);
    }

    fn copy(&self, _alloc: Global) -> Result<StageRows<'a>, OutOfMemory> {
        Ok(StageRows {
            slots: self.slots,
            into: self.into,
            row: self.row,
            rest: self.rest,
            all: self.all,
        })
    }
}

// The row of this number alone.
fn one_row(rows: &[OutRow], number: usize) -> &[OutRow]
    requires { number < length rows.now }
    ensures { result.now ≡ take 1 (drop number rows.now) }
{
    let from = rows.split_at(number).1;
    from.split_at(1).0
}
