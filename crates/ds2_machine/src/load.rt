//! What a load sets before the unit `run`.
ghost use Rattle.std.specs.Prelude.{◌≡◌, OnOk};
ghost use Rattle.ds2_code.specs.Desk.{SlotSettings, with_slot_settings};

use ds2_base::{List, OutOfMemory};
use ds2_slots::set;
use ds2_value::Value;
use std::alloc::Global;

/// What a load sets: the row of a table that is read sets the slots of its columns, with no list made of it.
pub trait UnitLoad {
    /// Slots and their values, in order; of several values for one slot the last one stays.
    ghost settings: { Self → SlotSettings };

    /// Sets the slots.
    fn set_into(&self, alloc: Global, slots: &mut List<Value>) -> Result<(), OutOfMemory>
        ensures { OnOk result (slots.new ≡ with_slot_settings (settings self.now) slots.old) };
}

impl UnitLoad for List<(u32, Value)> {
    ghost settings = { λ list. list };

    fn set_into(&self, alloc: Global, slots: &mut List<Value>) -> Result<(), OutOfMemory> {
        set_all(alloc, slots, self.as_slice())
    }
}

// Sets slots to copies of values, in order.
#[tactic(auto, using(crate::proofs::KeptLemmas::set_more))]
fn set_all(
    alloc: Global,
    slots: &mut List<Value>,
    settings: &[(u32, Value)],
) -> Result<(), OutOfMemory>
    ensures { OnOk result (slots.new ≡ with_slot_settings settings.now slots.old) }
{
    for setting in settings {
        let value = setting.1.copy(alloc)?;
        set(slots, setting.0 as usize, value);
    }
    Ok(())
}
