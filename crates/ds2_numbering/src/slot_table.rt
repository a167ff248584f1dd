//! The slots of a program, each found by its location.
ghost use Rattle.std.specs.Prelude.{◌≡◌, IfOk, OnOk, map};
ghost use Rattle.std.specs.HashMap.{get};
ghost use Rattle.ds2_layout.specs.Layout.{location_of_slot};
ghost use Rattle.ds2_program_code.specs.PlacedProgram.{number_of_location};
ghost use Rattle.ds2_numbering.specs.declared.sought.Sought.{Sought as SoughtModel};
ghost use Rattle.ds2_numbering.specs.Searching.{first_or_this};
ghost use Rattle.ds2_numbering.specs.SoughtKeys.{is_one_sought};
ghost use Rattle.ds2_numbering.specs.SoughtLocations.{location_sought};
ghost use Rattle.ds2_numbering.specs.SlotNumbers.{AreNumbered};

use crate::sought::Sought;
use crate::sums::sum;
use ds2_base::OutOfMemory;
use ds2_layout::LayoutSlot;
use std::alloc::Global;
use std::collections::HashMap;
use std::marker::Model;

/// The slots of a program, with the number of the first slot of each location by its hash. A contract sees the slots.
#[derive(Drop)]
pub struct SlotTable<'p> {
    slots: &'p [LayoutSlot],
    numbers: HashMap<Sought<'p>, u32>,
}

impl<'p> Model for SlotTable<'p> {
    ghost use Rattle.std.specs.Prelude.{List as Items};
    ghost use Rattle.ds2_layout.specs.declared.slot.LayoutSlot.{LayoutSlot as SlotModel};

    ghost Value = { Items SlotModel };

    ghost use Rattle.ds2_numbering.specs.SlotNumbers.{AreNumbered};

    ghost view = { λ t. t.slots.now };

    ghost invariant = { λ t. AreNumbered t.slots.now t.numbers };
}

// Gives a location its number, unless it has one.
fn give_number<'p>(
    numbers: &mut HashMap<Sought<'p>, u32>,
    location: Sought<'p>,
    number: u32,
) -> Result<(), OutOfMemory>
    ensures { OnOk result ((s : SoughtModel) → get is_one_sought numbers.new s ≡ first_or_this (get is_one_sought numbers.old s) (is_one_sought s location.entry) number) }
{
    if !numbers.contains_key(&location) {
        numbers.insert(location, number)?;
    }
    Ok(())
}

// The number of each slot's location, the first where it has more; want of memory where there are 2 ^ 32 slots.
fn number_slots<'p>(
    alloc: Global,
    slots: &'p [LayoutSlot],
) -> Result<HashMap<Sought<'p>, u32>, OutOfMemory>
    ensures { IfOk result (λ numbers. AreNumbered slots.now numbers) }
{
    let mut numbers: HashMap<Sought<'p>, u32> = HashMap::new(alloc);
    let mut seen: u32 = 0;
    'slots: for slot in slots {
        give_number(&mut numbers, Sought::slot(slot), seen)?;
        seen = sum(seen, 1)?;
    }
    Ok(numbers)
}

impl<'p> SlotTable<'p> {
    /// These slots; want of memory also where there are 2 ^ 32.
    pub fn new(alloc: Global, slots: &'p [LayoutSlot]) -> Result<SlotTable<'p>, OutOfMemory>
        ensures { IfOk result (λ table. table ≡ slots.now) }
    {
        let numbers = number_slots(alloc, slots)?;
        Ok(SlotTable { slots, numbers })
    }

    /// The slots in order.
    pub fn as_slice(&self) -> &[LayoutSlot]
        ensures { result.now ≡ self.now }
    {
        self.slots
    }

    /// The number of the first slot of a location.
    pub fn number(&self, sought: &Sought<'_>) -> Option<u32>
        ensures { result ≡ number_of_location (map location_of_slot self.now) (location_sought sought.now) }
    {
        self.numbers.get(sought).copied()
    }
}
