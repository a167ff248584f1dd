//! The numbers of slots, and the projections of outputs.
ghost use Rattle.std.specs.Prelude.{◌≡◌, ◌++◌, ℕ, List as Items, IfOk, OnOk, Some, None, bytes_eq, if◌then◌else◌, map, unwrap_or};
ghost use Rattle.std.specs.HashMap.{get_by_text};
ghost use Rattle.ds2_meaning.specs.declared.location.Global.TheVariants.{Named};
ghost use Rattle.ds2_meaning.specs.Location.{is_same_global, is_same_location};
ghost use Rattle.ds2_meaning.specs.ProgramTree.{sources};
ghost use Rattle.ds2_layout.specs.Layout.{location_of_slot, slot_at};
ghost use Rattle.ds2_layout.specs.SlotSearch.{earlier_number, own_variable, projection_by};

use crate::LayoutSlot;
use ds2_base::{List, Name, OutOfMemory};
use ds2_meaning::OutputTable;
use std::alloc::Global;
use std::collections::HashMap;

// Gives a name its number, unless it has one.
fn give_number(
    alloc: Global,
    numbers: &mut HashMap<String, u32>,
    name: &Name,
    number: u32,
) -> Result<(), OutOfMemory>
    ensures { OnOk result ((other : Items ℕ) → get_by_text numbers.new other ≡ earlier_number (get_by_text numbers.old other) (if bytes_eq name.now other then Some number else None)) }
{
    if numbers.get(name.as_str()).is_none() {
        let key = String::from_str(alloc, name.as_str())?;
        numbers.insert(key, number)?;
    }
    Ok(())
}

// Gives a variable its number, unless one of its name has one; a flag or a parameter gets none.
#[tactic(auto, using(crate::proofs::LayoutLemmas::earlier_none))]
fn number_global(
    alloc: Global,
    numbers: &mut HashMap<String, u32>,
    global: &ds2_meaning::Global,
    number: u32,
) -> Result<(), OutOfMemory>
    ensures { OnOk result ((other : Items ℕ) → get_by_text numbers.new other ≡ earlier_number (get_by_text numbers.old other) (if is_same_global global.now (Named other) then Some number else None)) }
{
    match global {
        ds2_meaning::Global::Named(name) => give_number(alloc, numbers, name, number),
        ds2_meaning::Global::First(_) => Ok(()),
        ds2_meaning::Global::Last(_) => Ok(()),
        ds2_meaning::Global::Present(_) => Ok(()),
        ds2_meaning::Global::Parameter(_) => Ok(()),
    }
}

// Gives the variable of a slot its number; that of an instance gets none.
#[tactic(auto, using(crate::proofs::LayoutLemmas::earlier_none))]
fn number_slot(
    alloc: Global,
    numbers: &mut HashMap<String, u32>,
    slot: &LayoutSlot,
    number: u32,
) -> Result<(), OutOfMemory>
    ensures { OnOk result ((other : Items ℕ) → get_by_text numbers.new other ≡ earlier_number (get_by_text numbers.old other) (if is_same_location (location_of_slot slot.now) (own_variable other) then Some number else None)) }
{
    match &slot.instance {
        None => number_global(alloc, numbers, &slot.global, number),
        Some(_) => Ok(()),
    }
}

/// The number of each variable of the program itself, the first where there are more of its name. Wants memory for more than 2 ^ 32
/// slots.
pub(crate) fn number_slots(
    alloc: Global,
    slots: &[LayoutSlot],
) -> Result<HashMap<String, u32>, OutOfMemory>
    ensures { IfOk result (λ numbers. (other : Items ℕ) → get_by_text numbers other ≡ slot_at slots.now (own_variable other)) }
{
    let mut numbers: HashMap<String, u32> = HashMap::new(alloc);
    let mut at: u32 = 0;
    'slots: for slot in slots {
        if at == u32::MAX {
            return Err(OutOfMemory);
        }
        number_slot(alloc, &mut numbers, slot, at)?;
        at += 1;
    }
    Ok(numbers)
}

// The number of a name, 0 where it has none.
fn number_of(numbers: &HashMap<String, u32>, name: &Name) -> u32
    ensures { result ≡ unwrap_or (get_by_text numbers.now name.now) 0 }
{
    numbers.get(name.as_str()).copied().unwrap_or(0)
}

// For each column of an output the number of its variable.
fn projection(
    alloc: Global,
    numbers: &HashMap<String, u32>,
    output: &OutputTable,
) -> Result<List<u32>, OutOfMemory>
    ensures { IfOk result (λ slots. slots ≡ projection_by (get_by_text numbers.now) output.now) }
{
    let mut slots = List::new(alloc);
    'columns: for column in output.columns.as_slice() {
        slots.push(number_of(numbers, &column.source))?;
    }
    Ok(slots)
}

/// The projections of outputs, by the numbers of variables.
pub(crate) fn projections(
    alloc: Global,
    numbers: &HashMap<String, u32>,
    outputs: &[OutputTable],
) -> Result<List<List<u32>>, OutOfMemory>
    ensures { IfOk result (λ all. all ≡ map (projection_by (get_by_text numbers.now)) outputs.now) }
{
    let mut all = List::new(alloc);
    'outputs: for output in outputs {
        all.push(projection(alloc, numbers, output)?)?;
    }
    Ok(all)
}
