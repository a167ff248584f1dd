//! Values by the numbers of their slots, and slots before a unit.
ghost use Rattle.std.specs.Prelude.{◌≡◌, IfOk, OnOk, replicate, slice_get, slice_set};
ghost use Rattle.ds2_value.specs.Value.{or_null};
ghost use Rattle.ds2_value.specs.declared.value.Value.TheVariants.{Null};
ghost use Rattle.ds2_code.specs.CodeUnit.{without_cleared};
ghost use Rattle.ds2_code.specs.Desk.{values_of_slots, with_values_in};
ghost use Rattle.ds2_slots.specs.SlotSteps.{with_slot_cleared};

use ds2_base::{List, OutOfMemory};
use ds2_code::{Slot, SlotRole};
use ds2_value::{Row, Value};
use std::alloc::Global;

/// So many nulls.
#[tactic(auto, using(crate::proofs::SlotSteps::nulls_more))]
pub fn nulls(alloc: Global, n: usize) -> Result<List<Value>, OutOfMemory>
    ensures { IfOk result (λ list. list ≡ replicate n Null) }
{
    let mut list = List::new(alloc);
    list.reserve(n)?;
    for number in 0..n {
        list.push(Value::Null)?;
    }
    Ok(list)
}

/// The same values once more.
pub fn copy_all(alloc: Global, values: &[Value]) -> Result<List<Value>, OutOfMemory>
    ensures { IfOk result (λ list. list ≡ values.now) }
{
    let mut list = List::new(alloc);
    list.reserve(values.len())?;
    for value in values {
        list.push(value.copy(alloc)?)?;
    }
    Ok(list)
}

/// A copy of the value of this number, null where there is none.
#[inline]
pub fn copy_at(alloc: Global, values: &[Value], number: usize) -> Result<Value, OutOfMemory>
    ensures { IfOk result (λ value. value ≡ or_null (slice_get values.now number)) }
{
    match values.get(number) {
        None => Ok(Value::Null),
        Some(value) => value.copy(alloc),
    }
}

/// Sets an item; nothing where there is none of its number.
#[inline]
pub fn set(items: &mut List<Value>, number: usize, value: Value)
    ensures { items.new ≡ slice_set items.old number value }
{
    if number < items.len() {
        let _old = items.replace(number, value);
    }
}

/// Copies of the values of slots, in order, null where there is none.
pub fn values_at(alloc: Global, numbers: &[u32], slots: &[Value]) -> Result<Row, OutOfMemory>
    ensures { IfOk result (λ row. row ≡ values_of_slots numbers.now slots.now) }
{
    let mut row = List::new(alloc);
    row.reserve(numbers.len())?;
    for (place, number) in numbers.iter().enumerate() {
        let value = copy_at(alloc, slots, *number as usize)?;
        row.push(value)?;
    }
    Ok(row)
}

/// Sets slots to copies of values, in order.
#[tactic(auto, using(crate::proofs::SlotValues::setting))]
pub fn set_values(
    alloc: Global,
    slots: &mut List<Value>,
    numbers: &[u32],
    values: &[Value],
) -> Result<(), OutOfMemory>
    ensures { OnOk result (slots.new ≡ with_values_in numbers.now values.now slots.old) }
{
    for (place, number) in numbers.iter().enumerate() {
        let Some(value) = values.get(place) else {
            return Ok(());
        };
        set(slots, *number as usize, value.copy(alloc)?);
    }
    Ok(())
}

/// Sets the slots to null that `run` sets to null.
#[tactic(auto, using(crate::proofs::SlotSteps::clearing))]
pub fn clear(slots: &mut List<Value>, parts: &[Slot])
    ensures { slots.new ≡ without_cleared parts.now slots.old }
{
    for (number, part) in parts.iter().enumerate() {
        clear_one(slots, number, part.role);
    }
}

// Sets a slot to null where `run` does.
#[inline]
fn clear_one(slots: &mut List<Value>, number: usize, role: SlotRole)
    ensures { slots.new ≡ with_slot_cleared role number slots.old }
{
    match role {
        SlotRole::Cleared => set(slots, number, Value::Null),
        SlotRole::Kept | SlotRole::Column | SlotRole::Flag => {}
    }
}
