//! Calls of one iterator, whose object's data variables are slots.
ghost use Rattle.std.specs.Prelude.{◌≡◌, IfOk, OnOk};
ghost use Rattle.ds2_value.specs.HashList.{iterator_answer};
ghost use Rattle.ds2_hash.specs.Calls.{data_at, iteration_of};
ghost use Rattle.ds2_code.specs.HashCalls.{with_copied};

use crate::slots::set_values;
use ds2_base::{List, OutOfMemory};
use ds2_code::HashPart;
use ds2_hash::{HashObject, Hiter};
use ds2_value::{IteratorFunction, Value};
use std::alloc::Global;

// Moves an iterator, and tells whether there was an item to go to.
fn go(function: IteratorFunction, hiter: &mut Hiter, object: &HashObject) -> bool
    ensures { iterator_answer function object.now hiter.old.at ≡ iteration_of result hiter.new.at object.now }
{
    match function {
        IteratorFunction::First => hiter.first(object),
        IteratorFunction::Next => hiter.next(object),
        IteratorFunction::Prev => hiter.prev(object),
        IteratorFunction::Last => hiter.last(object),
    }
}

// Copies the data of the item at a position into the slots of the data variables.
#[tactic(auto, using(crate::proofs::Answered::copying))]
fn copy_item(
    alloc: Global,
    at: Option<u64>,
    object: &HashObject,
    part: &HashPart,
    slots: &mut List<Value>,
) -> Result<(), OutOfMemory>
    ensures { OnOk result (slots.new ≡ with_copied part.now (data_at at object.now) slots.old) }
{
    let Some(position) = at else {
        return Ok(());
    };
    let Some((_key, row)) = object.item(position) else {
        return Ok(());
    };
    set_values(alloc, slots, part.data_slots.as_slice(), row.as_slice())
}

/// Moves an iterator of an object, and copies the data of the item to which it goes; tells whether there was one.
pub fn step(
    alloc: Global,
    function: IteratorFunction,
    hiter: &mut Hiter,
    object: &HashObject,
    part: &HashPart,
    slots: &mut List<Value>,
) -> Result<bool, OutOfMemory>
    ensures moved { IfOk result (λ went. iterator_answer function object.now hiter.old.at ≡ iteration_of went hiter.new.at object.now) }
    ensures copied { IfOk result (λ went. slots.new ≡ with_copied part.now (iteration_of went hiter.new.at object.now).copied slots.old) }
{
    if !go(function, hiter, object) {
        return Ok(false);
    }
    copy_item(alloc, hiter.at, object, part, slots)?;
    Ok(true)
}
