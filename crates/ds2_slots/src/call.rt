//! Calls of one hash object, whose variables are slots.
ghost use Rattle.std.specs.Prelude.{◌≡◌, [], IfOk};
ghost use Rattle.ds2_value.specs.HashList.{hash_answer};
ghost use Rattle.ds2_value.specs.declared.hash_function.HashFunction.TheVariants as hash;
ghost use Rattle.ds2_hash.specs.Calls.{call_code};
ghost use Rattle.ds2_code.specs.Desk.{values_of_slots};
ghost use Rattle.ds2_slots.specs.SlotHashes.{answer_by_slots, answer_without_data, HasGivenAnswer, meaning_of_shift};
ghost use Rattle.ds2_slots.specs.declared.shift.HashShift.TheVariants as shift;

use crate::shift::HashShift;
use crate::slots::{set_values, values_at};
use ds2_base::{List, OutOfMemory};
use ds2_code::HashPart;
use ds2_hash::{HashObject, code_of_call};
use ds2_value::{HashFunction, Row, Value};
use std::alloc::Global;

/// What a call gives: its code, and what becomes of the object's iterators.
#[derive(Drop)]
pub struct HashCall {
    pub code: Value,
    pub shift: HashShift,
}

// A call that did what was asked, or did not, and moves no iterator.
fn quiet(done: bool) -> HashCall
    ensures code { result.code ≡ call_code done }
    ensures shift { result.shift ≡ shift.Stays }
{
    HashCall {
        code: code_of_call(done),
        shift: HashShift::Stays,
    }
}

// The values of the key variables.
fn key_of(alloc: Global, part: &HashPart, slots: &[Value]) -> Result<Row, OutOfMemory>
    ensures { IfOk result (λ key. key ≡ values_of_slots part.now.key_slots slots.now) }
{
    values_at(alloc, part.key_slots.as_slice(), slots)
}

// The values of the data variables.
fn data_of(alloc: Global, part: &HashPart, slots: &[Value]) -> Result<Row, OutOfMemory>
    ensures { IfOk result (λ row. row ≡ values_of_slots part.now.data_slots slots.now) }
{
    values_at(alloc, part.data_slots.as_slice(), slots)
}

// The data of the item with a key go into the slots of the data variables.
#[tactic(auto, using(crate::proofs::Answered::finding))]
fn find_key(
    alloc: Global,
    part: &HashPart,
    slots: &mut List<Value>,
    object: &HashObject,
    key: &Row,
) -> Result<HashCall, OutOfMemory>
    ensures { IfOk result (λ called. HasGivenAnswer part.now slots.old slots.new object.now called.code (meaning_of_shift called.shift) (hash_answer hash.Find key.now [] object.now)) }
{
    let Some(row) = object.find(key) else {
        return Ok(quiet(false));
    };
    set_values(alloc, slots, part.data_slots.as_slice(), row.as_slice())?;
    Ok(quiet(true))
}

// `find`.
fn find(
    alloc: Global,
    part: &HashPart,
    slots: &mut List<Value>,
    object: &HashObject,
) -> Result<HashCall, OutOfMemory>
    ensures { IfOk result (λ called. HasGivenAnswer part.now slots.old slots.new object.now called.code (meaning_of_shift called.shift) (answer_by_slots hash.Find part.now slots.old object.now)) }
{
    let key = key_of(alloc, part, slots.as_slice())?;
    find_key(alloc, part, slots, object, &key)
}

// `check`.
fn check(
    alloc: Global,
    part: &HashPart,
    slots: &[Value],
    object: &HashObject,
) -> Result<HashCall, OutOfMemory>
    ensures { IfOk result (λ called. answer_by_slots hash.Check part.now slots.now object.now ≡ answer_without_data called.code object.now (meaning_of_shift called.shift)) }
{
    let key = key_of(alloc, part, slots)?;
    Ok(quiet(object.check(&key)))
}

// `add`.
fn add(
    alloc: Global,
    part: &HashPart,
    slots: &[Value],
    object: &mut HashObject,
) -> Result<HashCall, OutOfMemory>
    ensures { IfOk result (λ called. answer_by_slots hash.Add part.now slots.now object.old ≡ answer_without_data called.code object.new (meaning_of_shift called.shift)) }
{
    let key = key_of(alloc, part, slots)?;
    let row = data_of(alloc, part, slots)?;
    let added = object.add(key, row)?;
    Ok(quiet(added))
}

// `replace`.
fn replace(
    alloc: Global,
    part: &HashPart,
    slots: &[Value],
    object: &mut HashObject,
) -> Result<HashCall, OutOfMemory>
    ensures { IfOk result (λ called. answer_by_slots hash.Replace part.now slots.now object.old ≡ answer_without_data called.code object.new (meaning_of_shift called.shift)) }
{
    let key = key_of(alloc, part, slots)?;
    let row = data_of(alloc, part, slots)?;
    object.replace(key, row)?;
    Ok(quiet(true))
}

// `remove`.
fn remove(
    alloc: Global,
    part: &HashPart,
    slots: &[Value],
    object: &mut HashObject,
) -> Result<HashCall, OutOfMemory>
    ensures { IfOk result (λ called. answer_by_slots hash.Remove part.now slots.now object.old ≡ answer_without_data called.code object.new (meaning_of_shift called.shift)) }
{
    let key = key_of(alloc, part, slots)?;
    match object.remove(&key) {
        None => Ok(quiet(false)),
        Some(position) => Ok(HashCall {
            code: code_of_call(true),
            shift: HashShift::Closes(position),
        }),
    }
}

// `clear`.
fn clear(object: &mut HashObject) -> HashCall
    ensures { hash_answer hash.Clear [] [] object.old ≡ answer_without_data result.code object.new (meaning_of_shift result.shift) }
{
    object.clear();
    HashCall {
        code: code_of_call(true),
        shift: HashShift::Empties,
    }
}

// `num_items`.
fn count(object: &HashObject) -> HashCall
    ensures { hash_answer hash.NumItems [] [] object.now ≡ answer_without_data result.code object.now (meaning_of_shift result.shift) }
{
    HashCall {
        code: Value::Int(object.num_items() as i64),
        shift: HashShift::Stays,
    }
}

/// Calls an object, whose key and data variables are the slots of its part.
#[tactic(auto, using(crate::proofs::Answered::unchanged))]
pub fn call_object(
    alloc: Global,
    function: HashFunction,
    part: &HashPart,
    slots: &mut List<Value>,
    object: &mut HashObject,
) -> Result<HashCall, OutOfMemory>
    ensures { IfOk result (λ called. HasGivenAnswer part.now slots.old slots.new object.new called.code (meaning_of_shift called.shift) (answer_by_slots function part.now slots.old object.old)) }
{
    match function {
        HashFunction::Find => find(alloc, part, slots, object),
        HashFunction::Check => check(alloc, part, slots.as_slice(), object),
        HashFunction::Add => add(alloc, part, slots.as_slice(), object),
        HashFunction::Replace => replace(alloc, part, slots.as_slice(), object),
        HashFunction::Remove => remove(alloc, part, slots.as_slice(), object),
        HashFunction::Clear => Ok(clear(object)),
        HashFunction::NumItems => Ok(count(object)),
    }
}
