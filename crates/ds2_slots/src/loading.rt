//! Hash objects that begin with the rows of tables.
ghost use Rattle.std.specs.Prelude.{◌≡◌, ◌+◌, ◌<◌, ◌≤◌, ◌^◌, [], IsTrue, IfOk, OnOk, List as Items, length, drop, get_or, slice_get};
ghost use Rattle.ds2_value.specs.Cell.{lent_value};
ghost use Rattle.ds2_value.specs.HashList.{hash_answer};
ghost use Rattle.ds2_value.specs.Operations.{or_null_at_fault};
ghost use Rattle.ds2_value.specs.Row.{Row as RowOf};
ghost use Rattle.ds2_value.specs.Types.{in_bounds, assign_of};
ghost use Rattle.ds2_value.specs.declared.hash_function.HashFunction.TheVariants as hash;
ghost use Rattle.ds2_code.specs.CodeUnit.{assigned_to_slot, columns_for, with_rows_added, opening_items, opening_hashes, further_tables};
ghost use Rattle.ds2_slots.specs.LoadedHashes.{AreSlotTypesInBounds, row_in_table};

use crate::tables::HashTables;
use ds2_base::{List, OutOfMemory, Stop};
use ds2_code::{HashPart, HashTable, Slot};
use ds2_hash::HashObject;
use ds2_value::{Cell, Row, Ty, Value};
use std::alloc::Global;

/// The hash objects of a program before its first unit, in order: each with the rows of its table, where it names one.
#[tactic(auto, using(crate::proofs::LoadedSteps::objects))]
pub fn load_objects<T: HashTables>(
    alloc: Global,
    slots: &[Slot],
    parts: &[HashPart],
    tables: &T,
) -> Result<List<HashObject>, OutOfMemory>
    requires { AreSlotTypesInBounds slots.now }
    ensures { IfOk result (λ list. list ≡ opening_hashes slots.now parts.now (T.tables tables.now)) }
{
    let mut list = List::new(alloc);
    let mut next: usize = 0;
    for part in parts {
        list.push(load_object(alloc, slots, part, tables, next)?)?;
        next = table_behind(part, next);
    }
    Ok(list)
}

// The number of the table for the objects behind this one.
#[tactic(auto, using(crate::proofs::LoadedSteps::behind))]
fn table_behind(part: &HashPart, next: usize) -> usize
    requires { next < 2 ^ 63 }
    ensures tables { (tables : Items (Items RowOf)) → drop result tables ≡ further_tables part.now.loaded (drop next tables) }
    ensures count { result ≤ next + 1 }
{
    match part.loaded {
        None => next,
        Some(_) => next + 1,
    }
}

// The object of a part, whose table is that of this number.
#[tactic(auto, using(crate::proofs::LoadedSteps::object))]
fn load_object<T: HashTables>(
    alloc: Global,
    slots: &[Slot],
    part: &HashPart,
    tables: &T,
    table: usize,
) -> Result<HashObject, OutOfMemory>
    requires { AreSlotTypesInBounds slots.now }
    ensures { IfOk result (λ object. object ≡ opening_items slots.now part.now part.now.loaded (drop table (T.tables tables.now))) }
{
    let mut object = HashObject::open(alloc, tables.key());
    let Some(loaded) = &part.loaded else {
        return Ok(object);
    };
    let Some(count) = tables.row_count(table) else {
        return Ok(object);
    };
    let from = LoadedTable {
        tables,
        number: table,
        columns: loaded,
    };
    add_rows(alloc, slots, part, &from, count, &mut object)?;
    Ok(object)
}

// The table that an object is loaded from, by its number, and the columns that the object takes of it.
#[derive(Drop)]
struct LoadedTable<'t, T: HashTables> {
    tables: &'t T,
    number: usize,
    columns: &'t HashTable,
}

// Adds the items of the rows of a table, so many, in order; a row whose key is present adds none.
#[tactic(auto, using(crate::proofs::LoadedSteps::rows))]
fn add_rows<T: HashTables>(
    alloc: Global,
    slots: &[Slot],
    part: &HashPart,
    from: &LoadedTable<'_, T>,
    count: usize,
    object: &mut HashObject,
) -> Result<(), OutOfMemory>
    requires bounds { AreSlotTypesInBounds slots.now }
    requires count { count ≡ length (get_or (T.tables from.now.tables.now) from.now.number []) }
    ensures { OnOk result (object.new ≡ with_rows_added slots.now part.now from.now.columns.now (get_or (T.tables from.now.tables.now) from.now.number []) object.old) }
{
    'rows: for row in 0..count {
        add_row(alloc, slots, part, from, row, object)?;
    }
    Ok(())
}

// Adds the item of a row of a table; none where its key is present.
fn add_row<T: HashTables>(
    alloc: Global,
    slots: &[Slot],
    part: &HashPart,
    from: &LoadedTable<'_, T>,
    row: usize,
    object: &mut HashObject,
) -> Result<(), OutOfMemory>
    requires { AreSlotTypesInBounds slots.now }
    ensures { let values = row_in_table (T.tables from.now.tables.now) from.now.number row in OnOk result (object.new ≡ (hash_answer hash.Add (columns_for slots.now part.now.key_slots from.now.columns.now.key_columns values) (columns_for slots.now part.now.data_slots from.now.columns.now.data_columns values) object.old).items) }
{
    let key = columns_for(
        alloc,
        slots,
        part.key_slots.as_slice(),
        from.columns.key_columns.as_slice(),
        from,
        row,
    )?;
    let item = columns_for(
        alloc,
        slots,
        part.data_slots.as_slice(),
        from.columns.data_columns.as_slice(),
        from,
        row,
    )?;
    let _added = object.add(key, item)?;
    Ok(())
}

// The columns of a row for slots, each value in the type of its slot.
#[tactic(auto, using(crate::proofs::LoadedSteps::columns))]
fn columns_for<T: HashTables>(
    alloc: Global,
    slots: &[Slot],
    numbers: &[u32],
    columns: &[u32],
    from: &LoadedTable<'_, T>,
    row: usize,
) -> Result<Row, OutOfMemory>
    requires { AreSlotTypesInBounds slots.now }
    ensures { IfOk result (λ list. list ≡ columns_for slots.now numbers.now columns.now (row_in_table (T.tables from.now.tables.now) from.now.number row)) }
{
    let mut list = List::new(alloc);
    for (place, number) in numbers.iter().enumerate() {
        let Some(column) = columns.get(place) else {
            return Ok(list);
        };
        let cell = from.tables.cell(from.number, row, *column as usize);
        let value = value_for(alloc, slots, *number as usize, &cell)?;
        list.push(value)?;
    }
    Ok(list)
}

// A value in the type of a slot; as it is where there is no such slot.
#[tactic(auto, using(crate::proofs::LoadedSteps::type_in_bounds))]
fn value_for(
    alloc: Global,
    slots: &[Slot],
    number: usize,
    value: &Cell<'_>,
) -> Result<Value, OutOfMemory>
    requires { AreSlotTypesInBounds slots.now }
    ensures { IfOk result (λ given. given ≡ assigned_to_slot (slice_get slots.now number) (lent_value value.now)) }
{
    match slots.get(number) {
        None => value.to_value(alloc),
        Some(slot) => assigned(alloc, value, slot.ty),
    }
}

// A value in a type to which it may be assigned; null where that faults.
fn assigned(alloc: Global, value: &Cell<'_>, ty: Ty) -> Result<Value, OutOfMemory>
    requires { IsTrue (in_bounds ty) }
    ensures { IfOk result (λ given. given ≡ or_null_at_fault (assign_of (lent_value value.now) ty)) }
{
    match value.assign(alloc, ty) {
        Ok(given) => Ok(given),
        Err(Stop::Refused(_fault)) => Ok(Value::Null),
        Err(Stop::OutOfMemory) => Err(OutOfMemory),
    }
}
