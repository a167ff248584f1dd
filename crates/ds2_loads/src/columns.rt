//! Slots that are set from the row of a table.
ghost use Rattle.std.specs.Prelude.{◌≡◌, ◌<◌, [], IsTrue, IfOk, OnOk, length, get_or, slice_get, slice_set};
ghost use Rattle.ds2_value.specs.Cell.{lent_value};
ghost use Rattle.ds2_value.specs.Operations.{or_null_at_fault};
ghost use Rattle.ds2_value.specs.Types.{in_bounds, fits, assign_of};
ghost use Rattle.ds2_table.specs.Table.{table_value};
ghost use Rattle.ds2_code.specs.CodeUnit.{assigned_to_slot, row_slot_settings};
ghost use Rattle.ds2_code.specs.Desk.{with_slot_settings};
ghost use Rattle.ds2_slots.specs.LoadedHashes.{AreSlotTypesInBounds};
ghost use Rattle.ds2_code_answer.specs.CodeLoads.{settings_of_read};
ghost use Rattle.ds2_loads.specs.Unchanged.{takes_as_it_is};

use ds2_base::{List, OutOfMemory, Stop};
use ds2_code::Slot;
use ds2_slots::set;
use ds2_table::Table;
use ds2_value::{Cell, Ty, Value};
use std::alloc::Global;

// A value in a type to which it may be assigned; null where that faults.
#[inline]
fn assigned(alloc: Global, value: &Cell<'_>, ty: Ty) -> Result<Value, OutOfMemory>
    requires { IsTrue (in_bounds ty) }
    ensures { IfOk result (λ given. given ≡ or_null_at_fault (assign_of (lent_value value.now) ty)) }
{
    // A whole number is most of what tables have, and needs no rounding.
    if let (Cell::Int(i), Ty::BigInt) = (value, ty) {
        return Ok(Value::Int(*i));
    }
    match value.assign(alloc, ty) {
        Ok(given) => Ok(given),
        Err(Stop::Refused(_fault)) => Ok(Value::Null),
        Err(Stop::OutOfMemory) => Err(OutOfMemory),
    }
}

// A value in the type of a slot; as it is where there is no such slot.
#[inline]
#[tactic(auto, using(crate::proofs::SlotTypes::type_within))]
fn value_for(
    alloc: Global,
    parts: &[Slot],
    number: usize,
    value: &Cell<'_>,
) -> Result<Value, OutOfMemory>
    requires { AreSlotTypesInBounds parts.now }
    ensures { IfOk result (λ given. given ≡ assigned_to_slot (slice_get parts.now number) (lent_value value.now)) }
{
    match parts.get(number) {
        None => value.to_value(alloc),
        Some(slot) => assigned(alloc, value, slot.ty),
    }
}

// Sets a slot to a value in its type.
#[inline]
fn set_column(
    alloc: Global,
    parts: &[Slot],
    number: u32,
    value: &Cell<'_>,
    slots: &mut List<Value>,
) -> Result<(), OutOfMemory>
    requires { AreSlotTypesInBounds parts.now }
    ensures { OnOk result (slots.new ≡ slice_set slots.old number (assigned_to_slot (slice_get parts.now number) (lent_value value.now))) }
{
    let given = value_for(alloc, parts, number as usize, value)?;
    set(slots, number as usize, given);
    Ok(())
}

/// Sets the slots of columns to the values of a row, each in the type of its slot. The last column comes first, so that of several
/// columns with one slot the first one stays.
#[tactic(auto, using(crate::proofs::SettingLists::columns_in_turn))]
pub fn set_columns(
    alloc: Global,
    parts: &[Slot],
    numbers: &[u32],
    row: &[Value],
    slots: &mut List<Value>,
) -> Result<(), OutOfMemory>
    requires { AreSlotTypesInBounds parts.now }
    ensures { OnOk result (slots.new ≡ with_slot_settings (row_slot_settings parts.now numbers.now row.now) slots.old) }
{
    let mut column = numbers.len().min(row.len());
    'columns: while column > 0 {
        column -= 1;
        let cell = row[column].as_cell();
        set_column(alloc, parts, numbers[column], &cell, slots)?;
    }
    Ok(())
}

// Whether a type takes each value of another one as it is.
#[inline]
fn takes_as_it_is(to: Ty, from: Ty) -> bool
    ensures { result ≡ takes_as_it_is to from }
{
    match (to, from) {
        (Ty::BigInt, Ty::BigInt) => true,
        (Ty::Decimal { p, s }, Ty::Decimal { p: q, s: t }) => q <= p && s == t,
        (Ty::Char { n }, Ty::Char { n: m }) => n == m,
        (Ty::Varchar { n }, Ty::Char { n: m }) => m <= n,
        (Ty::Varchar { n }, Ty::Varchar { n: m }) => m <= n,
        _ => false,
    }
}

// A value of one type in another one; null where that faults.
#[inline]
fn brought(alloc: Global, value: &Cell<'_>, from: Ty, to: Ty) -> Result<Value, OutOfMemory>
    requires fit { IsTrue (fits (lent_value value.now) from) }
    requires bounds { IsTrue (in_bounds to) }
    ensures { IfOk result (λ given. given ≡ or_null_at_fault (assign_of (lent_value value.now) to)) }
{
    if takes_as_it_is(to, from) {
        value.to_value(alloc)
    } else {
        assigned(alloc, value, to)
    }
}

// A value of a column of this type in the type of a slot; as it is where there is no such slot.
#[inline]
#[tactic(auto, using(crate::proofs::SlotTypes::type_within))]
fn column_value(
    alloc: Global,
    parts: &[Slot],
    number: usize,
    ty: Ty,
    value: &Cell<'_>,
) -> Result<Value, OutOfMemory>
    requires bounds { AreSlotTypesInBounds parts.now }
    requires fit { IsTrue (fits (lent_value value.now) ty) }
    ensures { IfOk result (λ given. given ≡ assigned_to_slot (slice_get parts.now number) (lent_value value.now)) }
{
    match parts.get(number) {
        None => value.to_value(alloc),
        Some(slot) => brought(alloc, value, ty, slot.ty),
    }
}

// The value of a table in a row and a column, in the type of a slot.
#[inline]
fn cell_for(
    alloc: Global,
    parts: &[Slot],
    number: usize,
    table: &Table,
    row: usize,
    column: usize,
) -> Result<Value, OutOfMemory>
    requires { AreSlotTypesInBounds parts.now }
    ensures { IfOk result (λ given. given ≡ assigned_to_slot (slice_get parts.now number) (table_value table.now.rows row column)) }
{
    table.is_table();
    let value = table.cell(row, column);
    match table.schema().columns().get(column) {
        None => value_for(alloc, parts, number, &value),
        Some(described) => column_value(alloc, parts, number, described.ty, &value),
    }
}

// Sets the slots of columns to the values of a row that a table has, the last column first.
#[tactic(auto, using(crate::proofs::SettingLists::columns_in_turn))]
fn set_cells(
    alloc: Global,
    parts: &[Slot],
    numbers: &[u32],
    table: &Table,
    row: usize,
    slots: &mut List<Value>,
) -> Result<(), OutOfMemory>
    requires bounds { AreSlotTypesInBounds parts.now }
    requires row { row < length table.now.rows }
    ensures { OnOk result (slots.new ≡ with_slot_settings (row_slot_settings parts.now numbers.now (get_or table.now.rows row [])) slots.old) }
{
    let width = table.width();
    let mut column = numbers.len().min(width);
    'columns: while column > 0 {
        column -= 1;
        let number = numbers[column] as usize;
        let given = cell_for(alloc, parts, number, table, row, column)?;
        set(slots, number, given);
    }
    Ok(())
}

/// Sets the slots of columns to the values of a table's row, as [`set_columns`] does; a row that is not there sets none.
#[tactic(auto, using(crate::proofs::SettingLists::table_rows))]
pub(crate) fn set_table_row(
    alloc: Global,
    parts: &[Slot],
    numbers: &[u32],
    table: &Table,
    row: usize,
    slots: &mut List<Value>,
) -> Result<(), OutOfMemory>
    requires { AreSlotTypesInBounds parts.now }
    ensures { OnOk result (slots.new ≡ with_slot_settings (settings_of_read parts.now numbers.now (slice_get table.now.rows row)) slots.old) }
{
    if row >= table.len() {
        return Ok(());
    }
    set_cells(alloc, parts, numbers, table, row, slots)?;
    Ok(())
}
