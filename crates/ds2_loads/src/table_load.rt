//! A load by numbers of rows, as what it sets.
ghost use Rattle.std.specs.Prelude.{◌≡◌, ◌==◌, ◌%◌, ◌||◌, not, [], if◌then◌else◌, length, map, OnOk};
ghost use Rattle.ds2_reading.specs.LoadMeaning.{bits_of, load_meaning, row_or_none};
ghost use Rattle.ds2_code.specs.Desk.{with_slot_settings};
ghost use Rattle.ds2_slots.specs.LoadedHashes.{AreSlotTypesInBounds};
ghost use Rattle.ds2_code_answer.specs.CodeLoads.{slot_flag, column_nulls, table_nulls, row_of_table, settings_of_read, read_settings, in_flag_setting, in_flag_settings, by_flag_settings, first_flag_of, last_flag_of, load_settings};

use crate::columns::set_table_row;
use ds2_base::{List, OutOfMemory};
use ds2_code::Slot;
use ds2_reading::{ByKey, Load, ReadTable, Reading, Tables};
use ds2_slots::set;
use ds2_value::Value;
use std::alloc::Global;

/// A load of a reading statement over tables, by the numbers of its rows. It sets slots straight from the rows.
#[derive(Drop)]
pub struct TableLoad<'a> {
    pub slots: &'a [Slot],
    pub reading: &'a Reading,
    pub retains: bool,
    pub tables: &'a Tables,
    pub load: Load,
    ghost in_bounds: { AreSlotTypesInBounds slots.now },
}

impl TableLoad<'_> {
    /// Sets the slots of the columns of the statement's tables, and of its flags.
    pub fn set_slots(&self, alloc: Global, slots: &mut List<Value>) -> Result<(), OutOfMemory>
        ensures { OnOk result (slots.new ≡ with_slot_settings (load_settings self.now.slots.now self.now.reading.now self.now.retains self.now.tables.now
            (load_meaning (length self.now.reading.now.tables) (length self.now.reading.now.bys) self.now.load)) slots.old) }
    {
        let reads = self.reading.tables.as_slice();
        let bys = self.reading.bys.as_slice();
        let clears = clears_columns(self.retains, self.load.is_fresh);
        clear_where(clears, reads, slots);
        set_rows(
            alloc,
            self.slots,
            self.tables,
            reads,
            &self.load.rows,
            slots,
        )?;
        set_in_flags(reads, self.load.present, slots);
        set_first_flags(bys, self.load.first, slots);
        set_last_flags(bys, self.load.last, slots);
        Ok(())
    }
}

// Whether a load sets columns to null.
fn clears_columns(retains: bool, is_fresh: bool) -> bool
    ensures { result ≡ (not retains || is_fresh) }
{
    !retains || is_fresh
}

// Sets slots to null.
#[tactic(auto, using(crate::proofs::SettingLists::nulls_next))]
fn clear_slots(numbers: &[u32], slots: &mut List<Value>)
    ensures { slots.new ≡ with_slot_settings (column_nulls numbers.now) slots.old }
{
    'numbers: for number in numbers {
        set(slots, *number as usize, Value::Null);
    }
}

// Sets the slots of the columns of each table to null.
fn clear_tables(reads: &[ReadTable], slots: &mut List<Value>)
    ensures { slots.new ≡ with_slot_settings (table_nulls reads.now) slots.old }
{
    'reads: for read in reads {
        clear_slots(read.slots.as_slice(), slots);
    }
}

// Sets the slots of the columns of each table to null, where a load does.
fn clear_where(clears: bool, reads: &[ReadTable], slots: &mut List<Value>)
    ensures { slots.new ≡ with_slot_settings (if clears then table_nulls reads.now else []) slots.old }
{
    if clears {
        clear_tables(reads, slots);
    }
}

// Sets the columns of a table to the row of this number, where there is one.
fn set_row(
    alloc: Global,
    parts: &[Slot],
    tables: &Tables,
    read: &ReadTable,
    row: u64,
    slots: &mut List<Value>,
) -> Result<(), OutOfMemory>
    requires { AreSlotTypesInBounds parts.now }
    ensures { OnOk result (slots.new ≡ with_slot_settings (settings_of_read parts.now read.now.slots (row_of_table tables.now read.now.table (row_or_none row))) slots.old) }
{
    if row == u64::MAX {
        return Ok(());
    }
    let Some(table) = tables.get(read.table as usize) else {
        return Ok(());
    };
    set_table_row(
        alloc,
        parts,
        read.slots.as_slice(),
        table,
        row as usize,
        slots,
    )
}

// Sets the columns of each table to its row, where the load has one.
#[tactic(auto, using(crate::proofs::LoadSteps::rows_in_turn))]
fn set_rows(
    alloc: Global,
    parts: &[Slot],
    tables: &Tables,
    reads: &[ReadTable],
    rows: &[u64],
    slots: &mut List<Value>,
) -> Result<(), OutOfMemory>
    requires { AreSlotTypesInBounds parts.now }
    ensures { OnOk result (slots.new ≡ with_slot_settings (read_settings parts.now tables.now reads.now (map row_or_none rows.now)) slots.old) }
{
    'reads: for (number, read) in reads.iter().enumerate() {
        let Some(row) = rows.get(number) else {
            return Ok(());
        };
        set_row(alloc, parts, tables, read, *row, slots)?;
    }
    Ok(())
}

// A flag as a value.
fn flag_value(flag: bool) -> Value
    ensures { result ≡ slot_flag flag }
{
    if flag { Value::Int(1) } else { Value::Int(0) }
}

// The lowest bit of a number.
fn lowest_bit(bits: u16) -> bool
    ensures { result ≡ (bits % 2 == 1) }
{
    bits % 2 == 1
}

// Sets the `in=` flag of a table, where it has one.
fn set_in_flag(read: &ReadTable, flag: bool, slots: &mut List<Value>)
    ensures { slots.new ≡ with_slot_settings (in_flag_setting read.now.in_flag flag) slots.old }
{
    if let Some(number) = read.in_flag {
        set(slots, number as usize, flag_value(flag));
    }
}

// Sets the `in=` flags of tables.
#[tactic(auto, using(crate::proofs::SettingLists::settings_in_turn))]
fn set_in_flags(reads: &[ReadTable], present: u16, slots: &mut List<Value>)
    ensures { slots.new ≡ with_slot_settings (in_flag_settings reads.now (bits_of (length reads.now) present)) slots.old }
{
    let mut bits = present;
    let mut rest = reads;
    'reads: while let [read, after @ ..] = rest {
        set_in_flag(read, lowest_bit(bits), slots);
        bits /= 2;
        rest = after;
    }
}

// Sets the flags `first` of BY variables.
fn set_first_flags(bys: &[ByKey], first: u16, slots: &mut List<Value>)
    ensures { slots.new ≡ with_slot_settings (by_flag_settings first_flag_of bys.now (bits_of (length bys.now) first)) slots.old }
{
    let mut bits = first;
    let mut rest = bys;
    'bys: while let [by, after @ ..] = rest {
        set(slots, by.first as usize, flag_value(lowest_bit(bits)));
        bits /= 2;
        rest = after;
    }
}

// Sets the flags `last` of BY variables.
fn set_last_flags(bys: &[ByKey], last: u16, slots: &mut List<Value>)
    ensures { slots.new ≡ with_slot_settings (by_flag_settings last_flag_of bys.now (bits_of (length bys.now) last)) slots.old }
{
    let mut bits = last;
    let mut rest = bys;
    'bys: while let [by, after @ ..] = rest {
        set(slots, by.last as usize, flag_value(lowest_bit(bits)));
        bits /= 2;
        rest = after;
    }
}
