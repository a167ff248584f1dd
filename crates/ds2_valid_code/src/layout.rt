//! Whether slots and layout fit the tables, and the thread program where there is one.
ghost use Rattle.std.specs.Prelude.{◌≡◌, IfOk, true, false, not, ℕ, List as Items, map, slice_get};
ghost use Rattle.ds2_value.specs.Types.{same_ty};
ghost use Rattle.std.specs.List.{list_all};
ghost use Rattle.std.specs.Option.{option_map, option_map_or, is_some};
ghost use Rattle.ds2_value.specs.declared.schema.Column.{Column as ColumnModel};
ghost use Rattle.ds2_value.specs.declared.ty.Ty.TheVariants.{BigInt};
ghost use Rattle.ds2_code.specs.declared.parts.ByPart.{ByPart as ByPartModel};
ghost use Rattle.ds2_code.specs.declared.parts.HashPart.{HashPart as HashPartModel};
ghost use Rattle.ds2_code.specs.OperandTypes.{slot_type};
ghost use Rattle.ds2_code.specs.ValidCode.{joins_to_slot, columns_fit, is_flag_slot, is_among_numbers, read_fits, by_fits, chosen_columns_fit, hash_table_fits, output_fits, output_types, types_fit, one_output_fits, stage_fits, tables_fit, reading_fits, layout_fits, outputs_differ};

use crate::names::{columns_differ, names_differ};
use ds2_base::{Name, OutOfMemory};
use ds2_code::{
    ByPart, HashPart, HashTable, OutputPart, ProgramParts, ReadPart, ReadingPart, Slot,
};
use ds2_value::{Column, Ty, join_types};
use std::alloc::Global;

pub(crate) fn same_ty(a: Ty, b: Ty) -> bool
    ensures { result ≡ same_ty a b }
{
    match (a, b) {
        (Ty::BigInt, Ty::BigInt) => true,
        (Ty::Decimal { p, s }, Ty::Decimal { p: q, s: t }) => p == q && s == t,
        (Ty::Char { n }, Ty::Char { n: m }) => n == m,
        (Ty::Varchar { n }, Ty::Varchar { n: m }) => n == m,
        _ => false,
    }
}

// The type of a slot that is there.
pub(crate) fn slot_type(slots: &[Slot], n: u32) -> Option<Ty>
    ensures { result ≡ slot_type slots.now n }
{
    match slots.get(n as usize) {
        None => None,
        Some(slot) => Some(slot.ty),
    }
}

fn column_type(columns: &[Column], n: u32) -> Option<Ty>
    ensures { result ≡ option_map (λ (c : ColumnModel). c.ty) (slice_get columns.now n) }
{
    match columns.get(n as usize) {
        None => None,
        Some(column) => Some(column.ty),
    }
}

// Whether a type that is there joins with that of a slot that is there to the slot's type.
fn joins_to_slot(ty: Option<Ty>, slot: Option<Ty>) -> bool
    ensures { result ≡ joins_to_slot ty slot }
{
    let Some(t) = ty else {
        return false;
    };
    let Some(s) = slot else {
        return false;
    };
    match join_types(t, s) {
        None => false,
        Some(joined) => same_ty(s, joined),
    }
}

fn columns_fit(slots: &[Slot], columns: &[Column], into: &[u32]) -> bool
    ensures { result ≡ columns_fit slots.now columns.now into.now }
{
    let mut rest = columns;
    let mut left = into;
    'columns: while let [column, after @ ..] = rest {
        let [slot, more @ ..] = left else {
            return false;
        };
        if !joins_to_slot(Some(column.ty), slot_type(slots, *slot)) {
            return false;
        }
        rest = after;
        left = more;
    }
    left.is_empty()
}

fn chosen_columns_fit(slots: &[Slot], columns: &[Column], chosen: &[u32], into: &[u32]) -> bool
    ensures { result ≡ chosen_columns_fit slots.now columns.now chosen.now into.now }
{
    let mut rest = chosen;
    let mut left = into;
    'columns: while let [column, after @ ..] = rest {
        let [slot, more @ ..] = left else {
            return false;
        };
        if !joins_to_slot(column_type(columns, *column), slot_type(slots, *slot)) {
            return false;
        }
        rest = after;
        left = more;
    }
    left.is_empty()
}

// Whether the columns of an output, by the slots of the program that makes it, join with slots.
fn output_columns_fit(slots: &[Slot], made: &[Slot], columns: &[(Name, u32)], into: &[u32]) -> bool
    ensures { result ≡ types_fit slots.now (map (λ (c : Items ℕ × ℕ). slot_type made.now c.1) columns.now) into.now }
{
    let mut rest = columns;
    let mut left = into;
    'columns: while let [column, after @ ..] = rest {
        let [slot, more @ ..] = left else {
            return false;
        };
        if !joins_to_slot(slot_type(made, column.1), slot_type(slots, *slot)) {
            return false;
        }
        rest = after;
        left = more;
    }
    left.is_empty()
}

fn is_flag_slot(slots: &[Slot], n: u32) -> bool
    ensures { result ≡ is_flag_slot slots.now n }
{
    match slot_type(slots, n) {
        None => false,
        Some(ty) => same_ty(Ty::BigInt, ty),
    }
}

fn is_flag(slots: &[Slot], present: Option<u32>) -> bool
    ensures { result ≡ option_map_or (is_flag_slot slots.now) present true }
{
    match present {
        None => true,
        Some(n) => is_flag_slot(slots, n),
    }
}

fn is_among_numbers(n: u32, numbers: &[u32]) -> bool
    ensures { result ≡ is_among_numbers n numbers.now }
{
    numbers.iter().any(|k| n == *k)
}

fn bys_are_read(bys: &[ByPart], slots: &[u32]) -> bool
    ensures { result ≡ list_all (λ (by : ByPartModel). is_among_numbers by.slot slots.now) bys.now }
{
    bys.iter().all(|by| is_among_numbers(by.slot, slots))
}

fn read_fits(
    alloc: Global,
    slots: &[Slot],
    bys: &[ByPart],
    read: &ReadPart,
) -> Result<bool, OutOfMemory>
    ensures { IfOk result (λ fits. fits ≡ read_fits slots.now bys.now read.now) }
{
    let differ = columns_differ(alloc, read.table.columns.as_slice())?;
    Ok(
        columns_fit(slots, read.table.columns.as_slice(), read.slots.as_slice())
            && differ
            && is_flag(slots, read.present)
            && bys_are_read(bys, read.slots.as_slice()),
    )
}

fn reads_fit(
    alloc: Global,
    slots: &[Slot],
    bys: &[ByPart],
    reads: &[ReadPart],
) -> Result<bool, OutOfMemory>
    ensures { IfOk result (λ fit. fit ≡ list_all (read_fits slots.now bys.now) reads.now) }
{
    let mut rest = reads;
    'reads: while let [read, after @ ..] = rest {
        if !read_fits(alloc, slots, bys, read)? {
            return Ok(false);
        }
        rest = after;
    }
    Ok(true)
}

fn by_fits(slots: &[Slot], by: &ByPart) -> bool
    ensures { result ≡ by_fits slots.now by.now }
{
    is_flag_slot(slots, by.first) && is_flag_slot(slots, by.last)
}

fn bys_fit(slots: &[Slot], bys: &[ByPart]) -> bool
    ensures { result ≡ list_all (by_fits slots.now) bys.now }
{
    bys.iter().all(|by| by_fits(slots, by))
}

fn tables_fit(
    alloc: Global,
    slots: &[Slot],
    reads: &[ReadPart],
    bys: &[ByPart],
) -> Result<bool, OutOfMemory>
    ensures { IfOk result (λ fit. fit ≡ tables_fit slots.now reads.now bys.now) }
{
    let reads_are = reads_fit(alloc, slots, bys, reads)?;
    Ok(reads_are && bys_fit(slots, bys))
}

fn one_output_fits(slots: &[Slot], stage: &ProgramParts, into: &[u32]) -> bool
    ensures { result ≡ one_output_fits slots.now stage.now.slots stage.now.outputs into.now }
{
    match stage.outputs.as_slice() {
        [] => false,
        [output] => output_columns_fit(
            slots,
            stage.slots.as_slice(),
            output.columns.as_slice(),
            into,
        ),
        [_, _, ..] => false,
    }
}

// The thread program is the first of these.
fn stage_fits(slots: &[Slot], stages: &[ProgramParts], into: &[u32]) -> bool
    ensures { result ≡ stage_fits slots.now (slice_get stages.now 0) into.now }
{
    match stages {
        [] => false,
        [stage, ..] => one_output_fits(slots, stage, into),
    }
}

fn without_tables_fits(stages: &[ProgramParts]) -> bool
    ensures { result ≡ not (is_some (slice_get stages.now 0)) }
{
    match stages {
        [] => true,
        [_, ..] => false,
    }
}

fn reading_fits(
    alloc: Global,
    slots: &[Slot],
    stages: &[ProgramParts],
    reading: &ReadingPart,
) -> Result<bool, OutOfMemory>
    ensures { IfOk result (λ fits. fits ≡ reading_fits slots.now (slice_get stages.now 0) reading.now) }
{
    match reading {
        ReadingPart::Once => Ok(without_tables_fits(stages)),
        ReadingPart::Nothing => Ok(without_tables_fits(stages)),
        ReadingPart::Set { tables, bys } => {
            let fit = tables_fit(alloc, slots, tables.as_slice(), bys.as_slice())?;
            Ok(without_tables_fits(stages) && fit)
        }
        ReadingPart::Merge { tables, bys, .. } => {
            let fit = tables_fit(alloc, slots, tables.as_slice(), bys.as_slice())?;
            Ok(without_tables_fits(stages) && fit)
        }
        ReadingPart::Stage { slots: into, .. } => Ok(stage_fits(slots, stages, into.as_slice())),
    }
}

fn hash_table_fits(
    alloc: Global,
    slots: &[Slot],
    hash: &HashPart,
    loaded: &HashTable,
) -> Result<bool, OutOfMemory>
    ensures { IfOk result (λ fits. fits ≡ hash_table_fits slots.now hash.now loaded.now) }
{
    let columns = loaded.table.columns.as_slice();
    let differ = columns_differ(alloc, columns)?;
    Ok(
        differ
            && chosen_columns_fit(
                slots,
                columns,
                loaded.key_columns.as_slice(),
                hash.key_slots.as_slice(),
            )
            && chosen_columns_fit(
                slots,
                columns,
                loaded.data_columns.as_slice(),
                hash.data_slots.as_slice(),
            ),
    )
}

fn hash_fits(alloc: Global, slots: &[Slot], hash: &HashPart) -> Result<bool, OutOfMemory>
    ensures { IfOk result (λ fits. fits ≡ option_map_or (hash_table_fits slots.now hash.now) hash.now.loaded true) }
{
    match &hash.loaded {
        None => Ok(true),
        Some(loaded) => hash_table_fits(alloc, slots, hash, loaded),
    }
}

fn hashes_fit(alloc: Global, slots: &[Slot], hashes: &[HashPart]) -> Result<bool, OutOfMemory>
    ensures { IfOk result (λ fit. fit ≡ list_all (λ (hash : HashPartModel). option_map_or (hash_table_fits slots.now hash) hash.loaded true) hashes.now) }
{
    let mut rest = hashes;
    'hashes: while let [hash, after @ ..] = rest {
        if !hash_fits(alloc, slots, hash)? {
            return Ok(false);
        }
        rest = after;
    }
    Ok(true)
}

fn outputs_fit(alloc: Global, outputs: &[OutputPart]) -> Result<bool, OutOfMemory>
    ensures { IfOk result (λ fit. fit ≡ list_all output_fits outputs.now) }
{
    let mut rest = outputs;
    'outputs: while let [output, after @ ..] = rest {
        if !names_differ(alloc, output.columns.as_slice())? {
            return Ok(false);
        }
        rest = after;
    }
    Ok(true)
}

/// Whether slots and layout fit the tables, and the thread program where there is one: the first of `stages`.
pub fn layout_is_fit(
    alloc: Global,
    code: &ProgramParts,
    stages: &[ProgramParts],
) -> Result<bool, OutOfMemory>
    ensures { IfOk result (λ fits. fits ≡ layout_fits code.now (slice_get stages.now 0)) }
{
    let hashes = hashes_fit(alloc, code.slots.as_slice(), code.hashes.as_slice())?;
    let reading = reading_fits(alloc, code.slots.as_slice(), stages, &code.reading)?;
    let outputs = outputs_fit(alloc, code.outputs.as_slice())?;
    Ok(hashes && reading && outputs)
}

/// Whether two outputs have different names.
pub fn outputs_are_named_apart(alloc: Global, code: &ProgramParts) -> Result<bool, OutOfMemory>
    ensures { IfOk result (λ differ. differ ≡ outputs_differ code.now) }
{
    names_differ(alloc, code.outputs.as_slice())
}
