//! The reading statement and the outputs of a program's code.
ghost use Rattle.std.specs.Prelude.{◌≡◌, ℕ, List as Items, map, IfOk};
ghost use Rattle.std.specs.Option.{option_map};
ghost use Rattle.ds2_meaning.specs.declared.location.Global.TheVariants.{Present};
ghost use Rattle.ds2_meaning.specs.View.{reading_with_run};
ghost use Rattle.ds2_generate.specs.PartsAmong.{slot_among, input_part_among, by_part_among, reading_part_among};
ghost use Rattle.ds2_generate.specs.OutputParts.{column_pairs, output_parts_by};

use crate::tables::{column_slots, slot_number, table_reference};
use ds2_base::{List, Name, OutOfMemory};
use ds2_code::{ByPart, OutputPart, ReadPart, ReadingPart};
use ds2_meaning::{ByVariable, Input, OutputColumn, OutputTable, Program, Reading};
use ds2_numbering::{GlobalSort, SlotTable, Sought};
use std::alloc::Global;

// The slot of the flag that `in=` names, where there is one.
fn present_slot(slots: &SlotTable<'_>, present: &Option<Name>) -> Option<u32>
    ensures { result ≡ option_map (λ (name : Items ℕ). slot_among slots.now (record { home = None; global = Present name })) present.now }
{
    match present {
        None => None,
        Some(name) => {
            let sought = Sought::own(GlobalSort::Present, name);
            Some(slot_number(slots, &sought))
        }
    }
}

// A table of a reading statement.
fn input_part(alloc: Global, slots: &SlotTable<'_>, input: &Input) -> Result<ReadPart, OutOfMemory>
    ensures { IfOk result (λ part. part ≡ input_part_among slots.now input.now) }
{
    let columns = input.columns.as_slice();
    Ok(ReadPart {
        table: table_reference(alloc, &input.table, columns)?,
        present: present_slot(slots, &input.present),
        slots: column_slots(alloc, slots, columns)?,
    })
}

// The tables of a reading statement.
fn input_parts(
    alloc: Global,
    slots: &SlotTable<'_>,
    inputs: &[Input],
) -> Result<List<ReadPart>, OutOfMemory>
    ensures { IfOk result (λ parts. parts ≡ map (input_part_among slots.now) inputs.now) }
{
    let mut parts = List::new(alloc);
    'inputs: for input in inputs {
        parts.push(input_part(alloc, slots, input)?)?;
    }
    Ok(parts)
}

// A BY variable.
fn by_part(slots: &SlotTable<'_>, by: &ByVariable) -> ByPart
    ensures { result ≡ by_part_among slots.now by.now }
{
    ByPart {
        slot: slot_number(slots, &Sought::own(GlobalSort::Named, &by.name)),
        is_descending: by.is_descending,
        first: slot_number(slots, &Sought::own(GlobalSort::First, &by.name)),
        last: slot_number(slots, &Sought::own(GlobalSort::Last, &by.name)),
    }
}

// BY variables.
fn by_parts(
    alloc: Global,
    slots: &SlotTable<'_>,
    bys: &[ByVariable],
) -> Result<List<ByPart>, OutOfMemory>
    ensures { IfOk result (λ parts. parts ≡ map (by_part_among slots.now) bys.now) }
{
    let mut parts = List::new(alloc);
    'bys: for by in bys {
        parts.push(by_part(slots, by))?;
    }
    Ok(parts)
}

// A reading statement. Wants memory too where the source asks for more threads than a byte can count.
fn reading_part(
    alloc: Global,
    slots: &SlotTable<'_>,
    reading: &Reading,
) -> Result<ReadingPart, OutOfMemory>
    ensures { IfOk result (λ part. part ≡ reading_part_among slots.now reading.now) }
{
    match reading {
        Reading::Nothing => Ok(ReadingPart::Nothing),
        Reading::Once => Ok(ReadingPart::Once),
        Reading::Set { inputs, bys } => Ok(ReadingPart::Set {
            tables: input_parts(alloc, slots, inputs.as_slice())?,
            bys: by_parts(alloc, slots, bys.as_slice())?,
        }),
        Reading::Merge {
            inputs,
            bys,
            retains,
        } => Ok(ReadingPart::Merge {
            tables: input_parts(alloc, slots, inputs.as_slice())?,
            bys: by_parts(alloc, slots, bys.as_slice())?,
            retains: *retains,
        }),
        Reading::From {
            instance: _,
            workers,
            columns,
        } => match u8::try_from(*workers) {
            Err(_) => Err(OutOfMemory),
            Ok(threads) => Ok(ReadingPart::Stage {
                threads,
                slots: column_slots(alloc, slots, columns.as_slice())?,
            }),
        },
    }
}

/// What the loads of a program are made of: nothing without `run`, and one load where it reads nothing.
pub fn program_reading(
    alloc: Global,
    slots: &SlotTable<'_>,
    program: &Program,
) -> Result<ReadingPart, OutOfMemory>
    ensures { IfOk result (λ part. part ≡ reading_part_among slots.now (reading_with_run program.now.run program.now.reading)) }
{
    match &program.run {
        None => Ok(ReadingPart::Nothing),
        Some(_) => match &program.reading {
            Reading::Nothing => Ok(ReadingPart::Once),
            reading => reading_part(alloc, slots, reading),
        },
    }
}

// The columns of an output with these slots.
fn output_columns(
    alloc: Global,
    columns: &[OutputColumn],
    slots: &[u32],
) -> Result<List<(Name, u32)>, OutOfMemory>
    ensures { IfOk result (λ list. list ≡ column_pairs columns.now slots.now) }
{
    let mut list = List::new(alloc);
    let mut rest = slots;
    'columns: for column in columns {
        let [slot, others @ ..] = rest else {
            return Ok(list);
        };
        list.push((column.name.copy(alloc)?, *slot))?;
        rest = others;
    }
    Ok(list)
}

/// The outputs of a program, whose layout has these slots for their columns.
pub fn output_parts(
    alloc: Global,
    outputs: &[OutputTable],
    projections: &[List<u32>],
) -> Result<List<OutputPart>, OutOfMemory>
    ensures { IfOk result (λ parts. parts ≡ output_parts_by outputs.now projections.now) }
{
    let mut parts = List::new(alloc);
    let mut rest = projections;
    'outputs: for output in outputs {
        let [slots, others @ ..] = rest else {
            return Ok(parts);
        };
        parts.push(OutputPart {
            name: output.name.copy(alloc)?,
            overwrites: output.overwrites,
            columns: output_columns(alloc, output.columns.as_slice(), slots.as_slice())?,
        })?;
        rest = others;
    }
    Ok(parts)
}
