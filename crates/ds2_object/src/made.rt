//! The tables that programs make, as a set of their spellings: whether one has a maker is one look-up.
ghost use Rattle.std.specs.Prelude.{◌≡◌, ◌∷◌, [], ◌==◌, ◌&&◌, ◌||◌, IsTrue, IfOk, OnOk, List as Items, ℕ, map, bytes_eq};
ghost use Rattle.std.specs.List.{list_all};
ghost use Rattle.ds2_code.specs.declared.parts.StagedParts.{StagedParts as Staged};
ghost use Rattle.ds2_object_words.specs.CodeParts.{reference_line, reference_spelled};
ghost use Rattle.ds2_object_words.specs.Parts.{Writes, ItemsWritten};
ghost use Rattle.ds2_object_words.specs.Words.{column_part};
ghost use Rattle.ds2_object.specs.ObjectSpelling.{has_maker, makes_reference};
ghost use Rattle.ds2_object.specs.MadeTables.{has_spelled_slot, made_table_column, is_spelled_output, made_table, is_output_of, is_among_outputs, has_bytes, AddsTables, HasMade};

use ds2_base::{Bytes, List, Name, OutOfMemory};
use ds2_code::{OutputPart, Slot, TableReference};
use ds2_object_words::{Spelled, write_table_name};
use ds2_valid_code::ProgramCode;
use std::alloc::Global;
use std::collections::BTreeSet;

/// The spellings of the tables that programs make.
pub(crate) type MadeTables = BTreeSet<Vec<u8>>;

// ---- outputs as tables

// Puts a column of an output, as a column of a table, behind the bytes.
#[tactic(auto, using(crate::proofs::MadeLemmas::slot_bounds))]
fn write_made_column(slots: &[Slot], made: &(Name, u32), out: &mut Bytes) -> Result<(), OutOfMemory>
    requires { IsTrue (has_spelled_slot slots.now made.now) }
    ensures { OnOk result (Writes column_part out.old (made_table_column slots.now made.now) out.new) }
{
    made.0.write(out)?;
    match slots.get(made.1 as usize) {
        Some(slot) => {
            slot.ty.write(out)?;
            Ok(())
        }
        None => Ok(()),
    }
}

// The same of all columns of an output.
#[tactic(auto, using(crate::proofs::MadeLemmas::first_column, crate::proofs::MadeLemmas::column_more, crate::proofs::MadeLemmas::columns_all))]
fn write_made_columns(
    slots: &[Slot],
    columns: &[(Name, u32)],
    out: &mut Bytes,
) -> Result<(), OutOfMemory>
    requires { IsTrue (list_all (has_spelled_slot slots.now) columns.now) }
    ensures { OnOk result (ItemsWritten column_part out.old (map (made_table_column slots.now) columns.now) out.new) }
{
    let mut rest = columns;
    'columns: while let [first, after @ ..] = rest {
        write_made_column(slots, first, out)?;
        rest = after;
    }
    Ok(())
}

// The spelling of an output of the program with this number, as the table that later programs name.
#[tactic(auto, using(crate::proofs::MadeLemmas::output_named, crate::proofs::MadeLemmas::output_short, crate::proofs::MadeLemmas::output_slots))]
fn made_spelling(
    alloc: Global,
    slots: &[Slot],
    maker: u32,
    output: &OutputPart,
) -> Result<Bytes, OutOfMemory>
    requires { IsTrue (is_spelled_output slots.now output.now) }
    ensures { IfOk result (λ key. Writes reference_line [] (made_table slots.now maker output.now) key) }
{
    let mut key = List::new(alloc);
    write_table_name(&output.name, &mut key)?;
    maker.write(&mut key)?;
    (output.columns.len() as u32).write(&mut key)?;
    write_made_columns(slots, output.columns.as_slice(), &mut key)?;
    Ok(key)
}

// ---- the set

fn add_spelling(made: &mut MadeTables, key: Bytes) -> Result<(), OutOfMemory>
    ensures { OnOk result ((other : Items ℕ) → has_bytes made.new other ≡ (bytes_eq key other || has_bytes made.old other)) }
{
    made.insert(key.into_vec())?;
    Ok(())
}

// Adds an output of the program with this number.
fn add_output(
    alloc: Global,
    made: &mut MadeTables,
    slots: &[Slot],
    maker: u32,
    output: &OutputPart,
) -> Result<(), OutOfMemory>
    requires { IsTrue (is_spelled_output slots.now output.now) }
    ensures { OnOk result (AddsTables made.old (is_output_of maker slots.now output.now) made.new) }
{
    let key = made_spelling(alloc, slots, maker, output)?;
    add_spelling(made, key)?;
    Ok(())
}

// Adds outputs of the program with this number.
#[tactic(auto, using(crate::proofs::MadeLemmas::outputs_begun, crate::proofs::MadeLemmas::output_first, crate::proofs::MadeLemmas::outputs_all))]
fn add_outputs(
    alloc: Global,
    made: &mut MadeTables,
    slots: &[Slot],
    maker: u32,
    outputs: &[OutputPart],
) -> Result<(), OutOfMemory>
    requires { IsTrue (list_all (is_spelled_output slots.now) outputs.now) }
    ensures { OnOk result (AddsTables made.old (is_among_outputs maker slots.now outputs.now) made.new) }
{
    let mut rest = outputs;
    'outputs: while let [first, after @ ..] = rest {
        add_output(alloc, made, slots, maker, first)?;
        rest = after;
    }
    Ok(())
}

/// Adds the tables that the program with this number makes.
#[tactic(auto, using(crate::proofs::MadeLemmas::valid_outputs))]
pub(crate) fn add_program(
    alloc: Global,
    made: &mut MadeTables,
    maker: u32,
    program: &ProgramCode,
) -> Result<(), OutOfMemory>
    ensures { OnOk result (AddsTables made.old (λ r. (r.maker == maker) && makes_reference program.now.program r) made.new) }
{
    let parts = program.parts();
    let program = &parts.program;
    add_outputs(
        alloc,
        made,
        program.slots.as_slice(),
        maker,
        program.outputs.as_slice(),
    )?;
    Ok(())
}

/// Whether a table is the store's, or one of the programs makes it whose tables these are.
#[tactic(auto, using(crate::proofs::MadeLemmas::stored))]
pub(crate) fn is_made(
    alloc: Global,
    made: &MadeTables,
    table: &TableReference,
) -> Result<bool, OutOfMemory>
    requires { IsTrue (reference_spelled table.now) }
    ensures { IfOk result (λ is. (earlier : Items Staged) → HasMade made.now earlier → is ≡ has_maker earlier table.now) }
{
    if table.maker == 0 {
        return Ok(true);
    }
    let mut key = List::new(alloc);
    table.write(&mut key)?;
    Ok(made.contains(key.as_slice()))
}
