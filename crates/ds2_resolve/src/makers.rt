//! The tables that the data programs of a source make.
ghost use Rattle.std.specs.Prelude.{◌≡◌, ℕ, List as Items, OnOk, if◌then◌else◌};
ghost use Rattle.ds2_resolve.specs.TableMakers.{maker_in, makes_table, makes_one};

use ds2_base::{Bytes, OutOfMemory};
use ds2_scope::{NameTable, spelled_name};
use ds2_tree::OutputTable;
use std::alloc::Global;

/// For each table that data programs make, the number of the last program that makes it, from 1.
pub type Makers = NameTable<u32>;

/// The number of the last program that makes a table, 0 where none does.
pub fn maker_of(makers: &Makers, name: &Bytes) -> u32
    ensures { result ≡ maker_in makers.now name.now }
{
    match makers.get(name) {
        None => 0,
        Some(number) => *number,
    }
}

// Notes that a program makes a table; `_null_` is none.
#[tactic(auto, using(crate::proofs::MakerLemmas::maker_noted))]
fn note_output(
    alloc: Global,
    makers: &mut Makers,
    number: u32,
    o: &OutputTable,
) -> Result<(), OutOfMemory>
    ensures { OnOk result ((name : Items ℕ) → maker_in makers.new name ≡ (if makes_one o.now name then number else maker_in makers.old name)) }
{
    let name = spelled_name(alloc, &o.table)?;
    if name.as_slice() == b"_null_".as_slice() {
        Ok(())
    } else {
        makers.insert(name, number)?;
        Ok(())
    }
}

/// Notes the tables that a program of this number makes.
pub(crate) fn note_outputs(
    alloc: Global,
    makers: &mut Makers,
    number: u32,
    outputs: &[OutputTable],
) -> Result<(), OutOfMemory>
    ensures { OnOk result ((name : Items ℕ) → maker_in makers.new name ≡ (if makes_table outputs.now name then number else maker_in makers.old name)) }
{
    'outputs: for o in outputs {
        note_output(alloc, makers, number, o)?;
    }
    Ok(())
}
