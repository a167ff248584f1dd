//! What a program reads.
ghost use Rattle.std.specs.Prelude.{◌≡◌, ℕ, List as Items, IfOk, OnOk, ◌||◌};
ghost use Rattle.std.specs.HashSet.{contains_text};
ghost use Rattle.ds2_meaning.specs.Reading.{inputs_of, bys_of, is_column};
ghost use Rattle.ds2_meaning.specs.View.{reading_with_run};

use crate::names::{add_columns, add_inputs};
use ds2_base::OutOfMemory;
use ds2_meaning::{ByVariable, Input, Program, Reading};
use std::alloc::Global;
use std::collections::HashSet;

fn inputs_of(reading: &Reading) -> &[Input]
    ensures { result.now ≡ inputs_of reading.now }
{
    match reading {
        Reading::Nothing => &[],
        Reading::Once => &[],
        Reading::Set { inputs, .. } => inputs.as_slice(),
        Reading::Merge { inputs, .. } => inputs.as_slice(),
        Reading::From { .. } => &[],
    }
}

fn bys_of(reading: &Reading) -> &[ByVariable]
    ensures { result.now ≡ bys_of reading.now }
{
    match reading {
        Reading::Nothing => &[],
        Reading::Once => &[],
        Reading::Set { bys, .. } => bys.as_slice(),
        Reading::Merge { bys, .. } => bys.as_slice(),
        Reading::From { .. } => &[],
    }
}

/// The tables of a program's loads.
#[tactic(auto, using(crate::proofs::LayoutLemmas::inputs_with_run))]
pub(crate) fn inputs_read(program: &Program) -> &[Input]
    ensures { result.now ≡ inputs_of (reading_with_run program.now.run program.now.reading) }
{
    match &program.run {
        None => &[],
        Some(_) => inputs_of(&program.reading),
    }
}

/// The BY variables of a program's loads.
#[tactic(auto, using(crate::proofs::LayoutLemmas::bys_with_run))]
pub(crate) fn bys_read(program: &Program) -> &[ByVariable]
    ensures { result.now ≡ bys_of (reading_with_run program.now.run program.now.reading) }
{
    match &program.run {
        None => &[],
        Some(_) => bys_of(&program.reading),
    }
}

// Adds the names of the columns of a reading.
fn add_columns_of(
    alloc: Global,
    set: &mut HashSet<String>,
    reading: &Reading,
) -> Result<(), OutOfMemory>
    ensures { OnOk result ((other : Items ℕ) → contains_text set.new other ≡ (is_column reading.now other || contains_text set.old other)) }
{
    match reading {
        Reading::From { columns, .. } => add_columns(alloc, set, columns.as_slice()),
        Reading::Set { inputs, .. } => add_inputs(alloc, set, inputs.as_slice()),
        Reading::Merge { inputs, .. } => add_inputs(alloc, set, inputs.as_slice()),
        Reading::Nothing => Ok(()),
        Reading::Once => Ok(()),
    }
}

/// The names of the columns of a program's loads.
#[tactic(auto, using(crate::proofs::LayoutLemmas::columns_with_run, crate::proofs::LayoutLemmas::or_none))]
pub(crate) fn columns_read(alloc: Global, program: &Program) -> Result<HashSet<String>, OutOfMemory>
    ensures { IfOk result (λ set. (other : Items ℕ) → contains_text set other ≡ is_column (reading_with_run program.now.run program.now.reading) other) }
{
    let mut set: HashSet<String> = HashSet::new(alloc);
    match &program.run {
        None => Ok(set),
        Some(_) => {
            add_columns_of(alloc, &mut set, &program.reading)?;
            Ok(set)
        }
    }
}
