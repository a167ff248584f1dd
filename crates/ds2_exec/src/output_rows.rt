//! Tables of outputs before their first row, and how they take rows.
ghost use Rattle.std.specs.Prelude.{◌≡◌, [], map, nat_eq, IfOk, IsTrue, OnOk};
ghost use Rattle.std.specs.Cmp.Lexicographic.{pointwise};
ghost use Rattle.std.specs.HashSet.{contains};
ghost use Rattle.std.specs.List.{list_all};
ghost use Rattle.ds2_code.specs.CodeRun.{column_slots};
ghost use Rattle.ds2_code.specs.Desk.{values_of_slots};
ghost use Rattle.ds2_code.specs.ValidCode.{output_fits};
ghost use Rattle.ds2_slots.specs.LoadedHashes.{AreSlotTypesInBounds};
ghost use Rattle.ds2_value.specs.Schema.{distinct_names, types_in_bounds};
ghost use Rattle.ds2_exec.specs.OutputSinks.{KeptTaken, kept_begun, sink_begun};

use crate::output_sink::OutputSink;
use ds2_base::{List, Name, OutOfMemory};
use ds2_code::{OutputPart, Slot};
use ds2_program_text::table_without_rows;
use ds2_scope::NameSet;
use ds2_table::Table;
use ds2_unit::{OutputSinks, RowSink};
use ds2_valid_code::ProgramCode;
use ds2_value::{Column, Schema, Value, copy_columns};
use std::alloc::Global;

// ---- rows

// Takes the values of a row where rows are kept.
fn keep_values(
    alloc: Global,
    kept: &mut Option<Table>,
    output: &OutputPart,
    slots: &[Value],
) -> Result<(), OutOfMemory>
    ensures { OnOk result (KeptTaken kept.old kept.new (values_of_slots (column_slots output.now) slots.now)) }
{
    match kept {
        None => Ok(()),
        Some(table) => table.take_values(alloc, output, slots),
    }
}

impl RowSink for OutputSink {
    ghost use Rattle.ds2_exec.specs.OutputSinks.{HasSunk};

    ghost has_rows = { HasSunk };

    fn take_values(
        &mut self,
        alloc: Global,
        output: &OutputPart,
        slots: &[Value],
    ) -> Result<(), OutOfMemory> {
        self.written.take_values(alloc, output, slots)?;
        keep_values(alloc, &mut self.kept, output, slots)?;
        Ok(())
    }
}

// ---- before the first row

// A table of these columns, without rows.
fn empty_table(alloc: Global, columns: &[Column]) -> Result<Table, OutOfMemory>
    requires within { IsTrue (types_in_bounds columns.now) }
    requires names { IsTrue (distinct_names columns.now) }
    ensures { IfOk result (λ table. table ≡ record { columns = columns.now; rows = [] }) }
{
    match Schema::new(copy_columns(alloc, columns)?) {
        None => unreachable!(),
        Some(schema) => Ok(Table::new(alloc, schema)),
    }
}

// Whether a set has a name.
fn is_in(alloc: Global, names: &NameSet, name: &Name) -> Result<bool, OutOfMemory>
    ensures { IfOk result (λ there. there ≡ contains (pointwise nat_eq) names.now name.now) }
{
    let spelled = List::from_slice(alloc, name.as_str().as_bytes())?;
    Ok(names.contains(&spelled))
}

// The table that keeps the rows of an output of this name and these columns, where the set has the name.
fn kept_table(
    alloc: Global,
    keeps: &NameSet,
    name: &Name,
    columns: &[Column],
) -> Result<Option<Table>, OutOfMemory>
    requires within { IsTrue (types_in_bounds columns.now) }
    requires names { IsTrue (distinct_names columns.now) }
    ensures { IfOk result (λ kept. kept ≡ kept_begun (contains (pointwise nat_eq) keeps.now) name.now columns.now) }
{
    if is_in(alloc, keeps, name)? {
        Ok(Some(empty_table(alloc, columns)?))
    } else {
        Ok(None)
    }
}

// The table of an output before its first row.
fn sink_begun(
    alloc: Global,
    keeps: &NameSet,
    slots: &[Slot],
    output: &OutputPart,
) -> Result<OutputSink, OutOfMemory>
    requires slots { AreSlotTypesInBounds slots.now }
    requires names { IsTrue (output_fits output.now) }
    ensures { IfOk result (λ sink. sink ≡ sink_begun (contains (pointwise nat_eq) keeps.now) slots.now output.now) }
{
    let written = table_without_rows(alloc, slots, output)?;
    let kept = kept_table(alloc, keeps, &written.name, written.columns.as_slice())?;
    Ok(OutputSink { written, kept })
}

// The tables of outputs before their first row.
#[tactic(auto, using(ds2_unit::proofs::OutputColumns::outputs_fit))]
fn sinks_begun(
    alloc: Global,
    keeps: &NameSet,
    slots: &[Slot],
    outputs: &[OutputPart],
) -> Result<List<OutputSink>, OutOfMemory>
    requires slots { AreSlotTypesInBounds slots.now }
    requires names { IsTrue (list_all output_fits outputs.now) }
    ensures { IfOk result (λ sinks. sinks ≡ map (sink_begun (contains (pointwise nat_eq) keeps.now) slots.now) outputs.now) }
{
    let mut sinks = List::new(alloc);
    let mut rest = outputs;
    'outputs: while let [first, after @ ..] = rest {
        sinks.push(sink_begun(alloc, keeps, slots, first)?)?;
        rest = after;
    }
    Ok(sinks)
}

/// A table for each output of a program, and no lines yet. Rows are kept of tables of these names.
pub(crate) fn sinks_of(
    alloc: Global,
    code: &ProgramCode,
    keeps: &NameSet,
) -> Result<OutputSinks<OutputSink>, OutOfMemory>
    ensures outputs { IfOk result (λ sinks. sinks.outputs.items ≡ map (sink_begun (contains (pointwise nat_eq) keeps.now) code.now.program.slots) code.now.program.outputs) }
    ensures lines { IfOk result (λ sinks. sinks.lines ≡ []) }
{
    let parts = code.parts();
    let slots = parts.program.slots.as_slice();
    let outputs = parts.program.outputs.as_slice();
    let sinks = sinks_begun(alloc, keeps, slots, outputs)?;
    Ok(OutputSinks {
        outputs: sinks.into_vec(),
        lines: List::new(alloc),
    })
}
