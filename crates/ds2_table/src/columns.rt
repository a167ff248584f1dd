//! The columns of a table, all of them at once.
ghost use Rattle.std.specs.Prelude.{◌≡◌, ◌≤◌, IsTrue, length, map, OnOk, OnErr};
ghost use Rattle.std.specs.List.{AllByRecursion};
ghost use Rattle.ds2_columns.specs.Columns.{IsColumn, first_values};
ghost use Rattle.ds2_value.specs.Schema.{types_in_bounds};
ghost use Rattle.ds2_table.specs.Across.{AddsMissing, CutsBackTo, HaveTypesFor, with_each};

use ds2_base::OutOfMemory;
use ds2_columns::ColumnValues;
use ds2_value::{Column, Value};
use std::alloc::Global;

/// Reads each column, whose values are of its type.
pub(crate) fn read_columns(columns: &[ColumnValues])
    ensures { AllByRecursion IsColumn columns.now }
{
    let mut rest = columns;
    'columns: while let [first, after @ ..] = rest {
        first.is_column();
        rest = after;
    }
}

/// Adds the columns of a schema that are not there yet. After a refusal some of them are.
#[tactic(auto, using(crate::proofs::Across::nothing_added, crate::proofs::Across::one_added, crate::proofs::Across::bounds_there))]
pub(crate) fn add_missing(
    alloc: Global,
    schema: &[Column],
    columns: &mut Vec<ColumnValues>,
) -> Result<(), OutOfMemory>
    requires { IsTrue (types_in_bounds schema.now) }
    ensures kept { AddsMissing schema.now columns.old.items columns.new.items }
    ensures ok { OnOk result (length schema.now ≤ length columns.new.items) }
{
    'columns: while columns.len() < schema.len() {
        let ty = schema[columns.len()].ty;
        columns.push(ColumnValues::new(alloc, ty))?;
    }
    Ok(())
}

/// Adds the values of a row, one to each column. After a refusal some columns have theirs.
pub(crate) fn push_each(columns: &mut Vec<ColumnValues>, row: &[Value]) -> Result<(), OutOfMemory>
    requires { HaveTypesFor columns.old.items row.now }
    ensures ok { OnOk result (columns.new.items ≡ with_each columns.old.items row.now) }
    ensures err { OnErr result (CutsBackTo columns.old.items columns.new.items) }
{
    'columns: for (i, value) in row.iter().enumerate() {
        columns[i].push(&value.as_cell())?;
    }
    Ok(())
}

/// Leaves each column its first values alone.
pub(crate) fn cut_back(columns: &mut Vec<ColumnValues>, count: usize)
    ensures { columns.new.items ≡ map (first_values count) columns.old.items }
{
    'columns: for i in 0..columns.len() {
        columns[i].truncate(count);
    }
}
