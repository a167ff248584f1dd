//! The columns of BY variables.
ghost use Rattle.std.specs.Prelude.{◌≡◌, IfOk};
ghost use Rattle.ds2_reading.specs.ReadingKeys.{column_of_slot, columns_of_bys, directions_of};

use crate::ByKey;
use ds2_base::{List, OutOfMemory};
use std::alloc::Global;

// The number of the first column of a slot, or the number of columns.
fn column_of_slot(slots: &[u32], slot: u32) -> usize
    ensures { result ≡ column_of_slot slots.now slot }
{
    let mut column = 0;
    let mut rest = slots;
    'slots: while let [first, after @ ..] = rest {
        if *first == slot {
            return column;
        }
        column += 1;
        rest = after;
    }
    column
}

/// The columns of the BY variables in a table whose columns have these slots.
pub(crate) fn columns_of_bys(
    alloc: Global,
    slots: &[u32],
    bys: &[ByKey],
) -> Result<List<usize>, OutOfMemory>
    ensures { IfOk result (λ columns. columns ≡ columns_of_bys slots.now bys.now) }
{
    let mut columns = List::new(alloc);
    let mut rest = bys;
    'bys: while let [by, after @ ..] = rest {
        columns.push(column_of_slot(slots, by.slot))?;
        rest = after;
    }
    Ok(columns)
}

/// For each BY variable whether it is descending.
pub(crate) fn directions_of(alloc: Global, bys: &[ByKey]) -> Result<List<bool>, OutOfMemory>
    ensures { IfOk result (λ directions. directions ≡ directions_of bys.now) }
{
    let mut directions = List::new(alloc);
    let mut rest = bys;
    'bys: while let [by, after @ ..] = rest {
        directions.push(by.is_descending)?;
        rest = after;
    }
    Ok(directions)
}
