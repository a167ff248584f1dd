//! Columns of values, with ample memory.
use ds2_base::OutOfMemory;
use ds2_columns::ColumnValues;
use ds2_value::{Cell, Ty};
use std::alloc::Global;

// The whole number in a row, or -1.
fn number_at(column: &ColumnValues, row: usize) -> i64 {
    match column.cell(row) {
        Cell::Int(number) => number,
        _ => -1,
    }
}

// 5, null and 7 in another order, with a row that there is not.
fn gathered(alloc: Global) -> Result<ColumnValues, OutOfMemory> {
    let mut column = ColumnValues::new(alloc, Ty::BigInt);
    column.reserve(3)?;
    column.push(&Cell::Int(5))?;
    column.push(&Cell::Null)?;
    column.push(&Cell::Int(7))?;
    column.gathered(alloc, &[2, 1, 0, 9])
}

fn is_turned(column: &ColumnValues) -> bool {
    let rows = column.len() == 4 && number_at(column, 0) == 7 && number_at(column, 2) == 5;
    rows && column.cell(1).is_null() && column.cell(3).is_null()
}

#[test]
fn a_column_is_gathered(rt: HostRuntime) {
    let column = gathered(rt.alloc());
    assert!(&rt; column.is_ok_and(|column| is_turned(&column)));
}
