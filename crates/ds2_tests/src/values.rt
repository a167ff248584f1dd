//! Copies of columns and of a row, once with ample memory; rows are keys.
use ds2_base::{List, Name, OutOfMemory};
use ds2_value::{Column, Row, Schema, Ty, copy_row};
use std::alloc::Global;

// Whether a schema and a row are equal to their copies.
fn copies_are_equal(alloc: Global) -> Result<bool, OutOfMemory> {
    let Ok(name) = Name::new(alloc, "amount") else {
        return Ok(false);
    };
    let mut columns = List::new(alloc);
    columns.push(Column {
        name,
        ty: Ty::BigInt,
    })?;
    let Some(schema) = Schema::new(columns) else {
        return Ok(false);
    };
    let row: Row = List::new(alloc);
    Ok(schema.copy(alloc)? == schema && copy_row(alloc, row.as_slice())? == row)
}

#[test]
fn copies_columns_and_rows(rt: HostRuntime) {
    assert!(rt; copies_are_equal(rt.alloc()) == Ok(true));
}

// Rows are keys of maps.
fn may_be_key<T: Eq + std::hash::Hash>(_key: &T) {}

#[test]
fn rows_may_be_keys(rt: HostRuntime) {
    let row: Row = List::new(rt.alloc());
    may_be_key(&row);
}
