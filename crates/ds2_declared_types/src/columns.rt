//! The columns of a reading statement, over what it reads from.
ghost use Rattle.std.specs.Prelude.{◌≡◌, ◌++◌, IfOk, OnOk, map};
ghost use Rattle.ds2_elaboration.specs.SourceTypes.{clashing_at, column_variables, unjoined_columns, unit_names};
ghost use Rattle.ds2_elaboration.specs.UnitsBefore.{UnitsBefore};
ghost use Rattle.ds2_names.specs.NameRules.{from_each};
ghost use Rattle.ds2_names.specs.SourceUnit.{columns_stored, UnitSource};
ghost use Rattle.ds2_declared_types.specs.InputColumns.{column_found, joined_columns, clash_of_columns};
ghost use Rattle.ds2_declared_types.specs.Joins.{column_typing_of, places_in, column_type_over, clashes_over, column_over, unjoined_over};
ghost use Rattle.ds2_declared_types.specs.UnitReading.{ReadsAsUnit};

use crate::input_types::InputTypes;
use crate::joins::{
    ColumnTyping, clash_at_rows, clashes_here, joined_type, typing_of_rows, with_table,
};
use crate::names::name_of_bytes;
use ds2_base::{Bytes, List, OutOfMemory, Place};
use ds2_meaning::Variable;
use ds2_names::{NamedSchema, PlacedName};
use ds2_scope::NameTable;
use ds2_value::{Column, Ty};
use std::alloc::Global;

/// What a reading statement reads from.
#[derive(Clone, Copy)]
pub struct ReadFrom<'a> {
    /// The tables that there are, with their columns.
    pub tables: &'a [NamedSchema],
    /// Those of the statement, in order, with the types of their columns.
    pub inputs: &'a [InputTypes],
    /// The instance behind `set from`.
    pub stage: Option<Place>,
    /// The columns of its rows.
    pub rows: &'a [Column],
    /// The types of these by their names.
    pub row_types: &'a NameTable<Ty>,
}

/// What is known of the type of a column over further tables of a reading statement, joined from the left, beside a declared variable of
/// its name.
fn joined_over(
    inputs: &[InputTypes],
    declared: Option<Ty>,
    name: &Bytes,
    begun: ColumnTyping,
) -> ColumnTyping
    ensures { column_typing_of result ≡ joined_columns declared (column_typing_of begun) (map (column_found name.now) inputs.now) }
{
    let mut typing = begun;
    'inputs: for input in inputs {
        let own = input.type_of(name);
        typing = with_table(declared, typing, own);
    }
    typing
}

/// The first of further tables of a reading statement at which the join of a column, or the join with a declared variable of its name,
/// fails.
fn clashing_table(
    inputs: &[InputTypes],
    declared: Option<Ty>,
    name: &Bytes,
    begun: ColumnTyping,
) -> Option<Place>
    ensures { places_in result ≡ clash_of_columns declared (column_typing_of begun) (map (column_found name.now) inputs.now) }
{
    let mut typing = begun;
    'inputs: for input in inputs {
        let own = input.type_of(name);
        let behind = with_table(declared, typing, own);
        let clashes = clashes_here(typing, behind);
        if clashes {
            return Some(input.place);
        }
        typing = behind;
    }
    None
}

/// What is known of the type of a column of a reading statement, beside a declared variable of its name.
fn column_type_over(from: ReadFrom<'_>, declared: Option<Ty>, name: &Bytes) -> ColumnTyping
    ensures { column_typing_of result ≡ column_type_over from.entry.inputs.now from.entry.stage from.entry.row_types.now declared name.now }
{
    let begun = typing_of_rows(from.row_types, declared, name);
    joined_over(from.inputs, declared, name, begun)
}

/// The first place of a reading statement at which the join of a column, or the join with a declared variable of its name, fails.
fn clash_read(from: ReadFrom<'_>, declared: Option<Ty>, name: &Bytes) -> Option<Place>
    ensures { places_in result ≡ clashes_over from.entry.inputs.now from.entry.stage from.entry.row_types.now declared name.now }
{
    let begun = typing_of_rows(from.row_types, declared, name);
    match clash_at_rows(from.stage, begun) {
        Some(place) => Some(place),
        None => clashing_table(from.inputs, declared, name, begun),
    }
}

/// The first place at which a column of what a unit reads from, beside a declared variable of its name, breaks a rule: the instance behind
/// `set from`, or a table.
pub fn clash_over(from: ReadFrom<'_>, declared: Option<Ty>, name: &Bytes) -> Option<Place>
    ensures { (before : UnitsBefore) (u : UnitSource) → ReadsAsUnit before u from.entry → places_in result ≡ clashing_at (columns_stored from.entry.tables.now) before u declared name.now }
{
    clash_read(from, declared, name)
}

/// A column with the type that it is read as.
fn column(alloc: Global, from: ReadFrom<'_>, n: &PlacedName) -> Result<Variable, OutOfMemory>
    ensures { IfOk result (λ v. v ≡ column_over from.entry.inputs.now from.entry.stage from.entry.row_types.now n.now) }
{
    let typing = column_type_over(from, None, &n.name);
    let name = name_of_bytes(alloc, n.name.as_slice())?;
    Ok(Variable {
        name,
        ty: joined_type(typing),
    })
}

/// Columns with the types that they are read as.
fn columns_read(
    alloc: Global,
    from: ReadFrom<'_>,
    columns: &[PlacedName],
) -> Result<List<Variable>, OutOfMemory>
    ensures { IfOk result (λ variables. variables ≡ map (column_over from.entry.inputs.now from.entry.stage from.entry.row_types.now) columns.now) }
{
    let mut variables: List<Variable> = List::new(alloc);
    'columns: for n in columns {
        let v = column(alloc, from, n)?;
        variables.push(v)?;
    }
    Ok(variables)
}

/// The columns of what a unit reads from that are not declared, with the types that they are read as.
pub fn columns_over(
    alloc: Global,
    from: ReadFrom<'_>,
    columns: &[PlacedName],
) -> Result<List<Variable>, OutOfMemory>
    ensures { (before : UnitsBefore) (u : UnitSource) → ReadsAsUnit before u from.entry → columns.now ≡ (unit_names (columns_stored from.entry.tables.now) before u).columns
        → IfOk result (λ variables. variables ≡ column_variables (columns_stored from.entry.tables.now) before u) }
{
    columns_read(alloc, from, columns)
}

/// Adds a column that is not declared, where it does not join, at the first place at which it does not.
fn push_unjoined(
    alloc: Global,
    unjoined: &mut List<PlacedName>,
    from: ReadFrom<'_>,
    n: &PlacedName,
) -> Result<(), OutOfMemory>
    ensures { OnOk result (unjoined.new ≡ unjoined.old ++ unjoined_over from.entry.inputs.now from.entry.stage from.entry.row_types.now n.now) }
{
    match clash_read(from, None, &n.name) {
        None => Ok(()),
        Some(place) => {
            let name = List::from_slice(alloc, n.name.as_slice())?;
            unjoined.push(PlacedName { name, place })
        }
    }
}

/// Columns that do not join, each at the first place at which it does not.
fn unjoined_read(
    alloc: Global,
    from: ReadFrom<'_>,
    columns: &[PlacedName],
) -> Result<List<PlacedName>, OutOfMemory>
    ensures { IfOk result (λ unjoined. unjoined ≡ from_each (unjoined_over from.entry.inputs.now from.entry.stage from.entry.row_types.now) columns.now) }
{
    let mut unjoined: List<PlacedName> = List::new(alloc);
    'columns: for n in columns {
        push_unjoined(alloc, &mut unjoined, from, n)?;
    }
    Ok(unjoined)
}

/// The columns of what a unit reads from that are not declared and do not join, each at the first place at which it does not.
pub fn unjoined_over(
    alloc: Global,
    from: ReadFrom<'_>,
    columns: &[PlacedName],
) -> Result<List<PlacedName>, OutOfMemory>
    ensures { (before : UnitsBefore) (u : UnitSource) → ReadsAsUnit before u from.entry → columns.now ≡ (unit_names (columns_stored from.entry.tables.now) before u).columns
        → IfOk result (λ unjoined. unjoined ≡ unjoined_columns (columns_stored from.entry.tables.now) before u) }
{
    unjoined_read(alloc, from, columns)
}
