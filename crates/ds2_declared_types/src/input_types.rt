//! The types of the columns that a statement reads, of its tables or of the rows of a thread program, each found by its name.
ghost use Rattle.std.specs.Prelude.{◌≡◌, ℕ, List as Items, IfOk, OnOk, nat_eq};
ghost use Rattle.std.specs.Cmp.Lexicographic.{pointwise};
ghost use Rattle.std.specs.HashMap.{get};
ghost use Rattle.std.specs.Option.{option_or};
ghost use Rattle.ds2_names.specs.SourceUnit.{columns_stored};
ghost use Rattle.ds2_declared_types.specs.InputColumns.{column_at, column_found, type_if_named, FindColumns, HasTypes};

use ds2_base::{Bytes, List, OutOfMemory, Place};
use ds2_names::NamedSchema;
use ds2_scope::{NameTable, columns_of, spelled_name};
use ds2_tree::Input;
use ds2_value::{Column, Ty};
use std::alloc::Global;

/// A table of a reading statement: where it is named, and the types of its columns by their names.
#[derive(Drop)]
pub struct InputTypes {
    pub place: Place,
    pub types: NameTable<Ty>,
}

impl InputTypes {
    /// The type of the column of a name, where the table has one.
    pub fn type_of(&self, name: &Bytes) -> Option<Ty>
        ensures { result ≡ (column_found name.now self.now).ty }
    {
        self.types.get(name).copied()
    }
}

/// Adds the type of a column, unless there is one of its name.
fn add_type(alloc: Global, types: &mut NameTable<Ty>, column: &Column) -> Result<(), OutOfMemory>
    ensures { OnOk result ((name : Items ℕ) → get (pointwise nat_eq) types.new name ≡ option_or (get (pointwise nat_eq) types.old name) (type_if_named name column.now)) }
{
    let name = List::from_slice(alloc, column.name.as_str().as_bytes())?;
    if types.get(&name).is_none() {
        types.insert(name, column.ty)?;
    }
    Ok(())
}

/// The types of columns by their names; of one name the first counts.
pub fn types_of_columns(alloc: Global, columns: &[Column]) -> Result<NameTable<Ty>, OutOfMemory>
    ensures { IfOk result (λ types. HasTypes types columns.now) }
{
    let mut types: NameTable<Ty> = NameTable::new(alloc);
    'columns: for column in columns {
        add_type(alloc, &mut types, column)?;
    }
    Ok(types)
}

/// What a table of a reading statement has of each name.
fn input_types(
    alloc: Global,
    tables: &[NamedSchema],
    input: &Input,
) -> Result<InputTypes, OutOfMemory>
    ensures { IfOk result (λ found. (name : Items ℕ) → column_found name found ≡ column_at (columns_stored tables.now) name input.now) }
{
    let table = spelled_name(alloc, &input.table)?;
    let types = types_of_columns(alloc, columns_of(tables, table.as_slice()))?;
    Ok(InputTypes {
        place: input.table.place,
        types,
    })
}

/// What the tables of a reading statement have of each name, in order.
pub fn types_of_inputs(
    alloc: Global,
    tables: &[NamedSchema],
    inputs: &[Input],
) -> Result<List<InputTypes>, OutOfMemory>
    ensures { IfOk result (FindColumns (columns_stored tables.now) inputs.now) }
{
    let mut found: List<InputTypes> = List::new(alloc);
    'inputs: for input in inputs {
        let own = input_types(alloc, tables, input)?;
        found.push(own)?;
    }
    Ok(found)
}
