//! The columns of a reading statement that are not declared.
ghost use Rattle.std.specs.Prelude.{◌≡◌, ◌∷◌, ◌++◌, [], ◌||◌, ℕ, List as Items, IfOk, OnOk, nat_eq, bytes_eq, not};
ghost use Rattle.std.specs.Cmp.Lexicographic.{pointwise};
ghost use Rattle.std.specs.HashSet.{contains};
ghost use Rattle.ds2_meaning.specs.ProgramTree.{is_listed};
ghost use Rattle.ds2_names.specs.SourceUnit.{names_alone, columns_stored};
ghost use Rattle.ds2_scope.specs.NameSets.{HasNames, column_names, AddsColumns, AddsAllColumns, stage_column_by, stage_columns_by};

use crate::name_table::NameSet;
use crate::names::spelled_name;
use ds2_base::{Bytes, List, OutOfMemory, Place};
use ds2_names::{NamedSchema, PlacedName};
use ds2_tree::Input;
use ds2_value::Column;
use std::alloc::Global;

/// Adds a name; true exactly where it was not there.
pub fn add_name(alloc: Global, set: &mut NameSet, name: &[u8]) -> Result<bool, OutOfMemory>
    ensures new { IfOk result (λ added. added ≡ not (contains (pointwise nat_eq) set.old name.now)) }
    ensures names { OnOk result ((other : Items ℕ) → contains (pointwise nat_eq) set.new other ≡ (bytes_eq name.now other || contains (pointwise nat_eq) set.old other)) }
{
    set.insert(List::from_slice(alloc, name)?)
}

/// The set of these names.
pub fn name_set(alloc: Global, names: &[PlacedName]) -> Result<NameSet, OutOfMemory>
    ensures { IfOk result (λ set. HasNames set (names_alone names.now)) }
{
    let mut set = NameSet::new(alloc);
    'names: for n in names {
        add_name(alloc, &mut set, n.name.as_slice())?;
    }
    Ok(set)
}

/// The set of the names of columns.
pub fn column_set(alloc: Global, columns: &[Column]) -> Result<NameSet, OutOfMemory>
    ensures { IfOk result (λ set. HasNames set (column_names columns.now)) }
{
    let mut set = NameSet::new(alloc);
    'columns: for column in columns {
        add_name(alloc, &mut set, column.name.as_str().as_bytes())?;
    }
    Ok(set)
}

/// The columns of the first of these tables that has a name; none where no table has it.
pub fn columns_of<'t>(tables: &'t [NamedSchema], name: &[u8]) -> &'t [Column]
    ensures { result.now ≡ columns_stored tables.now name.now }
{
    'tables: for t in tables {
        if t.name.as_str().as_bytes() == name {
            return t.schema.columns().as_slice();
        }
    }
    &[]
}

// Adds a column of a table, unless its name is known.
fn push_column(
    alloc: Global,
    names: &mut List<PlacedName>,
    known: &mut NameSet,
    place: Place,
    column: &Column,
) -> Result<(), OutOfMemory>
    ensures { OnOk result ((k : Items (Items ℕ)) → HasNames known.old k → AddsColumns k place (column.now ∷ []) names.old names.new known.new) }
{
    let name = column.name.as_str().as_bytes();
    if add_name(alloc, known, name)? {
        let name = List::from_slice(alloc, name)?;
        names.push(PlacedName { name, place })?;
    }
    Ok(())
}

// Adds the columns of a table whose names are not known.
fn push_columns(
    alloc: Global,
    names: &mut List<PlacedName>,
    known: &mut NameSet,
    place: Place,
    columns: &[Column],
) -> Result<(), OutOfMemory>
    ensures { OnOk result ((k : Items (Items ℕ)) → HasNames known.old k → AddsColumns k place columns.now names.old names.new known.new) }
{
    'columns: for column in columns {
        push_column(alloc, names, known, place, column)?;
    }
    Ok(())
}

// Adds the columns of tables whose names are not known.
fn push_inputs(
    alloc: Global,
    names: &mut List<PlacedName>,
    known: &mut NameSet,
    tables: &[NamedSchema],
    inputs: &[Input],
) -> Result<(), OutOfMemory>
    ensures { OnOk result ((k : Items (Items ℕ)) → HasNames known.old k → AddsAllColumns (columns_stored tables.now) k inputs.now names.old names.new) }
{
    'inputs: for input in inputs {
        let name = spelled_name(alloc, &input.table)?;
        let columns = columns_of(tables, name.as_slice());
        push_columns(alloc, names, known, input.table.place, columns)?;
    }
    Ok(())
}

/// Adds the columns of tables that are not among these names.
pub fn add_columns(
    alloc: Global,
    names: &mut List<PlacedName>,
    tables: &[NamedSchema],
    inputs: &[Input],
) -> Result<(), OutOfMemory>
    ensures { OnOk result (AddsAllColumns (columns_stored tables.now) (names_alone names.old) inputs.now names.old names.new) }
{
    let mut known = name_set(alloc, names.as_slice())?;
    push_inputs(alloc, names, &mut known, tables, inputs)
}

// Adds a column of a thread program, unless its name is known.
fn push_stage_column(
    alloc: Global,
    names: &mut List<PlacedName>,
    known: &NameSet,
    place: Place,
    name: &Bytes,
) -> Result<(), OutOfMemory>
    ensures { OnOk result (names.new ≡ names.old ++ stage_column_by (contains (pointwise nat_eq) known.now) place name.now) }
{
    if known.contains(name) {
        Ok(())
    } else {
        let name = List::from_slice(alloc, name.as_slice())?;
        names.push(PlacedName { name, place })
    }
}

// Adds the columns of a thread program whose names are not known.
fn push_stage_columns(
    alloc: Global,
    names: &mut List<PlacedName>,
    known: &NameSet,
    place: Place,
    columns: &[Bytes],
) -> Result<(), OutOfMemory>
    ensures { OnOk result (names.new ≡ names.old ++ stage_columns_by (contains (pointwise nat_eq) known.now) place columns.now) }
{
    'columns: for name in columns {
        push_stage_column(alloc, names, known, place, name)?;
    }
    Ok(())
}

/// Adds the columns of a thread program that are not among these names, at the place of its instance.
pub fn add_stage_columns(
    alloc: Global,
    names: &mut List<PlacedName>,
    columns: &[Bytes],
    place: Place,
) -> Result<(), OutOfMemory>
    ensures { OnOk result (names.new ≡ names.old ++ stage_columns_by (is_listed (names_alone names.old)) place columns.now) }
{
    let known = name_set(alloc, names.as_slice())?;
    push_stage_columns(alloc, names, &known, place, columns)?;
    Ok(())
}
