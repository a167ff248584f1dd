//! Sets of names.
ghost use Rattle.std.specs.Prelude.{◌≡◌, ◌||◌, ℕ, List as Items, IfOk, OnOk, bytes_eq};
ghost use Rattle.std.specs.HashSet.{contains_text};
ghost use Rattle.std.specs.List.{list_any};
ghost use Rattle.ds2_value.specs.Schema.{has_column};
ghost use Rattle.ds2_meaning.specs.ProgramTree.{is_listed};
ghost use Rattle.ds2_meaning.specs.declared.readings.Input.{Input as InputModel};

use ds2_base::{Name, OutOfMemory};
use ds2_meaning::Input;
use ds2_value::Column;
use std::alloc::Global;
use std::collections::HashSet;

fn add_name(alloc: Global, set: &mut HashSet<String>, name: &Name) -> Result<(), OutOfMemory>
    ensures { OnOk result ((other : Items ℕ) → contains_text set.new other ≡ (bytes_eq name.now other || contains_text set.old other)) }
{
    let key = String::from_str(alloc, name.as_str())?;
    set.insert(key)?;
    Ok(())
}

// Adds the names of columns.
pub(crate) fn add_columns(
    alloc: Global,
    set: &mut HashSet<String>,
    columns: &[Column],
) -> Result<(), OutOfMemory>
    ensures { OnOk result ((other : Items ℕ) → contains_text set.new other ≡ (has_column other columns.now || contains_text set.old other)) }
{
    'columns: for column in columns {
        add_name(alloc, set, &column.name)?;
    }
    Ok(())
}

// Adds the names of the columns of tables.
pub(crate) fn add_inputs(
    alloc: Global,
    set: &mut HashSet<String>,
    inputs: &[Input],
) -> Result<(), OutOfMemory>
    ensures { OnOk result ((other : Items ℕ) → contains_text set.new other ≡ (list_any (λ (input : InputModel). has_column other input.columns) inputs.now || contains_text set.old other)) }
{
    'inputs: for input in inputs {
        add_columns(alloc, set, input.columns.as_slice())?;
    }
    Ok(())
}

// Adds names.
fn add_names(alloc: Global, set: &mut HashSet<String>, names: &[Name]) -> Result<(), OutOfMemory>
    ensures { OnOk result ((other : Items ℕ) → contains_text set.new other ≡ (is_listed names.now other || contains_text set.old other)) }
{
    'names: for name in names {
        add_name(alloc, set, name)?;
    }
    Ok(())
}

// The set of these names.
pub(crate) fn name_set(alloc: Global, names: &[Name]) -> Result<HashSet<String>, OutOfMemory>
    ensures { IfOk result (λ set. (other : Items ℕ) → contains_text set other ≡ is_listed names.now other) }
{
    let mut set: HashSet<String> = HashSet::new(alloc);
    add_names(alloc, &mut set, names)?;
    Ok(set)
}
