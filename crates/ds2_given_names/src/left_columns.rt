//! The columns of a unit that its statements let through.
ghost use Rattle.std.specs.Prelude.{◌≡◌, [], IfOk, filter, map};
ghost use Rattle.ds2_tree.specs.UnitViews.{global_tree};
ghost use Rattle.ds2_names.specs.NameRules.{columns_left};
ghost use Rattle.ds2_names.specs.SourceUnit.{SourceNames, names_alone};
ghost use Rattle.ds2_given_names.specs.OutputParts.{passes_lists};
ghost use Rattle.ds2_scope.specs.UnitNames.{NamesAre};

use crate::listed::{passes_lists, statement_lists};
use crate::lists::KeepDrop;
use ds2_base::{Bytes, List, OutOfMemory};
use ds2_names::PlacedName;
use ds2_scope::UnitNames;
use ds2_tree::GlobalItem;
use std::alloc::Global;

// The names that tables let through.
fn names_through(
    alloc: Global,
    lists: &KeepDrop,
    names: &[PlacedName],
) -> Result<List<Bytes>, OutOfMemory>
    ensures { IfOk result (λ through. through ≡ filter (passes_lists lists.now) (names_alone names.now)) }
{
    let mut through: List<Bytes> = List::new(alloc);
    'names: for n in names {
        if passes_lists(lists, &n.name) {
            through.push(List::from_slice(alloc, n.name.as_slice())?)?;
        }
    }
    Ok(through)
}

/// The names of the columns of a unit that its statements `keep` and `drop` let through, in the order of its variables: those that the rows
/// of a thread program have.
pub fn columns_left(
    alloc: Global,
    names: &UnitNames,
    globals: &[GlobalItem],
) -> Result<List<Bytes>, OutOfMemory>
    ensures { IfOk result (λ columns. (all : SourceNames) → NamesAre names.now all → all.unit.globals ≡ map global_tree globals.now → columns ≡ columns_left all []) }
{
    let lists = statement_lists(alloc, globals)?;
    let columns = names_through(alloc, &lists, names.variables.as_slice())?;
    Ok(columns)
}
