//! Tables of what a unit gives names to.
ghost use Rattle.std.specs.Prelude.{◌≡◌, ◌++◌, ℕ, List as Items, IfOk, OnOk, nat_eq, not, ◌||◌};
ghost use Rattle.std.specs.Cmp.Lexicographic.{pointwise};
ghost use Rattle.std.specs.HashSet.{contains};
ghost use Rattle.ds2_names.specs.SourceUnit.{SourceNames, is_named, is_package};
ghost use Rattle.ds2_scope.specs.CodeUnits.{unit_kind};
ghost use Rattle.ds2_scope.specs.UnitNames.{NamesAre};
ghost use Rattle.ds2_name_uses.specs.ScopeTables.{AreTablesOf};

use crate::scope::UnitTables;
use ds2_base::OutOfMemory;
use ds2_names::PlacedName;
use ds2_scope::{NameSet, UnitKind, UnitNames, add_name, name_set};
use std::alloc::Global;

/// Whether a unit of a kind is a program.
pub(crate) fn is_program(kind: UnitKind) -> bool
    ensures { result ≡ not (is_package (unit_kind kind)) }
{
    match kind {
        UnitKind::Package => false,
        UnitKind::Thread => true,
        UnitKind::Data => true,
    }
}

// Adds names to a set.
fn add_names(alloc: Global, set: &mut NameSet, names: &[PlacedName]) -> Result<(), OutOfMemory>
    ensures { OnOk result ((name : Items ℕ) → contains (pointwise nat_eq) set.new name ≡ (contains (pointwise nat_eq) set.old name || is_named names.now name)) }
{
    'names: for n in names {
        add_name(alloc, set, n.name.as_slice())?;
    }
    Ok(())
}

// The set of the names of two lists.
fn set_of_both(
    alloc: Global,
    first: &[PlacedName],
    second: &[PlacedName],
) -> Result<NameSet, OutOfMemory>
    ensures { IfOk result (λ set. (name : Items ℕ) → contains (pointwise nat_eq) set name ≡ is_named (first.now ++ second.now) name) }
{
    let mut set = name_set(alloc, first)?;
    add_names(alloc, &mut set, second)?;
    Ok(set)
}

/// The tables of a unit's names.
pub(crate) fn tables_of_unit(
    alloc: Global,
    names: &UnitNames,
    kind: UnitKind,
) -> Result<UnitTables, OutOfMemory>
    ensures { IfOk result (λ t. (all : SourceNames) → NamesAre names.now all → all.unit.kind ≡ unit_kind kind → AreTablesOf t all) }
{
    let settable = set_of_both(
        alloc,
        names.variables.as_slice(),
        names.parameters.as_slice(),
    )?;
    let flags = name_set(alloc, names.flags.as_slice())?;
    let bys = name_set(alloc, names.bys.as_slice())?;
    let outputs = name_set(alloc, names.outputs.as_slice())?;
    Ok(UnitTables {
        settable,
        flags,
        bys,
        outputs,
        is_open: names.is_open,
        is_program: is_program(kind),
    })
}
