//! The BY variables of what a program reads.
ghost use Rattle.std.specs.Prelude.{◌≡◌, ℕ, List as Items, IfOk, OnOk, nat_eq, bytes_eq, if◌then◌else◌, Some, None};
ghost use Rattle.std.specs.Cmp.Lexicographic.{pointwise};
ghost use Rattle.std.specs.HashMap.{get};
ghost use Rattle.std.specs.Option.{option_or};
ghost use Rattle.ds2_type_tables.specs.Bys.{HasBys};

use ds2_base::{List, Name, OutOfMemory};
use ds2_reference_types::scopes::KnownBys;
use std::alloc::Global;
use std::collections::HashMap;

/// Adds a BY variable, unless it is there.
fn note(alloc: Global, bys: &mut KnownBys, by: &Name) -> Result<(), OutOfMemory>
    ensures { OnOk result ((name : Items ℕ) → get (pointwise nat_eq) bys.new name ≡ option_or (get (pointwise nat_eq) bys.old name) (if bytes_eq by.now name then Some by.now else None)) }
{
    let key = List::from_slice(alloc, by.as_str().as_bytes())?;
    if bys.get(&key).is_none() {
        let name = by.copy(alloc)?;
        bys.insert(key, name)?;
    }
    Ok(())
}

/// The table of these BY variables.
pub fn bys(alloc: Global, names: &[Name]) -> Result<KnownBys, OutOfMemory>
    ensures { IfOk result (λ table. HasBys table names.now) }
{
    let mut table: KnownBys = HashMap::new(alloc);
    'names: for by in names {
        note(alloc, &mut table, by)?;
    }
    Ok(table)
}
