//! Tables to which variables are added.
ghost use Rattle.std.specs.Prelude.{◌≡◌, ℕ, List as Items, OnOk, nat_eq, bytes_eq, if◌then◌else◌, Some, None};
ghost use Rattle.std.specs.Cmp.Lexicographic.{pointwise};
ghost use Rattle.std.specs.HashMap.{get};
ghost use Rattle.ds2_reference_types.specs.Scopes.{known_or};

use ds2_base::{List, OutOfMemory};
use ds2_reference_types::scopes::{KnownName, KnownNames};
use std::alloc::Global;

/// Adds a variable, unless the table has one of its name.
pub fn add(alloc: Global, names: &mut KnownNames, known: KnownName) -> Result<(), OutOfMemory>
    ensures { OnOk result ((name : Items ℕ) → get (pointwise nat_eq) names.new name ≡ known_or (get (pointwise nat_eq) names.old name) (if bytes_eq known.name name then Some known else None)) }
{
    let key = List::from_slice(alloc, known.name.as_str().as_bytes())?;
    if names.contains_key(&key) {
        return Ok(());
    }
    names.insert(key, known)?;
    Ok(())
}
