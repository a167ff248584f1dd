//! Columns whose tables do not join.
ghost use Rattle.std.specs.Prelude.{◌≡◌, ℕ, List as Items, IfOk, OnOk, Some, nat_eq};
ghost use Rattle.std.specs.Cmp.Lexicographic.{pointwise};
ghost use Rattle.std.specs.HashMap.{get};
ghost use Rattle.std.specs.Option.{option_copied};
ghost use Rattle.ds2_types.specs.Judgements.{first_type_refusal, lesser_refusal};
ghost use Rattle.ds2_type_tables.specs.Clashes.{clash_of_column, HasClashes};

use ds2_base::{Bytes, List, OutOfMemory, Refusal};
use ds2_meaning::TypeKind;
use ds2_names::PlacedName;
use ds2_types::refusals::{first_of_both, refusal};
use std::alloc::Global;
use std::collections::HashMap;

/// For each name the broken rule that is given of the columns of that name.
pub type Clashes = HashMap<Bytes, Refusal<TypeKind>>;

/// A broken rule once more.
pub fn same_refusal(broken: Option<&Refusal<TypeKind>>) -> Option<Refusal<TypeKind>>
    ensures { result ≡ option_copied broken.entry }
{
    match broken {
        None => None,
        Some(broken) => Some(refusal(broken.kind, broken.place)),
    }
}

/// Adds a column whose tables do not join: TypeClash at the table at which they do not.
fn note(alloc: Global, clashes: &mut Clashes, c: &PlacedName) -> Result<(), OutOfMemory>
    ensures { OnOk result ((name : Items ℕ) → get (pointwise nat_eq) clashes.new name ≡ lesser_refusal (get (pointwise nat_eq) clashes.old name) (first_type_refusal (clash_of_column name c.now))) }
{
    let before = same_refusal(clashes.get(&c.name));
    let first = first_given(before, refusal(TypeKind::TypeClash, c.place));
    let key = List::from_slice(alloc, c.name.as_slice())?;
    clashes.insert(key, first)?;
    Ok(())
}

/// The one that is given of what was broken before, and of a broken rule.
fn first_given(before: Option<Refusal<TypeKind>>, own: Refusal<TypeKind>) -> Refusal<TypeKind>
    ensures { Some result ≡ lesser_refusal before (Some own) }
{
    match before {
        None => own,
        Some(before) => first_of_both(before, Some(own)),
    }
}

/// The table of these columns.
pub fn clash_table(alloc: Global, columns: &[PlacedName]) -> Result<Clashes, OutOfMemory>
    ensures { IfOk result (λ clashes. HasClashes clashes columns.now) }
{
    let mut clashes: Clashes = HashMap::new(alloc);
    'columns: for c in columns {
        note(alloc, &mut clashes, c)?;
    }
    Ok(clashes)
}
