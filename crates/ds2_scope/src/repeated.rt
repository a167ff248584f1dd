//! Names that are given twice.
ghost use Rattle.std.specs.Prelude.{◌≡◌, ℕ, List as Items, IfOk, OnOk, nat_eq, bytes_eq, if◌then◌else◌, Some, None};
ghost use Rattle.std.specs.Cmp.Lexicographic.{pointwise};
ghost use Rattle.std.specs.HashMap.{get};
ghost use Rattle.ds2_names.specs.NameRules.{from_each, later_places};
ghost use Rattle.ds2_scope.specs.Earliest.{earlier_of, earliest};
ghost use Rattle.ds2_scope.specs.NamedPlaces.{first_place_of, place_if_named, stands_behind, place_if_before, HasFirstPlaces};

use crate::earliest::{earlier, earlier_of, is_earlier, place_unless};
use crate::name_table::NameTable;
use ds2_base::{List, OutOfMemory, Place};
use ds2_names::PlacedName;
use std::alloc::Global;

// For each name the earliest place at which it is given.
type FirstPlaces = NameTable<Place>;

// Adds a name to the table.
fn note(alloc: Global, firsts: &mut FirstPlaces, n: &PlacedName) -> Result<(), OutOfMemory>
    ensures { OnOk result ((name : Items ℕ) → get (pointwise nat_eq) firsts.new name ≡ earlier_of (get (pointwise nat_eq) firsts.old name) (place_if_named name n.now)) }
{
    let first = earlier(firsts.get(&n.name).copied(), n.place);
    let name = List::from_slice(alloc, n.name.as_slice())?;
    firsts.insert(name, first)?;
    Ok(())
}

// The table of these names.
fn first_places(alloc: Global, names: &[PlacedName]) -> Result<FirstPlaces, OutOfMemory>
    ensures { IfOk result (λ firsts. HasFirstPlaces firsts names.now) }
{
    let mut firsts: FirstPlaces = NameTable::new(alloc);
    'names: for n in names {
        note(alloc, &mut firsts, n)?;
    }
    Ok(firsts)
}

// Whether a place stands behind another one, where there is one.
fn stands_behind(first: Option<Place>, place: Place) -> bool
    ensures { result ≡ stands_behind first place }
{
    match first {
        None => false,
        Some(first) => is_earlier(first, place),
    }
}

// The place of a name that is given before.
fn place_if_before(firsts: &FirstPlaces, all: &[PlacedName], n: &PlacedName) -> Option<Place>
    requires { HasFirstPlaces firsts.now all.now }
    ensures { result ≡ earliest (place_if_before all.now n.now) }
{
    let first = firsts.get(&n.name).copied();
    place_unless(!stands_behind(first, n.place), n.place)
}

// The earliest place of a name that is given before.
fn earliest_behind(firsts: &FirstPlaces, all: &[PlacedName]) -> Option<Place>
    requires { HasFirstPlaces firsts.now all.now }
    ensures { result ≡ earliest (from_each (place_if_before all.now) all.now) }
{
    let mut found: Option<Place> = None;
    'names: for n in all {
        found = earlier_of(found, place_if_before(firsts, all, n));
    }
    found
}

/// The earliest place of a name that stands behind the same name.
pub fn earliest_later(alloc: Global, names: &[PlacedName]) -> Result<Option<Place>, OutOfMemory>
    ensures { IfOk result (λ place. place ≡ earliest (later_places names.now)) }
{
    let firsts = first_places(alloc, names)?;
    Ok(earliest_behind(&firsts, names))
}
