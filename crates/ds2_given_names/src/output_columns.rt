//! The columns of an output, and two of them of one name.
ghost use Rattle.std.specs.Prelude.{◌≡◌, ◌&&◌, ℕ, List as Items, IfOk, OnOk, Some, nat_eq};
ghost use Rattle.std.specs.Cmp.Lexicographic.{pointwise};
ghost use Rattle.std.specs.HashMap.{get};
ghost use Rattle.ds2_names.specs.NameRules.{from_each, name_if_renamed, clashing_name};
ghost use Rattle.ds2_scope.specs.Earliest.{earliest};
ghost use Rattle.ds2_given_names.specs.OutputParts.{passes_lists, columns_by, HasFirstNew, earlier_new, first_new, new_if_named, is_new_behind, clashes};

use crate::listed::passes_lists;
use crate::lists::KeepDrop;
use crate::renamed::NewNames;
use ds2_base::{Bytes, List, OutOfMemory, Place};
use ds2_names::{OutputName, PlacedName};
use ds2_scope::{NameTable, earlier_of, is_earlier, place_unless};
use std::alloc::Global;

// For each name of columns the earliest place, None where one of them is not renamed.
type FirstNew = NameTable<Option<Place>>;

// Whether a variable is a column.
fn is_column(statements: &KeepDrop, options: &KeepDrop, name: &Bytes) -> bool
    ensures { result ≡ (passes_lists statements.now name.now && passes_lists options.now name.now) }
{
    passes_lists(statements, name) && passes_lists(options, name)
}

// The name of a column of an output.
fn output_name(alloc: Global, news: &NewNames, name: &Bytes) -> Result<OutputName, OutOfMemory>
    ensures { IfOk result (λ column. column ≡ name_if_renamed name.now (get (pointwise nat_eq) news.now name.now)) }
{
    match news.get(name) {
        None => Ok(OutputName {
            name: List::from_slice(alloc, name.as_slice())?,
            new_place: None,
        }),
        Some(new) => Ok(OutputName {
            name: List::from_slice(alloc, new.name.as_slice())?,
            new_place: Some(new.place),
        }),
    }
}

/// The columns of an output that come of variables.
pub(crate) fn columns_by(
    alloc: Global,
    statements: &KeepDrop,
    options: &KeepDrop,
    news: &NewNames,
    variables: &[PlacedName],
) -> Result<List<OutputName>, OutOfMemory>
    ensures { IfOk result (λ columns. columns ≡ columns_by statements.now options.now news.now variables.now) }
{
    let mut columns: List<OutputName> = List::new(alloc);
    'variables: for n in variables {
        if is_column(statements, options, &n.name) {
            columns.push(output_name(alloc, news, &n.name)?)?;
        }
    }
    Ok(columns)
}

// The earlier of two places of new names, where a name that is not new stands first.
fn earlier_new(a: Option<Place>, b: Option<Place>) -> Option<Place>
    ensures { result ≡ earlier_new a b }
{
    match a {
        None => None,
        Some(first) => match b {
            None => None,
            Some(other) => {
                if is_earlier(other, first) {
                    Some(other)
                } else {
                    Some(first)
                }
            }
        },
    }
}

// The earlier place of a name that is there and a further one.
fn with_place(known: Option<Option<Place>>, new: Option<Place>) -> Option<Place>
    ensures { Some result ≡ first_new known (Some new) }
{
    match known {
        None => new,
        Some(place) => earlier_new(place, new),
    }
}

// Adds a column to the table.
fn note_column(alloc: Global, firsts: &mut FirstNew, n: &OutputName) -> Result<(), OutOfMemory>
    ensures { OnOk result ((name : Items ℕ) → get (pointwise nat_eq) firsts.new name ≡ first_new (get (pointwise nat_eq) firsts.old name) (new_if_named name n.now)) }
{
    let first = with_place(firsts.get(&n.name).copied(), n.new_place);
    let name = List::from_slice(alloc, n.name.as_slice())?;
    firsts.insert(name, first)?;
    Ok(())
}

// The table of these columns.
fn first_columns(alloc: Global, columns: &[OutputName]) -> Result<FirstNew, OutOfMemory>
    ensures { IfOk result (λ firsts. HasFirstNew firsts columns.now) }
{
    let mut firsts: FirstNew = NameTable::new(alloc);
    'columns: for n in columns {
        note_column(alloc, &mut firsts, n)?;
    }
    Ok(firsts)
}

// Whether a new name stands behind another column of its name.
fn is_new_behind(first: Option<Option<Place>>, place: Place) -> bool
    ensures { result ≡ is_new_behind first place }
{
    match first {
        None => false,
        Some(first) => match first {
            None => true,
            Some(other) => is_earlier(other, place),
        },
    }
}

// The place of a renamed column that has the name of another one.
fn clashing_name(firsts: &FirstNew, all: &[OutputName], n: &OutputName) -> Option<Place>
    requires { HasFirstNew firsts.now all.now }
    ensures { result ≡ earliest (clashing_name all.now n.now) }
{
    match n.new_place {
        None => None,
        Some(place) => {
            let first = firsts.get(&n.name).copied();
            place_unless(!is_new_behind(first, place), place)
        }
    }
}

// The earliest place of a renamed column that has the name of another one.
fn earliest_of_clashes(firsts: &FirstNew, all: &[OutputName]) -> Option<Place>
    requires { HasFirstNew firsts.now all.now }
    ensures { result ≡ earliest (from_each (clashing_name all.now) all.now) }
{
    let mut found: Option<Place> = None;
    'all: for n in all {
        found = earlier_of(found, clashing_name(firsts, all, n));
    }
    found
}

/// The earliest place of a renamed column that has the name of another one.
pub(crate) fn earliest_clash(
    alloc: Global,
    columns: &[OutputName],
) -> Result<Option<Place>, OutOfMemory>
    ensures { IfOk result (λ place. place ≡ earliest (clashes columns.now)) }
{
    let firsts = first_columns(alloc, columns)?;
    Ok(earliest_of_clashes(&firsts, columns))
}
