//! The key and data variables of hash objects.
ghost use Rattle.std.specs.Prelude.{◌≡◌, ◌++◌, ◌&&◌, IfOk, nat_eq, option_copied};
ghost use Rattle.ds2_misplaced.specs.InstanceTables.{tests_in_tables};
ghost use Rattle.ds2_misplaced.specs.InstanceTests.{place_unless_named, place_if_test, are_all};
ghost use Rattle.ds2_names.specs.NameRules.{from_each, lacking_table, has_each_column};
ghost use Rattle.ds2_names.specs.SourceUnit.{columns_stored, spelled_name, spelled_text};
ghost use Rattle.ds2_scope.specs.CodeUnits.{names_bracketed};
ghost use Rattle.ds2_scope.specs.Earliest.{earliest};
ghost use Rattle.std.specs.Cmp.Lexicographic.{pointwise};
ghost use Rattle.std.specs.HashSet.{contains};

use crate::tables::InstanceScope;
use ds2_base::{OutOfMemory, Place};
use ds2_calls::spelled_text;
use ds2_names::NamedSchema;
use ds2_scope::{NameSet, column_set, columns_of, earlier_of, place_unless, spelled_name};
use ds2_token::Token;
use ds2_tree::BracketedName;
use std::alloc::Global;

impl InstanceScope<'_, '_, '_> {
    // The place of a variable that is no global.
    fn unless_global(&self, alloc: Global, t: &Token) -> Result<Option<Place>, OutOfMemory>
        ensures { IfOk result (λ place. place ≡ earliest (place_unless_named (tests_in_tables self.now).is_global t.now)) }
    {
        let name = spelled_name(alloc, t)?;
        Ok(place_unless(self.is_global(&name), t.place))
    }

    // The place of a variable that may not be set.
    fn unless_settable(&self, alloc: Global, t: &Token) -> Result<Option<Place>, OutOfMemory>
        ensures { IfOk result (λ place. place ≡ earliest (place_unless_named (tests_in_tables self.now).is_settable t.now)) }
    {
        let name = spelled_name(alloc, t)?;
        Ok(place_unless(self.is_settable(&name), t.place))
    }

    // The place of a variable that is an instance.
    fn if_instance(&self, alloc: Global, t: &Token) -> Result<Option<Place>, OutOfMemory>
        ensures { IfOk result (λ place. place ≡ earliest (place_if_test (tests_in_tables self.now).is_instance t.now)) }
    {
        let name = spelled_name(alloc, t)?;
        Ok(place_unless(!self.is_instance(&name), t.place))
    }

    /// The earliest of these variables that is no global.
    pub(crate) fn unknown_variable(
        &self,
        alloc: Global,
        names: &[BracketedName],
    ) -> Result<Option<Place>, OutOfMemory>
        ensures { IfOk result (λ place. place ≡ earliest (from_each (place_unless_named (tests_in_tables self.now).is_global) (names_bracketed names.now))) }
    {
        let mut found: Option<Place> = None;
        'names: for n in names {
            found = earlier_of(found, self.unless_global(alloc, &n.name)?);
        }
        Ok(found)
    }

    /// The earliest of these variables that may not be set.
    pub(crate) fn not_settable(
        &self,
        alloc: Global,
        names: &[BracketedName],
    ) -> Result<Option<Place>, OutOfMemory>
        ensures { IfOk result (λ place. place ≡ earliest (from_each (place_unless_named (tests_in_tables self.now).is_settable) (names_bracketed names.now))) }
    {
        let mut found: Option<Place> = None;
        'names: for n in names {
            found = earlier_of(found, self.unless_settable(alloc, &n.name)?);
        }
        Ok(found)
    }

    /// The earliest of these variables that is an instance.
    pub(crate) fn instance_among(
        &self,
        alloc: Global,
        names: &[BracketedName],
    ) -> Result<Option<Place>, OutOfMemory>
        ensures { IfOk result (λ place. place ≡ earliest (from_each (place_if_test (tests_in_tables self.now).is_instance) (names_bracketed names.now))) }
    {
        let mut found: Option<Place> = None;
        'names: for n in names {
            found = earlier_of(found, self.if_instance(alloc, &n.name)?);
        }
        Ok(found)
    }
}

// Whether a set has the name of a variable.
fn has_column(alloc: Global, columns: &NameSet, n: &BracketedName) -> Result<bool, OutOfMemory>
    ensures { IfOk result (λ has. has ≡ contains (pointwise nat_eq) columns.now (spelled_name n.now.name)) }
{
    let name = spelled_name(alloc, &n.name)?;
    Ok(columns.contains(&name))
}

// Whether a set has the names of all these variables.
fn has_columns(
    alloc: Global,
    columns: &NameSet,
    names: &[BracketedName],
) -> Result<bool, OutOfMemory>
    ensures { IfOk result (λ has. has ≡ are_all (contains (pointwise nat_eq) columns.now) (names_bracketed names.now)) }
{
    'names: for n in names {
        if !has_column(alloc, columns, n)? {
            return Ok(false);
        }
    }
    Ok(true)
}

// Whether two tests hold.
fn both(first: bool, second: bool) -> bool
    ensures { result ≡ (first && second) }
{
    first && second
}

// Whether a table has a column for each key and data variable.
fn has_both(
    alloc: Global,
    tables: &[NamedSchema],
    text: &Token,
    keys: &[BracketedName],
    items: &[BracketedName],
) -> Result<bool, OutOfMemory>
    ensures { IfOk result (λ has. has ≡ has_each_column (columns_stored tables.now (spelled_text text.now)) (names_bracketed keys.now ++ names_bracketed items.now)) }
{
    let name = spelled_text(alloc, text)?;
    let columns = column_set(alloc, columns_of(tables, name.as_slice()))?;
    let has_keys = has_columns(alloc, &columns, keys)?;
    let has_items = has_columns(alloc, &columns, items)?;
    Ok(both(has_keys, has_items))
}

/// The text of a hash object's table that lacks a column for one of its variables.
pub(crate) fn lacking_table(
    alloc: Global,
    tables: &[NamedSchema],
    keys: &[BracketedName],
    items: &[BracketedName],
    table: Option<&Token>,
) -> Result<Option<Place>, OutOfMemory>
    ensures { IfOk result (λ place. place ≡ earliest (lacking_table (columns_stored tables.now) (names_bracketed keys.now ++ names_bracketed items.now) (option_copied table.entry))) }
{
    match table {
        None => Ok(None),
        Some(text) => {
            let has_both = has_both(alloc, tables, text, keys, items)?;
            Ok(place_unless(has_both, text.place))
        }
    }
}
