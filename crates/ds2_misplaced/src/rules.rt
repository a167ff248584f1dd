//! What the declaration of an instance breaks of each rule.
ghost use Rattle.std.specs.Prelude.{◌≡◌, IfOk, option_copied};
ghost use Rattle.ds2_misplaced.specs.InstanceTables.{tests_in_tables};
ghost use Rattle.ds2_misplaced.specs.InstanceTests.{unknown_by_tests, wrong_by_tests, not_variable_by_tests};
ghost use Rattle.ds2_names.specs.SourceUnit.{HashObject, columns_stored};
ghost use Rattle.ds2_scope.specs.CodeUnits.{instance_sort, names_bracketed};
ghost use Rattle.ds2_scope.specs.Earliest.{earliest};

use crate::constants::{constants_handed, wrong_constants};
use crate::tables::InstanceScope;
use crate::variables::lacking_table;
use ds2_base::{OutOfMemory, Place};
use ds2_calls::spelled_text;
use ds2_names::NamedSchema;
use ds2_scope::{InstanceSort, earlier_of, place_unless, spelled_name};
use ds2_token::Token;
use ds2_tree::BracketedName;
use std::alloc::Global;

// What the variables and the table of a hash object name that is not there.
fn unknown_in_hash(
    alloc: Global,
    scope: InstanceScope<'_, '_, '_>,
    tables: &[NamedSchema],
    keys: &[BracketedName],
    items: &[BracketedName],
    table: Option<&Token>,
) -> Result<Option<Place>, OutOfMemory>
    ensures { IfOk result (λ place. place ≡ earliest (unknown_by_tests (columns_stored tables.now) (tests_in_tables scope.entry) (HashObject (names_bracketed keys.now) (names_bracketed items.now) (option_copied table.entry)))) }
{
    let key = scope.unknown_variable(alloc, keys)?;
    let item = scope.unknown_variable(alloc, items)?;
    let lacking = lacking_table(alloc, tables, keys, items, table)?;
    Ok(earlier_of(earlier_of(key, item), lacking))
}

/// What a declaration names that is not there.
pub(crate) fn unknown_in(
    alloc: Global,
    scope: InstanceScope<'_, '_, '_>,
    tables: &[NamedSchema],
    sort: InstanceSort<'_>,
) -> Result<Option<Place>, OutOfMemory>
    ensures { IfOk result (λ place. place ≡ earliest (unknown_by_tests (columns_stored tables.now) (tests_in_tables scope.entry) (instance_sort sort.entry))) }
{
    match sort {
        InstanceSort::Package { package, .. } => {
            let name = spelled_name(alloc, package)?;
            let is_known = scope.constructor(&name).is_some();
            Ok(place_unless(is_known, package.place))
        }
        InstanceSort::Hash { keys, items, table } => {
            let place = unknown_in_hash(alloc, scope, tables, keys, items, table)?;
            Ok(place)
        }
        InstanceSort::Iterator(hash) => {
            let name = spelled_text(alloc, hash)?;
            Ok(place_unless(scope.is_hash(&name), hash.place))
        }
        InstanceSort::Thread(thread) => {
            let name = spelled_name(alloc, thread)?;
            Ok(place_unless(scope.is_thread(&name), thread.place))
        }
    }
}

/// The place of an instance whose constructor takes another number of constants.
pub(crate) fn wrong_in(
    alloc: Global,
    scope: InstanceScope<'_, '_, '_>,
    place: Place,
    sort: InstanceSort<'_>,
) -> Result<Option<Place>, OutOfMemory>
    ensures { IfOk result (λ found. found ≡ earliest (wrong_by_tests (tests_in_tables scope.entry) place (instance_sort sort.entry))) }
{
    match sort {
        InstanceSort::Package { package, arguments } => {
            let name = spelled_name(alloc, package)?;
            Ok(wrong_constants(place, arguments, scope.constructor(&name)))
        }
        InstanceSort::Hash { .. } => Ok(None),
        InstanceSort::Iterator(_) => Ok(None),
        InstanceSort::Thread(_) => Ok(None),
    }
}

/// What is no variable in a declaration.
pub(crate) fn not_variable_in(
    alloc: Global,
    scope: InstanceScope<'_, '_, '_>,
    sort: InstanceSort<'_>,
) -> Result<Option<Place>, OutOfMemory>
    ensures { IfOk result (λ place. place ≡ earliest (not_variable_by_tests (tests_in_tables scope.entry) (instance_sort sort.entry))) }
{
    match sort {
        InstanceSort::Package { package, arguments } => {
            let name = spelled_name(alloc, package)?;
            Ok(constants_handed(arguments, scope.constructor(&name)))
        }
        InstanceSort::Hash { keys, items, .. } => {
            let key = scope.instance_among(alloc, keys)?;
            let item = scope.not_settable(alloc, items)?;
            Ok(earlier_of(key, item))
        }
        InstanceSort::Iterator(_) => Ok(None),
        InstanceSort::Thread(_) => Ok(None),
    }
}
