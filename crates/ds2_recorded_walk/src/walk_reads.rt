//! What parts of expressions and statements read and make clean.
ghost use Rattle.std.specs.Prelude.{◌≡◌, [], ◌∷◌, map, OnOk, Some, slice_get};
ghost use Rattle.ds2_value.specs.declared.hash_function.HashFunction.TheVariants as hash_function;
ghost use Rattle.ds2_meaning.specs.declared.globals.OutputColumn.{OutputColumn as ColumnModel};
ghost use Rattle.ds2_meaning.specs.HashObjects.{hash_named, iterator_named};
ghost use Rattle.ds2_locality.specs.Deeds.{variable_at, variables_at, columns_at, columns_written, iterators_over};
ghost use Rattle.ds2_locality.specs.Walk.{GoesOn, all_cleaned, read_location, read_locations, read_by_hash, cleaned_by_hash, walk_hash_call as hash_call_walk, walk_iterator_call as iterator_call_walk};
ghost use Rattle.ds2_deeds.specs.NamedLocations.{location_named};
ghost use Rattle.ds2_deeds.specs.NamedMethods.{method_of_name};
ghost use Rattle.ds2_recorded_walk.specs.RecordedStatements.{GoesOnBy};

use crate::record::RecordedWalk;
use crate::walk_scope::RecordScope;
use ds2_base::{Name, OutOfMemory, Place};
use ds2_deeds::{
    LocationName, MethodName, find_hash, find_iterator, global_location, named_location, number_of,
    number_of_method,
};
use ds2_meaning::{DeclaredHash, DeclaredIterator, HashVariable, OutputColumn, Reference};
use ds2_value::HashFunction;

/// A location is read in the statement at a place.
pub fn read_at(
    scope: &RecordScope<'_>,
    walk: &mut RecordedWalk,
    at: LocationName<'_>,
    place: Place,
) -> Result<(), OutOfMemory>
    ensures { OnOk result (GoesOnBy scope.now walk.old walk.new (λ s. read_location place (location_named at.entry))) }
{
    match number_of(scope.numbers, at) {
        None => Ok(()),
        Some(number) => walk.read(scope.alloc, number, place),
    }
}

/// A location is made clean.
pub fn clean_at(
    scope: &RecordScope<'_>,
    walk: &mut RecordedWalk,
    at: LocationName<'_>,
) -> Result<(), OutOfMemory>
    ensures { OnOk result (GoesOnBy scope.now walk.old walk.new (λ s d. GoesOn (all_cleaned (location_named at.entry ∷ []) d))) }
{
    match number_of(scope.numbers, at) {
        None => Ok(()),
        Some(number) => walk.clean(scope.alloc, number),
    }
}

/// A variable that a body names is read; a parameter or a local of a method is no location.
pub fn read_variable(
    scope: &RecordScope<'_>,
    walk: &mut RecordedWalk,
    variable: &Reference,
    place: Place,
) -> Result<(), OutOfMemory>
    ensures { OnOk result (GoesOnBy scope.now walk.old walk.new (λ s. read_locations place (variable_at s.code.home variable.now))) }
{
    match variable {
        Reference::At(global) => {
            read_at(scope, walk, global_location(scope.body.home, global), place)
        }
        Reference::Local(_) => Ok(()),
    }
}

/// A variable that a body names is made clean.
pub fn clean_variable(
    scope: &RecordScope<'_>,
    walk: &mut RecordedWalk,
    variable: &Reference,
) -> Result<(), OutOfMemory>
    ensures { OnOk result (GoesOnBy scope.now walk.old walk.new (λ s d. GoesOn (all_cleaned (variable_at s.code.home variable.now) d))) }
{
    match variable {
        Reference::At(global) => clean_at(scope, walk, global_location(scope.body.home, global)),
        Reference::Local(_) => Ok(()),
    }
}

// The variables of a hash object are read, in order.
fn read_variables(
    scope: &RecordScope<'_>,
    walk: &mut RecordedWalk,
    variables: &[HashVariable],
    place: Place,
) -> Result<(), OutOfMemory>
    ensures { OnOk result (GoesOnBy scope.now walk.old walk.new (λ s. read_locations place (variables_at s.code.home variables.now))) }
{
    'variables: for variable in variables {
        let at = global_location(scope.body.home, &variable.global);
        read_at(scope, walk, at, place)?;
    }
    Ok(())
}

// A hash object and its key variables are read.
fn read_keys(
    scope: &RecordScope<'_>,
    walk: &mut RecordedWalk,
    hash: &DeclaredHash,
    place: Place,
) -> Result<(), OutOfMemory>
    ensures { OnOk result (GoesOnBy scope.now walk.old walk.new (λ s. read_locations place (read_by_hash s.code.home hash_function.Find hash.now))) }
{
    read_at(
        scope,
        walk,
        named_location(scope.body.home, &hash.name),
        place,
    )?;
    read_variables(scope, walk, hash.key_variables.as_slice(), place)
}

// A hash object, its key and its data variables are read.
fn read_item(
    scope: &RecordScope<'_>,
    walk: &mut RecordedWalk,
    hash: &DeclaredHash,
    place: Place,
) -> Result<(), OutOfMemory>
    ensures { OnOk result (GoesOnBy scope.now walk.old walk.new (λ s. read_locations place (read_by_hash s.code.home hash_function.Add hash.now))) }
{
    read_keys(scope, walk, hash, place)?;
    read_variables(scope, walk, hash.data_variables.as_slice(), place)
}

// What a call of a hash object reads.
fn read_for_hash_call(
    scope: &RecordScope<'_>,
    walk: &mut RecordedWalk,
    hash: &DeclaredHash,
    function: HashFunction,
    place: Place,
) -> Result<(), OutOfMemory>
    ensures { OnOk result (GoesOnBy scope.now walk.old walk.new (λ s. read_locations place (read_by_hash s.code.home function hash.now))) }
{
    match function {
        HashFunction::Find => read_keys(scope, walk, hash, place),
        HashFunction::Check => read_keys(scope, walk, hash, place),
        HashFunction::Remove => read_keys(scope, walk, hash, place),
        HashFunction::Add => read_item(scope, walk, hash, place),
        HashFunction::Replace => read_item(scope, walk, hash, place),
        HashFunction::NumItems => {
            read_at(
                scope,
                walk,
                named_location(scope.body.home, &hash.name),
                place,
            )
        }
        HashFunction::Clear => Ok(()),
    }
}

// An iterator is made clean, where it is one of the hash object of this name.
fn clean_iterator(
    scope: &RecordScope<'_>,
    walk: &mut RecordedWalk,
    iterator: &DeclaredIterator,
    hash: &Name,
) -> Result<(), OutOfMemory>
    ensures { OnOk result (GoesOnBy scope.now walk.old walk.new (λ s d. GoesOn (all_cleaned (iterators_over s.code.home (iterator.now ∷ []) hash.now) d))) }
{
    if iterator.hash == *hash {
        clean_at(scope, walk, named_location(scope.body.home, &iterator.name))
    } else {
        Ok(())
    }
}

// The iterators of the hash object of a name are made clean.
fn clean_iterators(
    scope: &RecordScope<'_>,
    walk: &mut RecordedWalk,
    hash: &Name,
) -> Result<(), OutOfMemory>
    ensures { OnOk result (GoesOnBy scope.now walk.old walk.new (λ s d. GoesOn (all_cleaned (iterators_over s.code.home s.code.objects.iterators hash.now) d))) }
{
    'iterators: for iterator in scope.body.iterators {
        clean_iterator(scope, walk, iterator, hash)?;
    }
    Ok(())
}

// A hash object and its iterators are made clean.
fn clean_items(
    scope: &RecordScope<'_>,
    walk: &mut RecordedWalk,
    hash: &DeclaredHash,
) -> Result<(), OutOfMemory>
    ensures { OnOk result (GoesOnBy scope.now walk.old walk.new (λ s d. GoesOn (all_cleaned (cleaned_by_hash s.code.home s.code.objects.iterators hash_function.Clear hash.now) d))) }
{
    clean_at(scope, walk, named_location(scope.body.home, &hash.name))?;
    clean_iterators(scope, walk, &hash.name)
}

// What a call of a hash object makes clean.
fn clean_for_hash_call(
    scope: &RecordScope<'_>,
    walk: &mut RecordedWalk,
    hash: &DeclaredHash,
    function: HashFunction,
) -> Result<(), OutOfMemory>
    ensures { OnOk result (GoesOnBy scope.now walk.old walk.new (λ s d. GoesOn (all_cleaned (cleaned_by_hash s.code.home s.code.objects.iterators function hash.now) d))) }
{
    match function {
        HashFunction::Find => Ok(()),
        HashFunction::Check => Ok(()),
        HashFunction::Remove => Ok(()),
        HashFunction::Add => Ok(()),
        HashFunction::Replace => Ok(()),
        HashFunction::NumItems => Ok(()),
        HashFunction::Clear => clean_items(scope, walk, hash),
    }
}

/// A call of a hash object; one that is not there reads nothing.
pub fn walk_hash_call(
    scope: &RecordScope<'_>,
    walk: &mut RecordedWalk,
    hash: &Name,
    function: HashFunction,
    place: Place,
) -> Result<(), OutOfMemory>
    ensures { OnOk result (GoesOnBy scope.now walk.old walk.new (λ s. hash_call_walk s.code function (hash_named s.code.objects.hashes hash.now) place)) }
{
    match find_hash(scope.body.hashes, hash) {
        None => Ok(()),
        Some(hash) => {
            read_for_hash_call(scope, walk, hash, function, place)?;
            clean_for_hash_call(scope, walk, hash, function)
        }
    }
}

/// A call of an iterator; one that is not there reads nothing.
pub fn walk_iterator_call(
    scope: &RecordScope<'_>,
    walk: &mut RecordedWalk,
    iterator: &Name,
    place: Place,
) -> Result<(), OutOfMemory>
    ensures { OnOk result (GoesOnBy scope.now walk.old walk.new (λ s. iterator_call_walk s.code (iterator_named s.code.objects.iterators iterator.now) place)) }
{
    match find_iterator(scope.body.iterators, iterator) {
        None => Ok(()),
        Some(iterator) => {
            read_at(
                scope,
                walk,
                named_location(scope.body.home, &iterator.name),
                place,
            )?;
            read_at(
                scope,
                walk,
                named_location(scope.body.home, &iterator.hash),
                place,
            )
        }
    }
}

// The variables of columns are read, in order.
fn read_columns(
    scope: &RecordScope<'_>,
    walk: &mut RecordedWalk,
    columns: &[OutputColumn],
    place: Place,
) -> Result<(), OutOfMemory>
    ensures { OnOk result (GoesOnBy scope.now walk.old walk.new (λ s. read_locations place (columns_at s.code.home (Some (map (λ (c : ColumnModel). c.source) columns.now))))) }
{
    'columns: for column in columns {
        read_at(
            scope,
            walk,
            named_location(scope.body.home, &column.source),
            place,
        )?;
    }
    Ok(())
}

/// The variables of the columns of an output are read; one that is not there has none.
pub fn read_output(
    scope: &RecordScope<'_>,
    walk: &mut RecordedWalk,
    number: usize,
    place: Place,
) -> Result<(), OutOfMemory>
    ensures { OnOk result (GoesOnBy scope.now walk.old walk.new (λ s. read_locations place (columns_at s.code.home (slice_get s.code.outputs number)))) }
{
    match scope.body.outputs.get(number) {
        None => Ok(()),
        Some(output) => read_columns(scope, walk, output.columns.as_slice(), place),
    }
}

/// The variables that an `output` to outputs of these numbers writes are read, in order.
pub fn read_outputs(
    scope: &RecordScope<'_>,
    walk: &mut RecordedWalk,
    outputs: &[u32],
    place: Place,
) -> Result<(), OutOfMemory>
    ensures { OnOk result (GoesOnBy scope.now walk.old walk.new (λ s. read_locations place (columns_written s.code outputs.now))) }
{
    'outputs: for number in outputs {
        read_output(scope, walk, *number as usize, place)?;
    }
    Ok(())
}

/// A method is called in the statement at a place; one that is not there does nothing.
pub fn walk_method_call(
    scope: &RecordScope<'_>,
    walk: &mut RecordedWalk,
    method: MethodName<'_>,
    place: Place,
) -> Result<(), OutOfMemory>
    ensures { OnOk result (GoesOnBy scope.now walk.old walk.new (λ s. s.calls (method_of_name method.entry) place)) }
{
    match number_of_method(scope.numbers, method) {
        None => Ok(()),
        Some(number) => match scope.effects.get(number) {
            None => Ok(()),
            Some(effect) => walk.call(scope.alloc, effect, place),
        },
    }
}
