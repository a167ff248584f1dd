//! The deeds of calls of hash objects and iterators.
ghost use Rattle.std.specs.Prelude.{◌≡◌, [], ◌∷◌, map, OnOk, Some, slice_get};
ghost use Rattle.ds2_value.specs.declared.hash_function.HashFunction.TheVariants as hash_function;
ghost use Rattle.ds2_meaning.specs.declared.globals.OutputColumn.{OutputColumn as ColumnModel};
ghost use Rattle.ds2_meaning.specs.ProgramTree.{sources};
ghost use Rattle.ds2_meaning.specs.HashObjects.{hash_named, iterator_named};
ghost use Rattle.ds2_locality.specs.Deeds.{Mention, Change, hash_variables_at, iterators_over, columns_at, columns_written, changed_by_hash, hash_deeds as deeds_of_hash, walked_hash_deeds, iterator_deeds as deeds_of_iterator};
ghost use Rattle.ds2_deeds.specs.CodeTrees.{scope_of};
ghost use Rattle.ds2_deeds.specs.NamedLocations.{code_home};
ghost use Rattle.ds2_deeds.specs.NumberedDeeds.{numbers_of, with_deeds};

use crate::deed::{NumberedDeed, add_change, add_changes, add_mention, add_mentions, add_object};
use crate::location::{CodeHome, named_location};
use crate::numbers::Numbers;
use crate::scope::{BodyScope, find_hash, find_iterator, find_output};
use ds2_base::{List, Name, OutOfMemory};
use ds2_meaning::{DeclaredHash, DeclaredIterator, OutputColumn};
use ds2_value::HashFunction;

// An iterator is changed where it is one of the hash object of a name.
#[tactic(auto, using(crate::proofs::DeedLemmas::none_added))]
fn add_iterator_over(
    numbers: Numbers<'_>,
    deeds: &mut List<NumberedDeed>,
    home: CodeHome<'_>,
    hash: &Name,
    iterator: &DeclaredIterator,
) -> Result<(), OutOfMemory>
    ensures { OnOk result (deeds.new ≡ with_deeds (numbers_of numbers.entry) (map Change (iterators_over (code_home home.entry) (iterator.now ∷ []) hash.now)) deeds.old) }
{
    if iterator.hash == *hash {
        add_change(numbers, deeds, named_location(home, &iterator.name))
    } else {
        Ok(())
    }
}

// The iterators of the hash object of a name are changed.
fn add_iterators_over(
    numbers: Numbers<'_>,
    deeds: &mut List<NumberedDeed>,
    scope: &BodyScope<'_>,
    hash: &Name,
) -> Result<(), OutOfMemory>
    ensures { OnOk result (deeds.new ≡ with_deeds (numbers_of numbers.entry) (map Change (iterators_over (code_home scope.now.home) scope.now.iterators.now hash.now)) deeds.old) }
{
    'iterators: for iterator in scope.iterators {
        add_iterator_over(numbers, deeds, scope.home, hash, iterator)?;
    }
    Ok(())
}

// A hash object and its iterators are changed.
#[tactic(auto, using(crate::proofs::DeedLemmas::both_added))]
fn add_items_changed(
    numbers: Numbers<'_>,
    deeds: &mut List<NumberedDeed>,
    scope: &BodyScope<'_>,
    hash: &DeclaredHash,
) -> Result<(), OutOfMemory>
    ensures { OnOk result (deeds.new ≡ with_deeds (numbers_of numbers.entry) (map Change (changed_by_hash (code_home scope.now.home) scope.now.iterators.now hash_function.Add hash.now)) deeds.old) }
{
    add_change(numbers, deeds, named_location(scope.home, &hash.name))?;
    add_iterators_over(numbers, deeds, scope, &hash.name)
}

// What a call of a hash object changes.
#[tactic(auto, using(crate::proofs::DeedLemmas::none_added))]
fn add_hash_changes(
    numbers: Numbers<'_>,
    deeds: &mut List<NumberedDeed>,
    scope: &BodyScope<'_>,
    hash: &DeclaredHash,
    function: HashFunction,
) -> Result<(), OutOfMemory>
    ensures { OnOk result (deeds.new ≡ with_deeds (numbers_of numbers.entry) (map Change (changed_by_hash (code_home scope.now.home) scope.now.iterators.now function hash.now)) deeds.old) }
{
    match function {
        HashFunction::Find => {
            add_changes(numbers, deeds, scope.home, hash.data_variables.as_slice())
        }
        HashFunction::Check => Ok(()),
        HashFunction::NumItems => Ok(()),
        HashFunction::Add => add_items_changed(numbers, deeds, scope, hash),
        HashFunction::Replace => add_items_changed(numbers, deeds, scope, hash),
        HashFunction::Remove => add_items_changed(numbers, deeds, scope, hash),
        HashFunction::Clear => add_items_changed(numbers, deeds, scope, hash),
    }
}

// The key and the data variables of a hash object are mentioned.
#[tactic(auto, using(crate::proofs::DeedLemmas::both_added))]
fn add_hash_variables(
    numbers: Numbers<'_>,
    deeds: &mut List<NumberedDeed>,
    home: CodeHome<'_>,
    hash: &DeclaredHash,
) -> Result<(), OutOfMemory>
    ensures { OnOk result (deeds.new ≡ with_deeds (numbers_of numbers.entry) (map Mention (hash_variables_at (code_home home.entry) hash.now)) deeds.old) }
{
    add_mentions(numbers, deeds, home, hash.key_variables.as_slice())?;
    add_mentions(numbers, deeds, home, hash.data_variables.as_slice())
}

// A call of a hash object that is there.
#[tactic(auto, using(crate::proofs::DeedLemmas::both_added))]
fn add_call_of_hash(
    numbers: Numbers<'_>,
    deeds: &mut List<NumberedDeed>,
    scope: &BodyScope<'_>,
    hash: &DeclaredHash,
    function: HashFunction,
) -> Result<(), OutOfMemory>
    ensures { OnOk result (deeds.new ≡ with_deeds (numbers_of numbers.entry) (deeds_of_hash (scope_of scope.now) function (Some hash.now)) deeds.old) }
{
    add_object(numbers, deeds, named_location(scope.home, &hash.name))?;
    add_hash_variables(numbers, deeds, scope.home, hash)?;
    add_hash_changes(numbers, deeds, scope, hash, function)
}

/// A call of a hash object; one that is not there does nothing.
#[tactic(auto, using(crate::proofs::DeedLemmas::none_added))]
pub fn add_hash_call(
    numbers: Numbers<'_>,
    deeds: &mut List<NumberedDeed>,
    scope: &BodyScope<'_>,
    hash: &Name,
    function: HashFunction,
) -> Result<(), OutOfMemory>
    ensures { OnOk result (deeds.new ≡ with_deeds (numbers_of numbers.entry) (deeds_of_hash (scope_of scope.now) function (hash_named scope.now.hashes.now hash.now)) deeds.old) }
{
    match find_hash(scope.hashes, hash) {
        None => Ok(()),
        Some(hash) => add_call_of_hash(numbers, deeds, scope, hash, function),
    }
}

// A call of an iterator mentions the variables of its hash object, and changes the data variables.
#[tactic(auto, using(crate::proofs::DeedLemmas::none_added, crate::proofs::DeedLemmas::both_added))]
fn add_walked_hash(
    numbers: Numbers<'_>,
    deeds: &mut List<NumberedDeed>,
    scope: &BodyScope<'_>,
    hash: &Name,
) -> Result<(), OutOfMemory>
    ensures { OnOk result (deeds.new ≡ with_deeds (numbers_of numbers.entry) (walked_hash_deeds (code_home scope.now.home) (hash_named scope.now.hashes.now hash.now)) deeds.old) }
{
    match find_hash(scope.hashes, hash) {
        None => Ok(()),
        Some(hash) => {
            add_hash_variables(numbers, deeds, scope.home, hash)?;
            add_changes(numbers, deeds, scope.home, hash.data_variables.as_slice())
        }
    }
}

// A call of an iterator that is there.
#[tactic(auto, using(crate::proofs::DeedLemmas::both_added))]
fn add_call_of_iterator(
    numbers: Numbers<'_>,
    deeds: &mut List<NumberedDeed>,
    scope: &BodyScope<'_>,
    iterator: &DeclaredIterator,
) -> Result<(), OutOfMemory>
    ensures { OnOk result (deeds.new ≡ with_deeds (numbers_of numbers.entry) (deeds_of_iterator (scope_of scope.now) (Some iterator.now)) deeds.old) }
{
    let at = named_location(scope.home, &iterator.name);
    add_object(numbers, deeds, at)?;
    add_object(numbers, deeds, named_location(scope.home, &iterator.hash))?;
    add_change(numbers, deeds, at)?;
    add_walked_hash(numbers, deeds, scope, &iterator.hash)
}

/// A call of an iterator; one that is not there does nothing.
#[tactic(auto, using(crate::proofs::DeedLemmas::none_added))]
pub fn add_iterator_call(
    numbers: Numbers<'_>,
    deeds: &mut List<NumberedDeed>,
    scope: &BodyScope<'_>,
    iterator: &Name,
) -> Result<(), OutOfMemory>
    ensures { OnOk result (deeds.new ≡ with_deeds (numbers_of numbers.entry) (deeds_of_iterator (scope_of scope.now) (iterator_named scope.now.iterators.now iterator.now)) deeds.old) }
{
    match find_iterator(scope.iterators, iterator) {
        None => Ok(()),
        Some(iterator) => add_call_of_iterator(numbers, deeds, scope, iterator),
    }
}

// The variables of columns are mentioned.
fn add_columns(
    numbers: Numbers<'_>,
    deeds: &mut List<NumberedDeed>,
    home: CodeHome<'_>,
    columns: &[OutputColumn],
) -> Result<(), OutOfMemory>
    ensures { OnOk result (deeds.new ≡ with_deeds (numbers_of numbers.entry) (map Mention (columns_at (code_home home.entry) (Some (map (λ (c : ColumnModel). c.source) columns.now)))) deeds.old) }
{
    'columns: for column in columns {
        add_mention(numbers, deeds, named_location(home, &column.source))?;
    }
    Ok(())
}

// The variables of the columns of an output are mentioned.
#[tactic(auto, using(crate::proofs::DeedLemmas::none_added))]
fn add_output(
    numbers: Numbers<'_>,
    deeds: &mut List<NumberedDeed>,
    scope: &BodyScope<'_>,
    number: u32,
) -> Result<(), OutOfMemory>
    ensures { OnOk result (deeds.new ≡ with_deeds (numbers_of numbers.entry) (map Mention (columns_at (code_home scope.now.home) (slice_get (map sources scope.now.outputs.now) number))) deeds.old) }
{
    match find_output(scope.outputs, number) {
        None => Ok(()),
        Some(output) => add_columns(numbers, deeds, scope.home, output.columns.as_slice()),
    }
}

/// The variables that an `output` to outputs of these numbers writes are mentioned.
#[tactic(auto, using(crate::proofs::DeedLemmas::none_added, crate::proofs::DeedLemmas::both_added))]
pub fn add_outputs(
    numbers: Numbers<'_>,
    deeds: &mut List<NumberedDeed>,
    scope: &BodyScope<'_>,
    outputs: &[u32],
) -> Result<(), OutOfMemory>
    ensures { OnOk result (deeds.new ≡ with_deeds (numbers_of numbers.entry) (map Mention (columns_written (scope_of scope.now) outputs.now)) deeds.old) }
{
    'outputs: for number in outputs {
        add_output(numbers, deeds, scope, *number)?;
    }
    Ok(())
}
