//! A table of the instances of a unit.
ghost use Rattle.std.specs.Prelude.{◌≡◌, ◌++◌, ℕ, List as Items, IfOk, OnOk, nat_eq, map};
ghost use Rattle.std.specs.Cmp.Lexicographic.{pointwise};
ghost use Rattle.std.specs.HashMap.{get};
ghost use Rattle.std.specs.Option.{option_or};
ghost use Rattle.ds2_tree.specs.Globals.{Declared};
ghost use Rattle.ds2_tree.specs.UnitViews.{global_tree};
ghost use Rattle.ds2_names.specs.SourceUnit.{spelled_name, spelled_text, bracketed_tokens, source_instances};
ghost use Rattle.ds2_calls.specs.InstanceSorts.{bracketed_names, sort_if_spelled, sort_in, HasSorts};

use ds2_base::{Bytes, List, OutOfMemory};
use ds2_scope::{NameTable, spelled_name};
use ds2_token::Token;
use ds2_tree::{Bracketed, BracketedName, Declaration, GlobalItem};
use std::alloc::Global;

/// What an instance is one of.
#[derive(Drop)]
pub enum Sort {
    /// The package of this name.
    Package(Bytes),
    /// A hash object with these key and data variables.
    Hash(List<Bytes>),
    /// An iterator over the hash object of this name.
    Iterator(Bytes),
    /// The thread program of this name.
    Thread(Bytes),
}

/// For each instance, by its name, what it is one of.
pub type SortTable = NameTable<Sort>;

/// The name that the text constant of a table or a hash object spells. Bytes that are no text, as no constant has them, are want of memory.
#[tactic(auto, using(crate::proofs::SortLemmas::text_told))]
pub fn spelled_text(alloc: Global, constant: &Token) -> Result<Bytes, OutOfMemory>
    ensures { IfOk result (λ name. name ≡ spelled_text constant.now) }
{
    match constant.text(alloc)? {
        Some(text) => Ok(List::of(text.as_bytes().to_ascii_lowercase(alloc)?)),
        None => Err(OutOfMemory),
    }
}

// Adds the names between brackets.
fn push_bracketed(
    alloc: Global,
    names: &mut List<Bytes>,
    bracketed: &[BracketedName],
) -> Result<(), OutOfMemory>
    ensures { OnOk result (names.new ≡ names.old ++ bracketed_names bracketed.now) }
{
    'bracketed: for n in bracketed {
        names.push(spelled_name(alloc, &n.name)?)?;
    }
    Ok(())
}

// The key and data variables of a hash object.
#[tactic(auto, using(crate::proofs::SortLemmas::variables_are))]
fn hash_variables(
    alloc: Global,
    keys: &Bracketed,
    items: &Bracketed,
) -> Result<List<Bytes>, OutOfMemory>
    ensures { IfOk result (λ names. names ≡ map spelled_name (bracketed_tokens keys.now ++ bracketed_tokens items.now)) }
{
    let mut names: List<Bytes> = List::new(alloc);
    push_bracketed(alloc, &mut names, keys.names.as_slice())?;
    push_bracketed(alloc, &mut names, items.names.as_slice())?;
    Ok(names)
}

// Adds an instance, unless its name is there.
fn note_sort(
    alloc: Global,
    sorts: &mut SortTable,
    name: &Token,
    sort: Sort,
) -> Result<(), OutOfMemory>
    ensures { OnOk result ((other : Items ℕ) → get (pointwise nat_eq) sorts.new other ≡ option_or (get (pointwise nat_eq) sorts.old other) (sort_if_spelled other name.now sort)) }
{
    let spelled = spelled_name(alloc, name)?;
    if sorts.get(&spelled).is_none() {
        sorts.insert(spelled, sort)?;
    }
    Ok(())
}

// Adds what a declaration declares, where it is an instance.
fn note_declaration(
    alloc: Global,
    sorts: &mut SortTable,
    declaration: &Declaration,
) -> Result<(), OutOfMemory>
    ensures { OnOk result ((other : Items ℕ) → get (pointwise nat_eq) sorts.new other ≡ option_or (get (pointwise nat_eq) sorts.old other) (sort_in (Declared declaration.now) other)) }
{
    match declaration {
        Declaration::Variables(_) => Ok(()),
        Declaration::Instance { package, name, .. } => {
            let sort = Sort::Package(spelled_name(alloc, package)?);
            note_sort(alloc, sorts, name, sort)
        }
        Declaration::Hash {
            name,
            key_variables,
            data_variables,
            ..
        } => {
            let sort = Sort::Hash(hash_variables(alloc, key_variables, data_variables)?);
            note_sort(alloc, sorts, name, sort)
        }
        Declaration::Hiter { name, hash, .. } => {
            let sort = Sort::Iterator(spelled_text(alloc, hash)?);
            note_sort(alloc, sorts, name, sort)
        }
        Declaration::Thread { thread, name, .. } => {
            let sort = Sort::Thread(spelled_name(alloc, thread)?);
            note_sort(alloc, sorts, name, sort)
        }
    }
}

// Adds a part of a unit, where it declares an instance.
fn note_global(alloc: Global, sorts: &mut SortTable, global: &GlobalItem) -> Result<(), OutOfMemory>
    ensures { OnOk result ((other : Items ℕ) → get (pointwise nat_eq) sorts.new other ≡ option_or (get (pointwise nat_eq) sorts.old other) (sort_in (global_tree global.now) other)) }
{
    match global {
        GlobalItem::Declaration(declaration) => note_declaration(alloc, sorts, declaration),
        GlobalItem::Listed { .. } => Ok(()),
        GlobalItem::Method(_) => Ok(()),
    }
}

/// For each instance of a unit, by its name, what it is one of; the first instance of a name counts.
pub fn instance_sorts(alloc: Global, globals: &[GlobalItem]) -> Result<SortTable, OutOfMemory>
    ensures { IfOk result (λ table. HasSorts table (source_instances (map global_tree globals.now))) }
{
    let mut sorts: SortTable = NameTable::new(alloc);
    'globals: for global in globals {
        note_global(alloc, &mut sorts, global)?;
    }
    Ok(sorts)
}
