//! The names that `keep` and `drop` list.
ghost use Rattle.std.specs.Prelude.{◌≡◌, ◌++◌, IfOk, OnOk, map};
ghost use Rattle.ds2_tree.specs.UnitViews.{global_tree};
ghost use Rattle.ds2_names.specs.NameRules.{from_each};
ghost use Rattle.ds2_names.specs.SourceUnit.{names_alone};
ghost use Rattle.ds2_scope.specs.Collected.{listed_in, listed_in_option};
ghost use Rattle.ds2_given_names.specs.OutputParts.{AreLists, AreStatementLists, AreOptionLists, passes_lists};

use crate::lists::KeepDrop;
use ds2_base::{Bytes, List, OutOfMemory};
use ds2_names::PlacedName;
use ds2_scope::{name_set, push_names};
use ds2_tree::{GlobalItem, OutputOption};
use std::alloc::Global;

// Adds the names that a part of a unit lists behind a word.
fn push_listed_in(
    alloc: Global,
    names: &mut List<PlacedName>,
    global: &GlobalItem,
    word: &str,
) -> Result<(), OutOfMemory>
    ensures { OnOk result (names.new ≡ names.old ++ listed_in word.now (global_tree global.now)) }
{
    match global {
        GlobalItem::Listed {
            keyword,
            names: listed,
            ..
        } => {
            if keyword.is_word(word) {
                push_names(alloc, names, listed.as_slice())
            } else {
                Ok(())
            }
        }
        GlobalItem::Declaration(_) => Ok(()),
        GlobalItem::Method(_) => Ok(()),
    }
}

// The names that the statements of a unit list behind a word.
fn listed_in_unit(
    alloc: Global,
    globals: &[GlobalItem],
    word: &str,
) -> Result<List<PlacedName>, OutOfMemory>
    ensures { IfOk result (λ names. names ≡ from_each (listed_in word.now) (map global_tree globals.now)) }
{
    let mut names: List<PlacedName> = List::new(alloc);
    'globals: for global in globals {
        push_listed_in(alloc, &mut names, global, word)?;
    }
    Ok(names)
}

// Adds the names that an option lists behind a word.
fn push_listed_by(
    alloc: Global,
    names: &mut List<PlacedName>,
    option: &OutputOption,
    word: &str,
) -> Result<(), OutOfMemory>
    ensures { OnOk result (names.new ≡ names.old ++ listed_in_option word.now option.now) }
{
    match option {
        OutputOption::Listed {
            keyword,
            names: listed,
            ..
        } => {
            if keyword.is_word(word) {
                push_names(alloc, names, listed.as_slice())
            } else {
                Ok(())
            }
        }
        OutputOption::Overwrite { .. } => Ok(()),
        OutputOption::Rename { .. } => Ok(()),
    }
}

// The names that options list behind a word.
fn listed_in_options(
    alloc: Global,
    options: &[OutputOption],
    word: &str,
) -> Result<List<PlacedName>, OutOfMemory>
    ensures { IfOk result (λ names. names ≡ from_each (listed_in_option word.now) options.now) }
{
    let mut names: List<PlacedName> = List::new(alloc);
    'options: for option in options {
        push_listed_by(alloc, &mut names, option, word)?;
    }
    Ok(names)
}

// The tables of these names.
#[tactic(auto, using(crate::proofs::OutputLemmas::given_where_some))]
fn keep_drop(
    alloc: Global,
    kept: &[PlacedName],
    dropped: &[PlacedName],
) -> Result<KeepDrop, OutOfMemory>
    ensures { IfOk result (λ lists. AreLists lists (names_alone kept.now) (names_alone dropped.now)) }
{
    let has_keep = !kept.is_empty();
    let kept = name_set(alloc, kept)?;
    let dropped = name_set(alloc, dropped)?;
    Ok(KeepDrop {
        has_keep,
        kept,
        dropped,
    })
}

/// The tables of the statements of a unit.
pub fn statement_lists(alloc: Global, globals: &[GlobalItem]) -> Result<KeepDrop, OutOfMemory>
    ensures { IfOk result (λ lists. AreStatementLists lists (map global_tree globals.now)) }
{
    let kept = listed_in_unit(alloc, globals, "keep")?;
    let dropped = listed_in_unit(alloc, globals, "drop")?;
    keep_drop(alloc, kept.as_slice(), dropped.as_slice())
}

/// The tables of the options of an output.
pub fn option_lists(alloc: Global, options: &[OutputOption]) -> Result<KeepDrop, OutOfMemory>
    ensures { IfOk result (λ lists. AreOptionLists lists options.now) }
{
    let kept = listed_in_options(alloc, options, "keep")?;
    let dropped = listed_in_options(alloc, options, "drop")?;
    keep_drop(alloc, kept.as_slice(), dropped.as_slice())
}

/// Whether tables let a name through.
pub fn passes_lists(lists: &KeepDrop, name: &Bytes) -> bool
    ensures { result ≡ passes_lists lists.now name.now }
{
    (!lists.has_keep || lists.kept.contains(name)) && !lists.dropped.contains(name)
}
