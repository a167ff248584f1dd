//! The new names that the options of an output give.
ghost use Rattle.std.specs.Prelude.{◌≡◌, ℕ, List as Items, IfOk, OnOk, nat_eq};
ghost use Rattle.std.specs.Cmp.Lexicographic.{pointwise};
ghost use Rattle.std.specs.HashMap.{get};
ghost use Rattle.std.specs.Option.{option_or};
ghost use Rattle.ds2_names.specs.NameRules.{from_each, renamings_in, renamed_to};
ghost use Rattle.ds2_given_names.specs.OutputParts.{HasNewNames, new_name_of};

use ds2_base::OutOfMemory;
use ds2_names::PlacedName;
use ds2_scope::{NameTable, placed_name, spelled_name};
use ds2_tree::{OutputOption, Renaming};
use std::alloc::Global;

/// For each old name the first new one.
pub type NewNames = NameTable<PlacedName>;

// Adds a renaming, unless the old name has a new one.
fn note_renaming(alloc: Global, news: &mut NewNames, r: &Renaming) -> Result<(), OutOfMemory>
    ensures { OnOk result ((name : Items ℕ) → get (pointwise nat_eq) news.new name ≡ option_or (get (pointwise nat_eq) news.old name) (new_name_of name r.now)) }
{
    let old = spelled_name(alloc, &r.old)?;
    if news.get(&old).is_none() {
        let new = placed_name(alloc, &r.new)?;
        news.insert(old, new)?;
    }
    Ok(())
}

// Adds renamings, each unless its old name has a new one.
fn note_renamings(
    alloc: Global,
    news: &mut NewNames,
    renamings: &[Renaming],
) -> Result<(), OutOfMemory>
    ensures { OnOk result ((name : Items ℕ) → get (pointwise nat_eq) news.new name ≡ option_or (get (pointwise nat_eq) news.old name) (renamed_to renamings.now name)) }
{
    'renamings: for r in renamings {
        note_renaming(alloc, news, r)?;
    }
    Ok(())
}

// Adds the renamings of an option.
fn note_option(alloc: Global, news: &mut NewNames, option: &OutputOption) -> Result<(), OutOfMemory>
    ensures { OnOk result ((name : Items ℕ) → get (pointwise nat_eq) news.new name ≡ option_or (get (pointwise nat_eq) news.old name) (renamed_to (renamings_in option.now) name)) }
{
    match option {
        OutputOption::Rename { renamings, .. } => note_renamings(alloc, news, renamings.as_slice()),
        OutputOption::Listed { .. } => Ok(()),
        OutputOption::Overwrite { .. } => Ok(()),
    }
}

/// The new names that options give.
pub fn new_names(alloc: Global, options: &[OutputOption]) -> Result<NewNames, OutOfMemory>
    ensures { IfOk result (λ news. HasNewNames news (from_each renamings_in options.now)) }
{
    let mut news: NewNames = NameTable::new(alloc);
    'options: for option in options {
        note_option(alloc, &mut news, option)?;
    }
    Ok(news)
}
