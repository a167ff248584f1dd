//! The names that `retain` lists.
ghost use Rattle.std.specs.Prelude.{◌≡◌, ◌++◌, IfOk, OnOk, codes, map};
ghost use Rattle.ds2_names.specs.NameRules.{listed_in_statements};
ghost use Rattle.ds2_names.specs.SourceUnit.{spelled_name};
ghost use Rattle.ds2_unit_parts.specs.RetainedNames.{retained_in};
ghost use Rattle.ds2_tree.specs.UnitViews.{global_tree};

use ds2_base::{List, Name, OutOfMemory};
use ds2_declared_types::names::name;
use ds2_token::Token;
use ds2_tree::GlobalItem;
use std::alloc::Global;

/// Adds the names that tokens spell.
fn push_names(alloc: Global, names: &mut List<Name>, tokens: &[Token]) -> Result<(), OutOfMemory>
    ensures { OnOk result (names.new ≡ names.old ++ map spelled_name tokens.now) }
{
    'tokens: for token in tokens {
        let own = name(alloc, token)?;
        names.push(own)?;
    }
    Ok(())
}

/// Adds the names of a `retain`.
fn push_retained(
    alloc: Global,
    names: &mut List<Name>,
    global: &GlobalItem,
) -> Result<(), OutOfMemory>
    ensures { OnOk result (names.new ≡ names.old ++ retained_in (global_tree global.now)) }
{
    match global {
        GlobalItem::Listed {
            keyword,
            names: listed,
            ..
        } => {
            if keyword.is_word("retain") {
                push_names(alloc, names, listed.as_slice())
            } else {
                Ok(())
            }
        }
        GlobalItem::Declaration(_) => Ok(()),
        GlobalItem::Method(_) => Ok(()),
    }
}

/// The names that `retain` lists in a program.
pub fn retained(alloc: Global, globals: &[GlobalItem]) -> Result<List<Name>, OutOfMemory>
    ensures { IfOk result (λ names. names ≡ listed_in_statements (codes "retain") (map global_tree globals.now)) }
{
    let mut names: List<Name> = List::new(alloc);
    'globals: for global in globals {
        push_retained(alloc, &mut names, global)?;
    }
    Ok(names)
}
