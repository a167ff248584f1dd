//! The tables of the store that a unit mentions.
ghost use Rattle.std.specs.Prelude.{◌≡◌, ◌||◌, ◌++◌, [], ◌∷◌, ℕ, List as Items, IfOk, OnOk, nat_eq, bytes_eq, if◌then◌else◌, map};
ghost use Rattle.std.specs.Cmp.Lexicographic.{pointwise};
ghost use Rattle.std.specs.HashSet.{contains};
ghost use Rattle.ds2_tree.specs.UnitViews.{global_tree};
ghost use Rattle.ds2_meaning.specs.ProgramTree.{is_listed};
ghost use Rattle.ds2_names.specs.NameRules.{from_each};
ghost use Rattle.ds2_names.specs.SourceUnit.{names_alone, sized_table};
ghost use Rattle.ds2_resolve.specs.StoreMentions.{is_of_store, stored_table, stored_text, stored_in_hash, stored_in_global, first_by};

use crate::makers::{Makers, maker_of};
use ds2_base::{Bytes, List, OutOfMemory};
use ds2_calls::spelled_text;
use ds2_names::PlacedName;
use ds2_scope::{NameSet, add_name, placed_name, tables_of};
use ds2_token::Token;
use ds2_tree::{Declaration, GlobalItem, HashSize, Input};
use std::alloc::Global;

// Whether no program makes a table.
fn is_of_store(makers: &Makers, name: &Bytes) -> bool
    ensures { result ≡ is_of_store makers.now name.now }
{
    maker_of(makers, name) == 0
}

// Adds the table of an input, where no program makes it.
fn push_input(
    alloc: Global,
    makers: &Makers,
    found: &mut List<PlacedName>,
    input: &Input,
) -> Result<(), OutOfMemory>
    ensures { OnOk result (found.new ≡ found.old ++ stored_table (is_of_store makers.now) input.now) }
{
    let table = placed_name(alloc, &input.table)?;
    if is_of_store(makers, &table.name) {
        found.push(table)
    } else {
        Ok(())
    }
}

// Adds the tables of inputs that no program makes.
fn push_inputs(
    alloc: Global,
    makers: &Makers,
    found: &mut List<PlacedName>,
    inputs: &[Input],
) -> Result<(), OutOfMemory>
    ensures { OnOk result (found.new ≡ found.old ++ from_each (stored_table (is_of_store makers.now)) inputs.now) }
{
    'inputs: for input in inputs {
        push_input(alloc, makers, found, input)?;
    }
    Ok(())
}

// Adds the table of a text, where no program makes it.
fn push_text(
    alloc: Global,
    makers: &Makers,
    found: &mut List<PlacedName>,
    text: &Token,
) -> Result<(), OutOfMemory>
    ensures { OnOk result (found.new ≡ found.old ++ stored_text (is_of_store makers.now) text.now) }
{
    let name = spelled_text(alloc, text)?;
    if is_of_store(makers, &name) {
        found.push(PlacedName {
            name,
            place: text.place,
        })
    } else {
        Ok(())
    }
}

// Adds the table of a hash object, where it has one and no program makes it.
fn push_hash_table(
    alloc: Global,
    makers: &Makers,
    found: &mut List<PlacedName>,
    size: &Option<HashSize>,
) -> Result<(), OutOfMemory>
    ensures { OnOk result (found.new ≡ found.old ++ stored_in_hash (is_of_store makers.now) (sized_table size.now)) }
{
    match size {
        None => Ok(()),
        Some(size) => match &size.table {
            None => Ok(()),
            Some(table) => push_text(alloc, makers, found, &table.text),
        },
    }
}

// Adds the table of a hash object or those of the reading statement of a method, where a part of a unit is one.
fn push_in_global(
    alloc: Global,
    makers: &Makers,
    found: &mut List<PlacedName>,
    global: &GlobalItem,
) -> Result<(), OutOfMemory>
    ensures { OnOk result (found.new ≡ found.old ++ stored_in_global (is_of_store makers.now) (global_tree global.now)) }
{
    match global {
        GlobalItem::Method(m) => {
            push_inputs(alloc, makers, found, tables_of(m.reading.as_ref()))
        }
        GlobalItem::Listed { .. } => Ok(()),
        GlobalItem::Declaration(declaration) => match declaration {
            Declaration::Variables(_) => Ok(()),
            Declaration::Instance { .. } => Ok(()),
            Declaration::Hash { size, .. } => push_hash_table(alloc, makers, found, size),
            Declaration::Hiter { .. } => Ok(()),
            Declaration::Thread { .. } => Ok(()),
        },
    }
}

/// The tables that hash objects and reading statements mention and that no program makes, in order.
pub(crate) fn stored_tables(
    alloc: Global,
    makers: &Makers,
    globals: &[GlobalItem],
) -> Result<List<PlacedName>, OutOfMemory>
    ensures { IfOk result (λ found. found ≡ from_each (stored_in_global (is_of_store makers.now)) (map global_tree globals.now)) }
{
    let mut found: List<PlacedName> = List::new(alloc);
    'globals: for global in globals {
        push_in_global(alloc, makers, &mut found, global)?;
    }
    Ok(found)
}

// Adds a table to those that are mentioned, and to a list where it is mentioned for the first time.
fn mention_one(
    alloc: Global,
    mentioned: &mut NameSet,
    first: &mut List<PlacedName>,
    table: &PlacedName,
) -> Result<(), OutOfMemory>
    ensures set { OnOk result ((name : Items ℕ) → contains (pointwise nat_eq) mentioned.new name ≡ (bytes_eq table.now.name name || contains (pointwise nat_eq) mentioned.old name)) }
    ensures first { OnOk result (first.new ≡ first.old ++ (if contains (pointwise nat_eq) mentioned.old table.now.name then [] else table.now ∷ [])) }
{
    if add_name(alloc, mentioned, table.name.as_slice())? {
        let name = List::from_slice(alloc, table.name.as_slice())?;
        first.push(PlacedName {
            name,
            place: table.place,
        })
    } else {
        Ok(())
    }
}

/// Adds tables to those that are mentioned, and gives those that are mentioned for the first time.
pub(crate) fn mention(
    alloc: Global,
    mentioned: &mut NameSet,
    tables: &[PlacedName],
) -> Result<List<PlacedName>, OutOfMemory>
    ensures set { IfOk result (λ first. (name : Items ℕ) → contains (pointwise nat_eq) mentioned.new name ≡ (is_listed (names_alone first) name || contains (pointwise nat_eq) mentioned.old name)) }
    ensures first { IfOk result (λ first. first ≡ first_by (contains (pointwise nat_eq) mentioned.old) tables.now) }
{
    let mut first: List<PlacedName> = List::new(alloc);
    'tables: for table in tables {
        mention_one(alloc, mentioned, &mut first, table)?;
    }
    Ok(first)
}
