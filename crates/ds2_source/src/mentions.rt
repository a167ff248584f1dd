//! The tables that the units of a source mention.
ghost use Rattle.std.specs.Prelude.{◌≡◌, ◌∷◌, ◌++◌, ◌||◌, [], ℕ, List as Items, IfOk, OnOk, bytes_eq, if◌then◌else◌, map, nat_eq};
ghost use Rattle.std.specs.Cmp.Lexicographic.{pointwise};
ghost use Rattle.std.specs.HashSet.{contains};
ghost use Rattle.ds2_tree.specs.UnitViews.{data_tree, global_tree, part_tree};
ghost use Rattle.ds2_tree.specs.Units.{AData};
ghost use Rattle.ds2_tree.specs.declared.readings.Input.{Input as InputTree};
ghost use Rattle.ds2_meaning.specs.ProgramTree.{is_listed};
ghost use Rattle.ds2_names.specs.NameRules.{from_each};
ghost use Rattle.ds2_names.specs.SourceLimits.{named_by_text, tables_in_item};
ghost use Rattle.ds2_names.specs.SourceUnit.{names_alone, placed_name, sized_table};
ghost use Rattle.ds2_source.specs.InputTables.{first_not_known, tables_in_part, names_made_by_outputs, known_behind};

use ds2_base::{List, OutOfMemory};
use ds2_calls::spelled_text;
use ds2_names::PlacedName;
use ds2_scope::{NameSet, add_name, placed_name, spelled_name, tables_of};
use ds2_tree::{DataProgram, Declaration, GlobalItem, HashSize, Input, OutputTable, SourcePart};
use std::alloc::Global;

// Adds the tables of inputs.
fn push_tables(
    alloc: Global,
    found: &mut List<PlacedName>,
    inputs: &[Input],
) -> Result<(), OutOfMemory>
    ensures { OnOk result (found.new ≡ found.old ++ map (λ (i : InputTree). placed_name i.table) inputs.now) }
{
    'inputs: for input in inputs {
        found.push(placed_name(alloc, &input.table)?)?;
    }
    Ok(())
}

// Adds the table of a hash object, where it has one.
fn push_hash_table(
    alloc: Global,
    found: &mut List<PlacedName>,
    size: &Option<HashSize>,
) -> Result<(), OutOfMemory>
    ensures { OnOk result (found.new ≡ found.old ++ named_by_text (sized_table size.now)) }
{
    match size {
        None => Ok(()),
        Some(size) => match &size.table {
            None => Ok(()),
            Some(table) => {
                let name = spelled_text(alloc, &table.text)?;
                found.push(PlacedName {
                    name,
                    place: table.text.place,
                })
            }
        },
    }
}

// Adds the tables that a part of a unit mentions: that of a hash object, or those of a reading statement.
fn push_mentioned(
    alloc: Global,
    found: &mut List<PlacedName>,
    global: &GlobalItem,
) -> Result<(), OutOfMemory>
    ensures { OnOk result (found.new ≡ found.old ++ tables_in_item (global_tree global.now)) }
{
    match global {
        GlobalItem::Method(m) => push_tables(alloc, found, tables_of(m.reading.as_ref())),
        GlobalItem::Listed { .. } => Ok(()),
        GlobalItem::Declaration(declaration) => match declaration {
            Declaration::Variables(_) => Ok(()),
            Declaration::Instance { .. } => Ok(()),
            Declaration::Hash { size, .. } => push_hash_table(alloc, found, size),
            Declaration::Hiter { .. } => Ok(()),
            Declaration::Thread { .. } => Ok(()),
        },
    }
}

// The tables that the parts of a unit mention, in order.
fn mentioned_tables(alloc: Global, globals: &[GlobalItem]) -> Result<List<PlacedName>, OutOfMemory>
    ensures { IfOk result (λ found. found ≡ from_each tables_in_item (map global_tree globals.now)) }
{
    let mut found: List<PlacedName> = List::new(alloc);
    'globals: for global in globals {
        push_mentioned(alloc, &mut found, global)?;
    }
    Ok(found)
}

// Adds a table to those that are known, and to a list where it was not known before.
fn add_first(
    alloc: Global,
    known: &mut NameSet,
    first: &mut List<PlacedName>,
    table: &PlacedName,
) -> Result<(), OutOfMemory>
    ensures known { OnOk result ((name : Items ℕ) → contains (pointwise nat_eq) known.new name ≡ (bytes_eq table.now.name name || contains (pointwise nat_eq) known.old name)) }
    ensures first { OnOk result (first.new ≡ first.old ++ (if contains (pointwise nat_eq) known.old table.now.name then [] else table.now ∷ [])) }
{
    if add_name(alloc, known, table.name.as_slice())? {
        let name = List::from_slice(alloc, table.name.as_slice())?;
        first.push(PlacedName {
            name,
            place: table.place,
        })
    } else {
        Ok(())
    }
}

// Adds tables to those that are known, and to a list those that were not, each at its first mention.
fn add_first_mentions(
    alloc: Global,
    known: &mut NameSet,
    first: &mut List<PlacedName>,
    tables: &[PlacedName],
) -> Result<(), OutOfMemory>
    ensures known { OnOk result ((name : Items ℕ) → contains (pointwise nat_eq) known.new name ≡ (is_listed (names_alone tables.now) name || contains (pointwise nat_eq) known.old name)) }
    ensures first { OnOk result (first.new ≡ first.old ++ first_not_known (contains (pointwise nat_eq) known.old) tables.now) }
{
    'tables: for table in tables {
        add_first(alloc, known, first, table)?;
    }
    Ok(())
}

// Adds the table of an output to those that are known; `_null_` is none.
fn add_output(alloc: Global, known: &mut NameSet, o: &OutputTable) -> Result<(), OutOfMemory>
    ensures { OnOk result ((name : Items ℕ) → contains (pointwise nat_eq) known.new name ≡ (is_listed (names_made_by_outputs (o.now ∷ [])) name || contains (pointwise nat_eq) known.old name)) }
{
    let name = spelled_name(alloc, &o.table)?;
    let spelled = name.as_slice();
    let is_null = spelled == b"_null_".as_slice();
    if is_null {
        return Ok(());
    }
    add_name(alloc, known, spelled)?;
    Ok(())
}

// Adds the tables of outputs to those that are known.
fn add_outputs(
    alloc: Global,
    known: &mut NameSet,
    outputs: &[OutputTable],
) -> Result<(), OutOfMemory>
    ensures { OnOk result ((name : Items ℕ) → contains (pointwise nat_eq) known.new name ≡ (is_listed (names_made_by_outputs outputs.now) name || contains (pointwise nat_eq) known.old name)) }
{
    'outputs: for o in outputs {
        add_output(alloc, known, o)?;
    }
    Ok(())
}

// Adds the tables that the parts of a unit mention to those that are known, and to a list those that were not, each at its first mention.
fn add_mentioned(
    alloc: Global,
    known: &mut NameSet,
    first: &mut List<PlacedName>,
    globals: &[GlobalItem],
) -> Result<(), OutOfMemory>
    ensures known { OnOk result ((name : Items ℕ) → contains (pointwise nat_eq) known.new name ≡ (is_listed (names_alone (from_each tables_in_item (map global_tree globals.now))) name || contains (pointwise nat_eq) known.old name)) }
    ensures first { OnOk result (first.new ≡ first.old ++ first_not_known (contains (pointwise nat_eq) known.old) (from_each tables_in_item (map global_tree globals.now))) }
{
    let tables = mentioned_tables(alloc, globals)?;
    let all = tables.as_slice();
    add_first_mentions(alloc, known, first, all)?;
    Ok(())
}

// Adds the tables that a program mentions, and then those that it makes.
fn add_program(
    alloc: Global,
    known: &mut NameSet,
    first: &mut List<PlacedName>,
    program: &DataProgram,
) -> Result<(), OutOfMemory>
    ensures known { OnOk result ((name : Items ℕ) → contains (pointwise nat_eq) known.new name ≡ known_behind (contains (pointwise nat_eq) known.old) (AData (data_tree program.now)) name) }
    ensures first { OnOk result (first.new ≡ first.old ++ first_not_known (contains (pointwise nat_eq) known.old) (tables_in_part (AData (data_tree program.now)))) }
{
    let globals = program.globals.as_slice();
    add_mentioned(alloc, known, first, globals)?;
    let outputs = program.outputs.as_slice();
    add_outputs(alloc, known, outputs)?;
    Ok(())
}

/// Adds the tables of a part of a source to those that are known, and those of the store to a list, each at its first mention.
pub(crate) fn add_part(
    alloc: Global,
    known: &mut NameSet,
    first: &mut List<PlacedName>,
    part: &SourcePart,
) -> Result<(), OutOfMemory>
    ensures known { OnOk result ((name : Items ℕ) → contains (pointwise nat_eq) known.new name ≡ known_behind (contains (pointwise nat_eq) known.old) (part_tree part.now) name) }
    ensures first { OnOk result (first.new ≡ first.old ++ first_not_known (contains (pointwise nat_eq) known.old) (tables_in_part (part_tree part.now))) }
{
    match part {
        SourcePart::Proc { .. } => Ok(()),
        SourcePart::Run { .. } => Ok(()),
        SourcePart::Quit { .. } => Ok(()),
        SourcePart::Package(unit) => {
            add_mentioned(alloc, known, first, unit.globals.as_slice())?;
            Ok(())
        }
        SourcePart::Thread(unit) => {
            add_mentioned(alloc, known, first, unit.globals.as_slice())?;
            Ok(())
        }
        SourcePart::Data(program) => {
            add_program(alloc, known, first, program)?;
            Ok(())
        }
    }
}
