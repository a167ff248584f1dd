//! The tables that code names: those of the store that an object reads, with the columns that it asks for, and those that a program's
//! run gets.
ghost use Rattle.std.specs.Prelude.{◌≡◌, ◌∷◌, ◌++◌, ◌&&◌, ◌||◌, [], ℕ, List as Items, bytes_eq, map, nat_eq, IfOk, OnOk};
ghost use Rattle.std.specs.Arc.{arc_value};
ghost use Rattle.std.specs.Cmp.Lexicographic.{pointwise};
ghost use Rattle.std.specs.HashSet.{contains};
ghost use Rattle.std.specs.List.{AllByRecursion};
ghost use Rattle.ds2_code.specs.declared.parts.ReadPart.{ReadPart as ReadPartModel};
ghost use Rattle.ds2_code_answer.specs.CodeTables.{hash_references, program_references, reading_references, with_loaded_table};
ghost use Rattle.ds2_answer.specs.HeldTables.{table_held};
ghost use Rattle.ds2_answer.specs.ObjectPlans.{first_referred, references_of};
ghost use Rattle.ds2_table.specs.Table.{IsTable};
ghost use Rattle.ds2_value.specs.Types.{same_ty};
ghost use Rattle.ds2_answer.specs.TablePlans.{are_columns_named, are_columns_of, none_made, same_columns};
ghost use Rattle.ds2_store_steps.specs.CodeReferences.{IsKeptName, known_behind_references};

use crate::kept::{KeptTable, table_named};
use ds2_base::{List, Name, OutOfMemory};
use ds2_code::{
    HashPart, HashTable, ProgramParts, ReadPart, ReadingPart, StagedParts, TableReference,
};
use ds2_reading::{HashKey, Tables};
use ds2_scope::{NameSet, add_name};
use ds2_table::Table;
use ds2_valid_code::ProgramCode;
use ds2_value::{Column, Ty, copy_columns};
use std::alloc::Global;
use std::sync::Arc;

// ---- the references of code

fn copy_reference(alloc: Global, reference: &TableReference) -> Result<TableReference, OutOfMemory>
    ensures { IfOk result (λ copy. copy ≡ reference.now) }
{
    let name = reference.name.copy(alloc)?;
    Ok(TableReference {
        name,
        maker: reference.maker,
        columns: copy_columns(alloc, reference.columns.as_slice())?,
    })
}

// Adds the table that a hash object is loaded from, where there is one.
fn add_loaded(
    alloc: Global,
    references: &mut List<TableReference>,
    loaded: &Option<HashTable>,
) -> Result<(), OutOfMemory>
    ensures { OnOk result (references.new ≡ references.old ++ with_loaded_table loaded.now []) }
{
    match loaded {
        None => Ok(()),
        Some(loaded) => references.push(copy_reference(alloc, &loaded.table)?),
    }
}

// Adds the tables that hash objects are loaded from.
#[tactic(auto, using(crate::proofs::ReferenceSteps::hash_more))]
fn add_hashes(
    alloc: Global,
    references: &mut List<TableReference>,
    hashes: &[HashPart],
) -> Result<(), OutOfMemory>
    ensures { OnOk result (references.new ≡ references.old ++ hash_references hashes.now) }
{
    let mut rest = hashes;
    'hashes: while let [first, after @ ..] = rest {
        add_loaded(alloc, references, &first.loaded)?;
        rest = after;
    }
    Ok(())
}

// Adds the tables of a reading statement of tables.
fn add_reads(
    alloc: Global,
    references: &mut List<TableReference>,
    reads: &[ReadPart],
) -> Result<(), OutOfMemory>
    ensures { OnOk result (references.new ≡ references.old ++ map (λ (r : ReadPartModel). r.table) reads.now) }
{
    let mut rest = reads;
    'reads: while let [first, after @ ..] = rest {
        references.push(copy_reference(alloc, &first.table)?)?;
        rest = after;
    }
    Ok(())
}

// Adds the tables of a reading statement.
fn add_reading(
    alloc: Global,
    references: &mut List<TableReference>,
    reading: &ReadingPart,
) -> Result<(), OutOfMemory>
    ensures { OnOk result (references.new ≡ references.old ++ reading_references reading.now) }
{
    match reading {
        ReadingPart::Set { tables, .. } => add_reads(alloc, references, tables.as_slice()),
        ReadingPart::Merge { tables, .. } => add_reads(alloc, references, tables.as_slice()),
        ReadingPart::Stage { .. } => Ok(()),
        ReadingPart::Once => Ok(()),
        ReadingPart::Nothing => Ok(()),
    }
}

// Adds the tables of a program that reads from no thread program.
fn add_own(
    alloc: Global,
    references: &mut List<TableReference>,
    program: &ProgramParts,
) -> Result<(), OutOfMemory>
    ensures { OnOk result (references.new ≡ references.old ++ program_references program.now []) }
{
    add_hashes(alloc, references, program.hashes.as_slice())?;
    add_reading(alloc, references, &program.reading)
}

// Adds the tables of a program and of the thread programs that it stands on.
fn add_program(
    alloc: Global,
    references: &mut List<TableReference>,
    parts: &StagedParts,
) -> Result<(), OutOfMemory>
    ensures { OnOk result (references.new ≡ references.old ++ program_references parts.now.program parts.now.stages) }
{
    let mut program = &parts.program;
    let mut stages = parts.stages.as_slice();
    'stages: while let [stage, after @ ..] = stages {
        add_hashes(alloc, references, program.hashes.as_slice())?;
        program = stage;
        stages = after;
    }
    add_own(alloc, references, program)
}

/// The tables that a program's code names, in the order of their numbers.
pub fn references_of_code(
    alloc: Global,
    code: &ProgramCode,
) -> Result<List<TableReference>, OutOfMemory>
    ensures { IfOk result (λ references. references ≡ program_references code.now.program code.now.stages) }
{
    let mut references = List::new(alloc);
    add_program(alloc, &mut references, code.parts())?;
    Ok(references)
}

/// The tables that programs name, program by program.
pub fn references_of(
    alloc: Global,
    codes: &[ProgramCode],
) -> Result<List<TableReference>, OutOfMemory>
    ensures { IfOk result (λ references. references ≡ references_of codes.now) }
{
    let mut references = List::new(alloc);
    let mut left = codes;
    'codes: while let [code, after @ ..] = left {
        add_program(alloc, &mut references, code.parts())?;
        left = after;
    }
    Ok(references)
}

// ---- columns

fn same_ty(a: Ty, b: Ty) -> bool
    ensures { result ≡ same_ty a b }
{
    match (a, b) {
        (Ty::BigInt, Ty::BigInt) => true,
        (Ty::Decimal { p, s }, Ty::Decimal { p: q, s: t }) => p == q && s == t,
        (Ty::Char { n }, Ty::Char { n: m }) => n == m,
        (Ty::Varchar { n }, Ty::Varchar { n: m }) => n == m,
        _ => false,
    }
}

fn is_same_column(one: &Column, other: &Column) -> bool
    ensures { result ≡ (bytes_eq one.now.name other.now.name && same_ty one.now.ty other.now.ty) }
{
    one.name == other.name && same_ty(one.ty, other.ty)
}

// Whether two lists of columns have the same names and types.
fn same_columns(some: &[Column], others: &[Column]) -> bool
    ensures { result ≡ same_columns some.now others.now }
{
    let mut left = some;
    let mut others_left = others;
    'columns: while let [first, after @ ..] = left {
        let [other, others_after @ ..] = others_left else {
            return false;
        };
        if !is_same_column(first, other) {
            return false;
        }
        left = after;
        others_left = others_after;
    }
    others_left.is_empty()
}

// Whether columns are those that a reference has, unless it is one to another table.
fn are_columns_of(name: &Name, columns: &[Column], reference: &TableReference) -> bool
    ensures { result ≡ are_columns_of name.now columns.now reference.now }
{
    let is_this = reference.maker == 0 && reference.name == *name;
    !is_this || same_columns(reference.columns.as_slice(), columns)
}

/// Whether columns are those that each of these references has for a table of the store.
pub(crate) fn are_columns_named(
    references: &[TableReference],
    name: &Name,
    columns: &[Column],
) -> bool
    ensures { result ≡ are_columns_named references.now name.now columns.now }
{
    'references: for reference in references {
        if !are_columns_of(name, columns, reference) {
            return false;
        }
    }
    true
}

// ---- names of tables

// Adds the name of a table of the store to those that are known, and to a list where it was not known before.
fn add_input(
    alloc: Global,
    known: &mut NameSet,
    names: &mut List<Name>,
    reference: &TableReference,
) -> Result<(), OutOfMemory>
    ensures known { OnOk result ((name : Items ℕ) → contains (pointwise nat_eq) known.new name ≡ known_behind_references (contains (pointwise nat_eq) known.old) (reference.now ∷ []) name) }
    ensures names { OnOk result (names.new ≡ names.old ++ first_referred (contains (pointwise nat_eq) known.old) (reference.now ∷ [])) }
{
    if reference.maker != 0 {
        return Ok(());
    }
    let is_new = add_name(alloc, known, reference.name.as_str().as_bytes())?;
    if is_new {
        names.push(reference.name.copy(alloc)?)
    } else {
        Ok(())
    }
}

/// The tables of the store that references name, in the order of first mention.
pub fn inputs_of(alloc: Global, references: &[TableReference]) -> Result<List<Name>, OutOfMemory>
    ensures { IfOk result (λ names. names ≡ first_referred none_made references.now) }
{
    let mut known = NameSet::new(alloc);
    let mut names: List<Name> = List::new(alloc);
    let mut left = references;
    'references: while let [reference, after @ ..] = left {
        add_input(alloc, &mut known, &mut names, reference)?;
        left = after;
    }
    Ok(names)
}

// Adds the name of a table that a program makes.
fn add_made(alloc: Global, names: &mut NameSet, name: &Name) -> Result<(), OutOfMemory>
    ensures { OnOk result ((other : Items ℕ) → contains (pointwise nat_eq) names.new other ≡ (bytes_eq name.now other || contains (pointwise nat_eq) names.old other)) }
{
    add_name(alloc, names, name.as_str().as_bytes())?;
    Ok(())
}

/// The names of tables that programs make and that references name.
pub fn names_kept(alloc: Global, references: &[TableReference]) -> Result<NameSet, OutOfMemory>
    ensures { IfOk result (λ names. AllByRecursion (IsKeptName (contains (pointwise nat_eq) names)) references.now) }
{
    let mut names = NameSet::new(alloc);
    let mut left = references;
    'references: while let [reference, after @ ..] = left {
        if reference.maker != 0 {
            add_made(alloc, &mut names, &reference.name)?;
        }
        left = after;
    }
    Ok(names)
}

// ---- the tables of a program

// The table of a reference: of those of its maker the first of its name.
fn table_referred(
    alloc: Global,
    stored: &[KeptTable],
    made: &[List<KeptTable>],
    reference: &TableReference,
) -> Result<Arc<Table, Global>, OutOfMemory>
    ensures { IfOk result (λ table. arc_value table ≡ table_held (record { stored = stored.now; made = made.now }) reference.now) }
{
    if reference.maker == 0 {
        return table_named(alloc, stored, &reference.name);
    }
    match made.get(reference.maker as usize - 1) {
        Some(tables) => table_named(alloc, tables.as_slice(), &reference.name),
        None => table_named(alloc, &[], &reference.name),
    }
}

/// The tables that references name, in their order, of those that are held, with this key.
pub fn tables_referred(
    alloc: Global,
    references: &[TableReference],
    stored: &[KeptTable],
    made: &[List<KeptTable>],
    key: HashKey,
) -> Result<Tables, OutOfMemory>
    ensures held { IfOk result (λ tables. tables ≡ map (table_held (record { stored = stored.now; made = made.now })) references.now) }
    ensures whole { IfOk result (λ tables. AllByRecursion IsTable tables) }
{
    let mut tables = Tables::new(alloc, key);
    let mut left = references;
    'references: while let [reference, after @ ..] = left {
        let table = table_referred(alloc, stored, made, reference)?;
        table.is_table();
        tables.push(table)?;
        left = after;
    }
    Ok(tables)
}
