//! Whether each table that programs name is made by an earlier one.
ghost use Rattle.std.specs.Prelude.{◌≡◌};
ghost use Rattle.std.specs.List.{list_all, list_any};
ghost use Rattle.ds2_value.specs.Types.{same_ty};
ghost use Rattle.ds2_code.specs.declared.parts.ReadPart.{ReadPart as ReadPartModel};
ghost use Rattle.ds2_object.specs.ObjectSpelling as object;

use ds2_base::Name;
use ds2_code::{
    HashPart, OutputPart, ProgramParts, ReadPart, ReadingPart, Slot, StagedParts, TableReference,
};
use ds2_valid_code::ProgramCode;
use ds2_value::{Column, Ty};

fn same_ty(a: Ty, b: Ty) -> bool
    ensures { result ≡ same_ty a b }
{
    match (a, b) {
        (Ty::BigInt, Ty::BigInt) => true,
        (Ty::Decimal { p, s }, Ty::Decimal { p: q, s: t }) => p == q && s == t,
        (Ty::Char { n }, Ty::Char { n: m }) => n == m,
        (Ty::Varchar { n }, Ty::Varchar { n: m }) => n == m,
        _ => false,
    }
}

// Whether a slot is there and of this type.
fn is_slot_of(slots: &[Slot], n: u32, ty: Ty) -> bool
    ensures { result ≡ object.is_slot_of slots.now n ty }
{
    match slots.get(n as usize) {
        None => false,
        Some(slot) => same_ty(ty, slot.ty),
    }
}

// Whether a column of an output is a column of a table.
fn column_is(slots: &[Slot], made: &(Name, u32), column: &Column) -> bool
    ensures { result ≡ object.column_is slots.now made.now column.now }
{
    made.0 == column.name && is_slot_of(slots, made.1, column.ty)
}

// Whether the columns of a table are those of an output.
fn columns_are(slots: &[Slot], made: &[(Name, u32)], columns: &[Column]) -> bool
    ensures { result ≡ object.columns_are slots.now made.now columns.now }
{
    let mut rest = made;
    let mut left = columns;
    'columns: while let [first, after @ ..] = rest {
        let [column, more @ ..] = left else {
            return false;
        };
        if !column_is(slots, first, column) {
            return false;
        }
        rest = after;
        left = more;
    }
    left.is_empty()
}

// Whether an output is a table: it has its name and its columns.
fn output_is(slots: &[Slot], output: &OutputPart, table: &TableReference) -> bool
    ensures { result ≡ object.output_is slots.now table.now output.now }
{
    output.name == table.name
        && columns_are(slots, output.columns.as_slice(), table.columns.as_slice())
}

// Whether one of the outputs is a table.
fn outputs_have(slots: &[Slot], outputs: &[OutputPart], table: &TableReference) -> bool
    ensures { result ≡ list_any (object.output_is slots.now table.now) outputs.now }
{
    outputs.iter().any(|output| output_is(slots, output, table))
}

// Whether a program has an output of this name with these columns.
fn makes_table(program: &ProgramParts, table: &TableReference) -> bool
    ensures { result ≡ object.makes_reference program.now table.now }
{
    outputs_have(program.slots.as_slice(), program.outputs.as_slice(), table)
}

// Whether a table is the store's, or an earlier program makes it.
fn has_maker(earlier: &[ProgramCode], table: &TableReference) -> bool
    ensures { result ≡ object.has_maker earlier.now table.now }
{
    if table.maker == 0 {
        return true;
    }
    match earlier.get(table.maker as usize - 1) {
        None => false,
        Some(program) => makes_table(&program.parts().program, table),
    }
}

fn tables_have_makers(earlier: &[ProgramCode], tables: &[ReadPart]) -> bool
    ensures { result ≡ list_all (λ (t : ReadPartModel). object.has_maker earlier.now t.table) tables.now }
{
    tables.iter().all(|read| has_maker(earlier, &read.table))
}

fn reading_is_linked(earlier: &[ProgramCode], reading: &ReadingPart) -> bool
    ensures { result ≡ object.reading_linked earlier.now reading.now }
{
    match reading {
        ReadingPart::Set { tables, bys: _ } => tables_have_makers(earlier, tables.as_slice()),
        ReadingPart::Merge {
            tables,
            bys: _,
            retains: _,
        } => tables_have_makers(earlier, tables.as_slice()),
        ReadingPart::Stage {
            threads: _,
            slots: _,
        } => true,
        ReadingPart::Once => true,
        ReadingPart::Nothing => true,
    }
}

// Whether the table that a hash object begins with has a maker.
fn hash_is_linked(earlier: &[ProgramCode], hash: &HashPart) -> bool
    ensures { result ≡ object.hash_linked earlier.now hash.now }
{
    match &hash.loaded {
        None => true,
        Some(loaded) => has_maker(earlier, &loaded.table),
    }
}

fn hashes_are_linked(earlier: &[ProgramCode], hashes: &[HashPart]) -> bool
    ensures { result ≡ list_all (object.hash_linked earlier.now) hashes.now }
{
    hashes.iter().all(|hash| hash_is_linked(earlier, hash))
}

fn parts_are_linked(earlier: &[ProgramCode], program: &ProgramParts) -> bool
    ensures { result ≡ object.parts_linked earlier.now program.now }
{
    hashes_are_linked(earlier, program.hashes.as_slice())
        && reading_is_linked(earlier, &program.reading)
}

fn stages_are_linked(earlier: &[ProgramCode], stages: &[ProgramParts]) -> bool
    ensures { result ≡ list_all (object.parts_linked earlier.now) stages.now }
{
    stages.iter().all(|stage| parts_are_linked(earlier, stage))
}

// Whether a program has no name, and each table that it or its thread program names has a maker.
fn program_is_linked(earlier: &[ProgramCode], program: &StagedParts) -> bool
    ensures { result ≡ object.program_linked earlier.now program.now }
{
    program.program.name.is_none()
        && parts_are_linked(earlier, &program.program)
        && stages_are_linked(earlier, program.stages.as_slice())
}

/// Whether no program has a thread program's name, each table that one names has a maker, and there are fewer than 2 ^ 32 programs.
#[tactic(auto, using(crate::proofs::LinkSteps::link_more, crate::proofs::LinkSteps::link_broken))]
pub fn programs_are_linked(programs: &[ProgramCode]) -> bool
    ensures { result ≡ object.object_linked programs.now }
{
    if programs.len() >= 0x1_0000_0000 {
        return false;
    }
    'programs: for i in 0..programs.len() {
        if !program_is_linked(&programs[..i], programs[i].parts()) {
            return false;
        }
    }
    true
}
