//! Whether each table that programs name is made by an earlier one, in time linear in the programs.
ghost use Rattle.std.specs.Prelude.{◌≡◌, ◌&&◌, IsTrue, IfOk, List as Items};
ghost use Rattle.std.specs.List.{list_all};
ghost use Rattle.ds2_code.specs.declared.parts.ReadPart.{ReadPart as ReadPartModel};
ghost use Rattle.ds2_code.specs.declared.parts.StagedParts.{StagedParts as Staged};
ghost use Rattle.ds2_object_words.specs.CodeParts.{read_spelled, hash_spelled};
ghost use Rattle.ds2_object_programs.specs.ProgramRules.{reading_spelled};
ghost use Rattle.ds2_object.specs.ObjectSpelling as object;
ghost use Rattle.ds2_object.specs.MadeTables.{parts_spelled, HasMade};

use crate::made::{MadeTables, add_program, is_made};
use ds2_base::OutOfMemory;
use ds2_code::{HashPart, ProgramParts, ReadPart, ReadingPart, StagedParts};
use ds2_valid_code::ProgramCode;
use std::alloc::Global;
use std::collections::BTreeSet;

fn tables_are_made(
    alloc: Global,
    made: &MadeTables,
    tables: &[ReadPart],
) -> Result<bool, OutOfMemory>
    requires { IsTrue (list_all read_spelled tables.now) }
    ensures { IfOk result (λ are. (earlier : Items Staged) → HasMade made.now earlier → are ≡ list_all (λ (t : ReadPartModel). object.has_maker earlier t.table) tables.now) }
{
    let mut rest = tables;
    'tables: while let [first, after @ ..] = rest {
        if !is_made(alloc, made, &first.table)? {
            return Ok(false);
        }
        rest = after;
    }
    Ok(true)
}

#[tactic(auto, using(crate::proofs::WalkLemmas::set_reads, crate::proofs::WalkLemmas::merge_reads))]
fn reading_is_made(
    alloc: Global,
    made: &MadeTables,
    reading: &ReadingPart,
) -> Result<bool, OutOfMemory>
    requires { IsTrue (reading_spelled reading.now) }
    ensures { IfOk result (λ is. (earlier : Items Staged) → HasMade made.now earlier → is ≡ object.reading_linked earlier reading.now) }
{
    match reading {
        ReadingPart::Set { tables, bys: _ } => tables_are_made(alloc, made, tables.as_slice()),
        ReadingPart::Merge {
            tables,
            bys: _,
            retains: _,
        } => tables_are_made(alloc, made, tables.as_slice()),
        ReadingPart::Stage {
            threads: _,
            slots: _,
        } => Ok(true),
        ReadingPart::Once => Ok(true),
        ReadingPart::Nothing => Ok(true),
    }
}

// Whether the table that a hash object begins with has a maker.
#[tactic(auto, using(crate::proofs::WalkLemmas::hash_reference))]
fn hash_is_made(alloc: Global, made: &MadeTables, hash: &HashPart) -> Result<bool, OutOfMemory>
    requires { IsTrue (hash_spelled hash.now) }
    ensures { IfOk result (λ is. (earlier : Items Staged) → HasMade made.now earlier → is ≡ object.hash_linked earlier hash.now) }
{
    match &hash.loaded {
        None => Ok(true),
        Some(loaded) => is_made(alloc, made, &loaded.table),
    }
}

fn hashes_are_made(
    alloc: Global,
    made: &MadeTables,
    hashes: &[HashPart],
) -> Result<bool, OutOfMemory>
    requires { IsTrue (list_all hash_spelled hashes.now) }
    ensures { IfOk result (λ are. (earlier : Items Staged) → HasMade made.now earlier → are ≡ list_all (object.hash_linked earlier) hashes.now) }
{
    let mut rest = hashes;
    'hashes: while let [first, after @ ..] = rest {
        if !hash_is_made(alloc, made, first)? {
            return Ok(false);
        }
        rest = after;
    }
    Ok(true)
}

#[tactic(auto, using(crate::proofs::WalkLemmas::parts_hashes, crate::proofs::WalkLemmas::parts_reading, crate::proofs::WalkLemmas::parts_made))]
fn parts_are_made(
    alloc: Global,
    made: &MadeTables,
    program: &ProgramParts,
) -> Result<bool, OutOfMemory>
    requires { IsTrue (parts_spelled program.now) }
    ensures { IfOk result (λ are. (earlier : Items Staged) → HasMade made.now earlier → are ≡ object.parts_linked earlier program.now) }
{
    let hashes = hashes_are_made(alloc, made, program.hashes.as_slice())?;
    let reading = reading_is_made(alloc, made, &program.reading)?;
    Ok(hashes && reading)
}

fn stages_are_made(
    alloc: Global,
    made: &MadeTables,
    stages: &[ProgramParts],
) -> Result<bool, OutOfMemory>
    requires { IsTrue (list_all parts_spelled stages.now) }
    ensures { IfOk result (λ are. (earlier : Items Staged) → HasMade made.now earlier → are ≡ list_all (object.parts_linked earlier) stages.now) }
{
    let mut rest = stages;
    'stages: while let [first, after @ ..] = rest {
        if !parts_are_made(alloc, made, first)? {
            return Ok(false);
        }
        rest = after;
    }
    Ok(true)
}

// Whether a program has no name, and each table that it or its thread program names has a maker.
#[tactic(auto, using(crate::proofs::WalkLemmas::program_made))]
fn program_is_made(
    alloc: Global,
    made: &MadeTables,
    program: &StagedParts,
) -> Result<bool, OutOfMemory>
    requires own { IsTrue (parts_spelled program.now.program) }
    requires stages { IsTrue (list_all parts_spelled program.now.stages) }
    ensures { IfOk result (λ is. (earlier : Items Staged) → HasMade made.now earlier → is ≡ object.program_linked earlier program.now) }
{
    let own = parts_are_made(alloc, made, &program.program)?;
    let stages = stages_are_made(alloc, made, program.stages.as_slice())?;
    Ok(program.program.name.is_none() && own && stages)
}

// The same of valid code.
#[tactic(auto, using(crate::proofs::WalkLemmas::valid_parts, crate::proofs::WalkLemmas::valid_stages))]
fn code_is_made(
    alloc: Global,
    made: &MadeTables,
    program: &ProgramCode,
) -> Result<bool, OutOfMemory>
    ensures { IfOk result (λ is. (earlier : Items Staged) → HasMade made.now earlier → is ≡ object.program_linked earlier program.now) }
{
    program_is_made(alloc, made, program.parts())
}

/// Whether no program has a thread program's name, each table that one names has a maker, and there are fewer than 2 ^ 32 programs.
pub(crate) fn links_hold(alloc: Global, programs: &[ProgramCode]) -> Result<bool, OutOfMemory>
    ensures { IfOk result (λ hold. hold ≡ object.object_linked programs.now) }
{
    if programs.len() >= 0x1_0000_0000 {
        return Ok(false);
    }
    let mut made: MadeTables = BTreeSet::new(alloc);
    'programs: for i in 0..programs.len() {
        if !code_is_made(alloc, &made, &programs[i])? {
            return Ok(false);
        }
        add_program(alloc, &mut made, i as u32 + 1, &programs[i])?;
    }
    Ok(true)
}
