//! Programs: how they are written.
ghost use Rattle.std.specs.Prelude.{◌∷◌, [], ◌&&◌, IsTrue, OnOk, map, nat_le, not};
ghost use Rattle.std.specs.List.{list_all};
ghost use Rattle.std.specs.Option.{is_some};
ghost use Rattle.ds2_code.specs.ValidCode.{is_short};
ghost use Rattle.ds2_object_words.specs.CodeParts.{read_spelled};
ghost use Rattle.ds2_object_words.specs.Parts.{Writes, ItemsWritten, list_part};
ghost use Rattle.ds2_object_instrs.specs.InstrSpelling.{written_instr_part, written_instr_of};
ghost use Rattle.ds2_object_programs.specs.ProgramRules.{instr_spelled, program_spelled, thread_spelled, reads_tables, reading_spelled, stages_spelled, data_spelled};
ghost use Rattle.ds2_object_programs.specs.ProgramSpelling.{no_name_part, thread_name_part, globals_part, units_part, tables_part, thread_reading_part, OfThread, data_reading_part, thread_program_part, data_program_part, written_globals, written_units, staged_written, written_thread, written_data};

use ds2_base::{Bytes, List, Name, OutOfMemory};
use ds2_code::{ByPart, Instr, ProgramParts, ReadPart, ReadingPart, StagedParts};
use ds2_object_instrs::write_instr;
use ds2_object_words::Spelled;

// ---- instructions

// Puts the spellings of instructions behind the bytes.
#[tactic(auto, using(crate::proofs::WriteSteps::instrs_begun, crate::proofs::WriteSteps::instr_first, crate::proofs::WriteSteps::instr_more, crate::proofs::WriteSteps::instrs_all))]
fn write_each_instr(instrs: &[Instr], out: &mut Bytes) -> Result<(), OutOfMemory>
    requires { IsTrue (list_all instr_spelled instrs.now) }
    ensures { OnOk result (ItemsWritten written_instr_part out.old (map written_instr_of instrs.now) out.new) }
{
    let mut rest = instrs;
    'instrs: while let [first, after @ ..] = rest {
        write_instr(*first, out)?;
        rest = after;
    }
    Ok(())
}

// A count, and the spellings of instructions.
#[tactic(auto, using(crate::proofs::WriteSteps::instrs_written))]
fn write_instrs(instrs: &[Instr], out: &mut Bytes) -> Result<(), OutOfMemory>
    requires { IsTrue (is_short instrs.now && list_all instr_spelled instrs.now) }
    ensures { OnOk result (Writes (list_part written_instr_part) out.old (map written_instr_of instrs.now) out.new) }
{
    (instrs.len() as u32).write(out)?;
    write_each_instr(instrs, out)?;
    Ok(())
}

// ---- what stands before the reading, and behind it

// A flag and the name behind it.
#[tactic(auto, using(crate::proofs::WriteSteps::name_written))]
fn write_thread_name(name: &Option<Name>, out: &mut Bytes) -> Result<(), OutOfMemory>
    requires { IsTrue (is_some name.now) }
    ensures { OnOk result (Writes thread_name_part out.old name.now out.new) }
{
    name.write(out)?;
    Ok(())
}

// What stands before the methods of a program.
fn write_globals(program: &ProgramParts, out: &mut Bytes) -> Result<(), OutOfMemory>
    requires { IsTrue (program_spelled program.now) }
    ensures { OnOk result (Writes globals_part out.old (written_globals program.now) out.new) }
{
    program.slots.write(out)?;
    program.constants.write(out)?;
    program.hashes.write(out)?;
    program.iterators.write(out)?;
    program.parameters.write(out)?;
    Ok(())
}

// What stands behind the reading of a program, before its instructions.
fn write_units(program: &ProgramParts, out: &mut Bytes) -> Result<(), OutOfMemory>
    requires { IsTrue (program_spelled program.now) }
    ensures { OnOk result (Writes units_part out.old (written_units program.now) out.new) }
{
    program.outputs.write(out)?;
    program.init.write(out)?;
    program.run.write(out)?;
    program.term.write(out)?;
    Ok(())
}

// ---- readings of tables

// Tables and BY variables.
fn write_tables(
    tables: &List<ReadPart>,
    bys: &List<ByPart>,
    out: &mut Bytes,
) -> Result<(), OutOfMemory>
    requires { IsTrue (is_short tables.now && (list_all read_spelled tables.now && is_short bys.now)) }
    ensures { OnOk result (Writes tables_part out.old (tables.now, bys.now) out.new) }
{
    tables.write(out)?;
    bys.write(out)?;
    Ok(())
}

// A reading of tables, or of nothing.
#[tactic(auto, unfolding(crate::specs::ProgramSpelling::thread_reading_part))]
fn write_reading(reading: &ReadingPart, out: &mut Bytes) -> Result<(), OutOfMemory>
    requires tables { IsTrue (reads_tables reading.now) }
    requires rules { IsTrue (reading_spelled reading.now) }
    ensures { OnOk result (Writes thread_reading_part out.old reading.now out.new) }
{
    match reading {
        ReadingPart::Once => {
            out.push(0)?;
            Ok(())
        }
        ReadingPart::Nothing => {
            out.push(1)?;
            Ok(())
        }
        ReadingPart::Set { tables, bys } => {
            out.push(2)?;
            write_tables(tables, bys, out)?;
            Ok(())
        }
        ReadingPart::Merge {
            tables,
            bys,
            retains,
        } => {
            if *retains {
                out.push(4)?;
                write_tables(tables, bys, out)?;
                Ok(())
            } else {
                out.push(3)?;
                write_tables(tables, bys, out)?;
                Ok(())
            }
        }
        ReadingPart::Stage {
            threads: _,
            slots: _,
        } => Ok(()),
    }
}

// ---- thread programs

// A thread program, which has a name.
fn write_thread(program: &ProgramParts, out: &mut Bytes) -> Result<(), OutOfMemory>
    requires { IsTrue (thread_spelled program.now) }
    ensures { OnOk result (Writes thread_program_part out.old (written_thread program.now) out.new) }
{
    write_thread_name(&program.name, out)?;
    write_globals(program, out)?;
    program.methods.write(out)?;
    write_reading(&program.reading, out)?;
    write_units(program, out)?;
    write_instrs(program.instrs.as_slice(), out)?;
    Ok(())
}

// ---- data programs

// Behind its tag a thread program, between the threads and the slots.
fn write_staged(
    threads: u8,
    stage: &ProgramParts,
    slots: &List<u32>,
    out: &mut Bytes,
) -> Result<(), OutOfMemory>
    requires threads { IsTrue (nat_le 1 threads && nat_le threads 64) }
    requires stage { IsTrue (thread_spelled stage.now) }
    requires slots { IsTrue (is_short slots.now) }
    ensures { OnOk result (Writes data_reading_part out.old (OfThread threads (written_thread stage.now) slots.now) out.new) }
{
    out.push(5)?;
    out.push(threads)?;
    write_thread(stage, out)?;
    slots.write(out)?;
    Ok(())
}

// A reading from a thread program.
fn write_stage(
    reading: &ReadingPart,
    stage: &ProgramParts,
    out: &mut Bytes,
) -> Result<(), OutOfMemory>
    requires { IsTrue (reading_spelled reading.now && stages_spelled reading.now (stage.now ∷ [])) }
    ensures { OnOk result (Writes data_reading_part out.old (staged_written reading.now (stage.now ∷ [])) out.new) }
{
    match reading {
        ReadingPart::Stage { threads, slots } => {
            write_staged(*threads, stage, slots, out)?;
            Ok(())
        }
        ReadingPart::Once => Ok(()),
        ReadingPart::Nothing => Ok(()),
        ReadingPart::Set { tables: _, bys: _ } => Ok(()),
        ReadingPart::Merge {
            tables: _,
            bys: _,
            retains: _,
        } => Ok(()),
    }
}

// What a data program reads, with the thread program that it may stand on.
#[tactic(auto, using(crate::proofs::WriteSteps::alone_tables, crate::proofs::WriteSteps::alone_rules, crate::proofs::WriteSteps::alone_written, crate::proofs::WriteSteps::one_stage_at_most))]
fn write_data_reading(
    reading: &ReadingPart,
    stages: &[ProgramParts],
    out: &mut Bytes,
) -> Result<(), OutOfMemory>
    requires { IsTrue (reading_spelled reading.now && stages_spelled reading.now stages.now) }
    ensures { OnOk result (Writes data_reading_part out.old (staged_written reading.now stages.now) out.new) }
{
    match stages {
        [] => {
            write_reading(reading, out)?;
            Ok(())
        }
        [stage] => {
            write_stage(reading, stage, out)?;
            Ok(())
        }
        [_, _, ..] => Ok(()),
    }
}

// The flag of a program without a name.
#[tactic(auto, using(crate::proofs::WriteSteps::no_name_written))]
fn write_no_name(name: &Option<Name>, out: &mut Bytes) -> Result<(), OutOfMemory>
    requires { IsTrue (not (is_some name.now)) }
    ensures { OnOk result (Writes no_name_part out.old name.now out.new) }
{
    name.is_some().write(out)?;
    Ok(())
}

/// Puts the spelling of a data program behind the bytes, with that of the thread program that it may stand on. After a refusal a part
/// of it may stand there.
pub fn write_data_program(parts: &StagedParts, out: &mut Bytes) -> Result<(), OutOfMemory>
    requires { IsTrue (data_spelled parts.now) }
    ensures { OnOk result (Writes data_program_part out.old (written_data parts.now) out.new) }
{
    let program = &parts.program;
    write_no_name(&program.name, out)?;
    write_globals(program, out)?;
    program.methods.write(out)?;
    write_data_reading(&program.reading, parts.stages.as_slice(), out)?;
    write_units(program, out)?;
    write_instrs(program.instrs.as_slice(), out)?;
    Ok(())
}
