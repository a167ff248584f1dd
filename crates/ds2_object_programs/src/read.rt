//! Programs: how they are read.
ghost use Rattle.std.specs.Prelude.{◌≡◌, IfOk, slice_get};
ghost use Rattle.ds2_object_words.specs.Parts.{ReadsPart, and_read, items_read, list_part, alternative_read};
ghost use Rattle.ds2_object_instrs.specs.InstrSpelling.{written_instr_part};
ghost use Rattle.ds2_object_programs.specs.ProgramSpelling.{AddsMade, no_name_part, thread_name_part, threads_part, tables_part, table_readings, thread_reading_part, stage_part, OfThread, parts_where, staged_where, data_reading_part, thread_program_part, data_program_part, read_as, instrs_of, thread_parts, staged_of, data_parts};

use crate::globals::{Globals, read_globals};
use crate::units::{Units, read_units};
use ds2_base::{List, Name, OutOfMemory, Stop};
use ds2_code::{ByPart, Instr, MethodPart, ProgramParts, ReadPart, ReadingPart, StagedParts};
use ds2_object_instrs::read_instr;
use ds2_object_words::{Flaw, Spelled, Unread, bad};
use std::alloc::Global;

// ---- names

// A flag, which a data program does not set: it has no name.
#[tactic(auto, unfolding(crate::specs::ProgramSpelling::no_name_part))]
fn read_no_name(alloc: Global, bytes: &mut Unread<'_>) -> Result<Option<Name>, Stop<Flaw>>
    ensures { ReadsPart result (no_name_part.read bytes.old) bytes.new }
{
    let left = bytes.left();
    if bool::read(alloc, bytes)? {
        return Err(bad(left));
    }
    Ok(None)
}

// A flag, which a thread program sets, and its name.
#[tactic(auto, unfolding(crate::specs::ProgramSpelling::thread_name_part))]
fn read_thread_name(alloc: Global, bytes: &mut Unread<'_>) -> Result<Option<Name>, Stop<Flaw>>
    ensures { ReadsPart result (thread_name_part.read bytes.old) bytes.new }
{
    let left = bytes.left();
    if bool::read(alloc, bytes)? {
        let name = Name::read(alloc, bytes)?;
        return Ok(Some(name));
    }
    Err(bad(left))
}

// ---- instructions

/// Puts an item behind others, where there is one; tells whether there is one here and was one in place of each before.
pub fn push_made<T: Drop>(
    made: Option<T>,
    is_whole: bool,
    items: &mut List<T>,
) -> Result<bool, OutOfMemory>
    ensures { IfOk result (λ still. AddsMade made is_whole items.old still items.new) }
{
    match made {
        Some(item) => {
            items.push(item)?;
            Ok(is_whole)
        }
        None => Ok(false),
    }
}

// So many instructions; None where one of them is none. What follows such a one is read all the same. Each takes a byte or more, so
// room is made at once for no more of them than bytes are left.
#[tactic(auto, using(crate::proofs::MadeSteps::none_begun, crate::proofs::MadeSteps::one_taken, crate::proofs::MadeSteps::none_made, crate::proofs::MadeSteps::all_items_made))]
fn read_instrs_of(
    alloc: Global,
    count: u32,
    bytes: &mut Unread<'_>,
) -> Result<Option<List<Instr>>, Stop<Flaw>>
    ensures { ReadsPart result (read_as instrs_of (items_read written_instr_part count bytes.old)) bytes.new }
{
    let mut instrs = List::new(alloc);
    instrs.reserve(bytes.left().min(count as usize))?;
    let mut each_is_one = true;
    'instrs: for i in 0..count {
        let made = read_instr(alloc, bytes)?;
        each_is_one = push_made(made, each_is_one, &mut instrs)?;
    }
    if each_is_one {
        Ok(Some(instrs))
    } else {
        Ok(None)
    }
}

// The instructions of a program; None where one of them is none.
fn read_instrs(alloc: Global, bytes: &mut Unread<'_>) -> Result<Option<List<Instr>>, Stop<Flaw>>
    ensures { ReadsPart result (read_as instrs_of ((list_part written_instr_part).read bytes.old)) bytes.new }
{
    let count = bytes.number32()?;
    read_instrs_of(alloc, count, bytes)
}

// ---- readings of tables

// Tables and BY variables, one behind the other.
type Tables = (List<ReadPart>, List<ByPart>);

// Tables and BY variables.
fn read_tables(alloc: Global, bytes: &mut Unread<'_>) -> Result<Tables, Stop<Flaw>>
    ensures { ReadsPart result (tables_part.read bytes.old) bytes.new }
{
    Tables::read(alloc, bytes)
}

// What stands behind the tag of a reading of tables; from the tag on so many bytes are left.
fn read_behind_tag(
    alloc: Global,
    tag: u8,
    left: usize,
    bytes: &mut Unread<'_>,
) -> Result<ReadingPart, Stop<Flaw>>
    ensures { ReadsPart result (alternative_read (slice_get table_readings tag) left bytes.old) bytes.new }
{
    match tag {
        0 => Ok(ReadingPart::Once),
        1 => Ok(ReadingPart::Nothing),
        2 => {
            let (tables, bys) = read_tables(alloc, bytes)?;
            Ok(ReadingPart::Set { tables, bys })
        }
        3 => {
            let (tables, bys) = read_tables(alloc, bytes)?;
            Ok(ReadingPart::Merge {
                tables,
                bys,
                retains: false,
            })
        }
        4 => {
            let (tables, bys) = read_tables(alloc, bytes)?;
            Ok(ReadingPart::Merge {
                tables,
                bys,
                retains: true,
            })
        }
        5.. => Err(bad(left)),
    }
}

// What a thread program reads.
#[tactic(auto, unfolding(crate::specs::ProgramSpelling::thread_reading_part))]
fn read_thread_reading(alloc: Global, bytes: &mut Unread<'_>) -> Result<ReadingPart, Stop<Flaw>>
    ensures { ReadsPart result (thread_reading_part.read bytes.old) bytes.new }
{
    let left = bytes.left();
    let tag = bytes.byte()?;
    read_behind_tag(alloc, tag, left, bytes)
}

// ---- thread programs

// A program of what stands in its spelling, part by part.
fn parts_where(
    name: Option<Name>,
    globals: Globals,
    methods: List<MethodPart>,
    reading: ReadingPart,
    units: Units,
    instrs: Option<List<Instr>>,
) -> Option<ProgramParts>
    ensures { result ≡ parts_where name globals methods reading units instrs }
{
    let (slots, constants, hashes, iterators, parameters) = globals.into_parts();
    let (outputs, init, run, term) = units.into_parts();
    match instrs {
        Some(instrs) => Some(ProgramParts {
            name,
            slots,
            constants,
            hashes,
            iterators,
            parameters,
            methods,
            reading,
            outputs,
            init,
            run,
            term,
            instrs,
        }),
        None => None,
    }
}

// A thread program; None where an instruction of it is none.
#[tactic(auto, unfolding(crate::specs::ProgramSpelling::thread_program_part), using(crate::proofs::ReadSteps::thread_stops, crate::proofs::ReadSteps::thread_is_read))]
fn read_thread_program(
    alloc: Global,
    bytes: &mut Unread<'_>,
) -> Result<Option<ProgramParts>, Stop<Flaw>>
    ensures { ReadsPart result (read_as thread_parts (thread_program_part.read bytes.old)) bytes.new }
{
    let name = read_thread_name(alloc, bytes)?;
    let globals = read_globals(alloc, bytes)?;
    let methods = List::<MethodPart>::read(alloc, bytes)?;
    let reading = read_thread_reading(alloc, bytes)?;
    let units = read_units(alloc, bytes)?;
    let instrs = read_instrs(alloc, bytes)?;
    Ok(parts_where(name, globals, methods, reading, units, instrs))
}

// ---- what a data program reads

// 1 to 64 threads.
#[tactic(auto, unfolding(crate::specs::ProgramSpelling::threads_part))]
fn read_threads(bytes: &mut Unread<'_>) -> Result<u8, Stop<Flaw>>
    ensures { ReadsPart result (threads_part.read bytes.old) bytes.new }
{
    let left = bytes.left();
    let threads = bytes.byte()?;
    let is_allowed = 1 <= threads && threads <= 64;
    if is_allowed {
        Ok(threads)
    } else {
        Err(bad(left))
    }
}

// Behind the tag of a thread program: the threads, the thread program, the slots; None where an instruction of it is none.
#[tactic(auto, unfolding(crate::specs::ProgramSpelling::stage_part), using(crate::proofs::ReadSteps::stage_stops_program, crate::proofs::ReadSteps::stage_stops_slots, crate::proofs::ReadSteps::stage_is_read))]
fn read_stage(
    alloc: Global,
    bytes: &mut Unread<'_>,
) -> Result<Option<(ReadingPart, List<ProgramParts>)>, Stop<Flaw>>
    ensures { ReadsPart result (read_as (λ x. staged_of (OfThread x.0 x.1.0 x.1.1)) (stage_part.read bytes.old)) bytes.new }
{
    let threads = read_threads(bytes)?;
    let program = read_thread_program(alloc, bytes)?;
    let slots = List::<u32>::read(alloc, bytes)?;
    match program {
        Some(program) => {
            let mut stages = List::new(alloc);
            stages.push(program)?;
            Ok(Some((ReadingPart::Stage { threads, slots }, stages)))
        }
        None => Ok(None),
    }
}

// What a data program reads, and the thread programs that it stands on; None where an instruction of one is none.
#[tactic(auto, using(crate::proofs::ReadSteps::reading_stops_tag, crate::proofs::ReadSteps::reading_of_stage, crate::proofs::ReadSteps::reading_of_tables))]
fn read_data_reading(
    alloc: Global,
    bytes: &mut Unread<'_>,
) -> Result<Option<(ReadingPart, List<ProgramParts>)>, Stop<Flaw>>
    ensures { ReadsPart result (read_as staged_of (data_reading_part.read bytes.old)) bytes.new }
{
    let left = bytes.left();
    let tag = bytes.byte()?;
    if tag == 5 {
        read_stage(alloc, bytes)
    } else {
        let reading = read_behind_tag(alloc, tag, left, bytes)?;
        Ok(Some((reading, List::new(alloc))))
    }
}

// ---- data programs

// A data program of what stands in its spelling, part by part.
fn staged_where(
    name: Option<Name>,
    globals: Globals,
    methods: List<MethodPart>,
    reading: Option<(ReadingPart, List<ProgramParts>)>,
    units: Units,
    instrs: Option<List<Instr>>,
) -> Option<StagedParts>
    ensures { result ≡ staged_where name globals methods reading units instrs }
{
    match reading {
        Some((reading, stages)) => match parts_where(
            name, globals, methods, reading, units, instrs,
        ) {
            Some(program) => Some(StagedParts { program, stages }),
            None => None,
        },
        None => None,
    }
}

/// Takes a data program, and the thread program that it may stand on, off the front of the bytes; None where the number of a
/// comparison or of a call in one of their instructions is none.
#[tactic(auto, unfolding(crate::specs::ProgramSpelling::data_program_part))]
pub fn read_data_program(
    alloc: Global,
    bytes: &mut Unread<'_>,
) -> Result<Option<StagedParts>, Stop<Flaw>>
    ensures { ReadsPart result (read_as data_parts (data_program_part.read bytes.old)) bytes.new }
{
    let name = read_no_name(alloc, bytes)?;
    let globals = read_globals(alloc, bytes)?;
    let methods = List::<MethodPart>::read(alloc, bytes)?;
    let reading = read_data_reading(alloc, bytes)?;
    let units = read_units(alloc, bytes)?;
    let instrs = read_instrs(alloc, bytes)?;
    Ok(staged_where(name, globals, methods, reading, units, instrs))
}
