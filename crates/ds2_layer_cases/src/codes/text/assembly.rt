//! How the code of a program is written.
//!
//! A line that begins with `#` or `>` says nothing. Each other line is a part of the program or one of its instructions, in order; instructions
//! are numbered from 0. The value of a constant is the rest of its line.
//!
//! - `slot NAME TYPE ROLE`, `constant TYPE VALUE`, `hash KEYS DATA`, `hash KEYS DATA TABLE COLUMNS KEY-COLUMNS DATA-COLUMNS`,
//!   `iterator HASH`, `parameter SLOT`, `method ENTRY PARAMETERS LOCALS RESULT`, `output NAME COLUMNS`;
//! - `units INIT RUN TERM`, the entries of the units, which are 0 where no line says them;
//! - `nothing`, `once`, `set`, `merge`, `merge_retain` or `stage THREADS SLOTS`, the reading, which is `once` where no line says it, and
//!   behind `set` and the two merges `table NAME COLUMNS SLOTS FLAG` and `by SLOT FIRST LAST`;
//! - `repeat N LINE`, a line so many times.
//!
//! A line `thread NAME` ends the program, and begins the thread program that it reads from.
use crate::codes::text::instruction::instruction;
use crate::codes::text::parts::{
    by_variable, constant, hash, hash_table, method, output, read_table, slot, thread_name,
};
use crate::codes::text::words::{Read, digits, number, numbers, refused};
use ds2_base::{List, Name};
use ds2_code::{ByPart, ProgramParts, ReadPart, ReadingPart, StagedParts};
use std::alloc::Global;

// A program without parts.
fn blank(alloc: Global, name: Option<Name>) -> ProgramParts {
    ProgramParts {
        name,
        slots: List::new(alloc),
        constants: List::new(alloc),
        hashes: List::new(alloc),
        iterators: List::new(alloc),
        parameters: List::new(alloc),
        methods: List::new(alloc),
        reading: ReadingPart::Once,
        outputs: List::new(alloc),
        init: 0,
        run: 0,
        term: 0,
        instrs: List::new(alloc),
    }
}

fn add_hash(
    alloc: Global,
    code: &mut ProgramParts,
    slots: (&str, &str),
    loaded: (&str, &str, &str, &str),
) -> Read<()> {
    let (title, columns, keys, data) = loaded;
    let loaded = hash_table(alloc, title, columns, keys, data)?;
    code.hashes
        .push(hash(alloc, slots.0, slots.1, Some(loaded))?)?;
    Ok(())
}

fn set_units(code: &mut ProgramParts, init: &str, run: &str, term: &str) -> Read<()> {
    code.init = number(init)?;
    code.run = number(run)?;
    code.term = number(term)?;
    Ok(())
}

fn add_read(reading: &mut ReadingPart, read: ReadPart) -> Read<()> {
    match reading {
        ReadingPart::Set { tables, .. } => tables.push(read)?,
        ReadingPart::Merge { tables, .. } => tables.push(read)?,
        _ => return refused(),
    }
    Ok(())
}

fn add_by(reading: &mut ReadingPart, by: ByPart) -> Read<()> {
    match reading {
        ReadingPart::Set { bys, .. } => bys.push(by)?,
        ReadingPart::Merge { bys, .. } => bys.push(by)?,
        _ => return refused(),
    }
    Ok(())
}

fn merge(alloc: Global, retains: bool) -> ReadingPart {
    ReadingPart::Merge {
        tables: List::new(alloc),
        bys: List::new(alloc),
        retains,
    }
}

// The reading of a line with one word, where it is one.
fn reading(alloc: Global, word: &str) -> Option<ReadingPart> {
    match word {
        "nothing" => Some(ReadingPart::Nothing),
        "once" => Some(ReadingPart::Once),
        "set" => Some(ReadingPart::Set {
            tables: List::new(alloc),
            bys: List::new(alloc),
        }),
        "merge" => Some(merge(alloc, false)),
        "merge_retain" => Some(merge(alloc, true)),
        _ => None,
    }
}

fn stage(alloc: Global, threads: &str, slots: &str) -> Read<ReadingPart> {
    let threads = digits(threads)?;
    Ok(ReadingPart::Stage {
        threads,
        slots: numbers(alloc, slots)?,
    })
}

fn add_instruction(code: &mut ProgramParts, words: &[&str]) -> Read<()> {
    code.instrs.push(instruction(words)?)?;
    Ok(())
}

// Adds a line on the reading, or else an instruction.
fn add_reading(alloc: Global, code: &mut ProgramParts, words: &[&str]) -> Read<()> {
    match *words {
        ["stage", threads, slots] => code.reading = stage(alloc, threads, slots)?,
        ["table", name, columns, slots, flag] => {
            let read = read_table(alloc, name, columns, slots, flag)?;
            add_read(&mut code.reading, read)?;
        }
        ["by", slot, first, last] => {
            let by = by_variable(slot, first, last)?;
            add_by(&mut code.reading, by)?;
        }
        [word] => match reading(alloc, word) {
            Some(reading) => code.reading = reading,
            None => add_instruction(code, words)?,
        },
        _ => add_instruction(code, words)?,
    }
    Ok(())
}

// Adds the words of a line.
fn add_words(alloc: Global, code: &mut ProgramParts, words: &[&str]) -> Read<()> {
    match *words {
        ["slot", name, ty, role] => code.slots.push(slot(alloc, name, ty, role)?)?,
        ["hash", keys, data] => code.hashes.push(hash(alloc, keys, data, None)?)?,
        ["hash", key_slots, data_slots, name, columns, keys, data] => add_hash(
            alloc,
            code,
            (key_slots, data_slots),
            (name, columns, keys, data),
        )?,
        ["iterator", hash] => code.iterators.push(number(hash)?)?,
        ["parameter", slot] => code.parameters.push(number(slot)?)?,
        ["method", entry, takes, locals, gives] => {
            code.methods
                .push(method(alloc, entry, takes, locals, gives)?)?
        }
        ["output", name, columns] => code.outputs.push(output(alloc, name, columns)?)?,
        ["units", init, run, term] => set_units(code, init, run, term)?,
        _ => add_reading(alloc, code, words)?,
    }
    Ok(())
}

// Adds the constant of a type and a value, which may have blanks.
fn add_constant(alloc: Global, code: &mut ProgramParts, rest: &str) -> Read<()> {
    let Some((ty, value)) = rest.split_once(' ') else {
        return refused();
    };
    code.constants.push(constant(alloc, ty, value)?)?;
    Ok(())
}

// Adds a line so many times.
fn add_times(alloc: Global, code: &mut ProgramParts, times: u32, line: &str) -> Read<()> {
    if let Some(rest) = line.strip_prefix("constant ") {
        return add_constant(alloc, code, rest);
    }
    let words: Vec<&str> = line.split(' ').collect(alloc)?;
    for _ in 0..times {
        add_words(alloc, code, &words)?;
    }
    Ok(())
}

fn add_line(alloc: Global, code: &mut ProgramParts, line: &str) -> Read<()> {
    if line.starts_with('#') || line.starts_with('>') || line.is_empty() {
        return Ok(());
    }
    let Some(rest) = line.strip_prefix("repeat ") else {
        return add_times(alloc, code, 1, line);
    };
    match rest.split_once(' ') {
        Some((times, line)) => add_times(alloc, code, number(times)?, line),
        None => refused(),
    }
}

// The program of a name and these lines.
fn program(alloc: Global, name: Option<Name>, lines: &str) -> Read<ProgramParts> {
    let mut code = blank(alloc, name);
    for line in lines.lines() {
        add_line(alloc, &mut code, line)?;
    }
    Ok(code)
}

// A thread program: its name, and its lines below that.
fn thread_program(alloc: Global, text: &str) -> Read<ProgramParts> {
    let (word, lines) = match text.split_once('\n') {
        Some(parts) => parts,
        None => (text, ""),
    };
    let name = thread_name(alloc, word)?;
    program(alloc, name, lines)
}

// The thread programs of a case, which stand behind the lines of its program.
fn thread_programs(alloc: Global, text: &str) -> Read<List<ProgramParts>> {
    let mut stages = List::new(alloc);
    for piece in text.split("\nthread ") {
        stages.push(thread_program(alloc, piece)?)?;
    }
    Ok(stages)
}

/// The code of a case.
pub fn assemble(alloc: Global, case: &str) -> Read<StagedParts> {
    let (lines, stages) = match case.split_once("\nthread ") {
        Some((lines, text)) => (lines, thread_programs(alloc, text)?),
        None => (case, List::new(alloc)),
    };
    Ok(StagedParts {
        program: program(alloc, None, lines)?,
        stages,
    })
}
