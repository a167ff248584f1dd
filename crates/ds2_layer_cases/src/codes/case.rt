//! One case.
ghost use Rattle.std.specs.Prelude.{◌≡◌, ◌≤◌, false, length};
ghost use Rattle.ds2_code.specs.Scales.{IsDataScaled};
ghost use Rattle.ds2_machine.specs.AtRest.{staged_program};

use crate::codes::lines::{show_end, show_parameters, show_written};
use crate::codes::text::{Read, Unreadable, assemble, number};
use crate::codes::units::{call, tables_of};
use ds2_base::{List, OutOfMemory, Stop};
use ds2_code::StagedParts;
use ds2_machine::{Machine, UnitRecord};
use ds2_valid_code::{ProgramCode, verify};
use ds2_value::Row;
use std::alloc::Global;
use std::io;

/// Prints a case, and what comes of each of its lines.
pub fn run_case(rt: &HostRuntime, block: &str) -> io::Result<()> {
    if block.starts_with("##") {
        return println!(rt; "{block}");
    }
    match assemble(rt.alloc(), block) {
        Ok(parts) => run_code(rt, parts, block),
        Err(Stop::Refused(_)) => println!(rt; "{block}\n    a line that is no part of a program"),
        Err(Stop::OutOfMemory) => println!(rt; "{block}\n    want of memory"),
    }
}

fn run_code(rt: &HostRuntime, parts: StagedParts, block: &str) -> io::Result<()> {
    match verify(rt.alloc(), parts) {
        Ok(Some(code)) => run_valid(rt, &code, block),
        Ok(None) => println!(rt; "{block}\n    not valid"),
        Err(OutOfMemory) => println!(rt; "{block}\n    want of memory"),
    }
}

// The program of the line `> open`, and the number of its parameters.
fn opening(block: &str) -> Read<(u32, u32)> {
    for line in block.lines() {
        if let Some(rest) = line.strip_prefix("> open ") {
            return match rest.split_once(' ') {
                Some((program, parameters)) => Ok((number(program)?, number(parameters)?)),
                None => Ok((number(rest)?, 0)),
            };
        }
    }
    Ok((0, 0))
}

// Whether a case asks for something of the machine.
fn is_run(block: &str) -> bool {
    block.lines().any(|line| line.starts_with("> "))
}

fn run_valid(rt: &HostRuntime, code: &ProgramCode, block: &str) -> io::Result<()> {
    if !is_run(block) {
        return println!(rt; "{block}\n    valid");
    }
    let Ok((program, parameters)) = opening(block) else {
        return println!(rt; "{block}\n    a line that opens no program");
    };
    match tables_of(rt.alloc(), block) {
        Ok(tables) => run_with(
            rt,
            code,
            program as usize,
            &tables,
            parameters as usize,
            block,
        ),
        Err(_) => println!(rt; "{block}\n    a line that is no row"),
    }
}

fn run_with(
    rt: &HostRuntime,
    code: &ProgramCode,
    program: usize,
    tables: &List<List<Row>>,
    parameters: usize,
    block: &str,
) -> io::Result<()> {
    if program > code.parts().stages.len() {
        return println!(rt; "{block}\n    no such program");
    }
    match Machine::open(rt.alloc(), code, program, &[], tables, parameters) {
        Ok(mut machine) => run_lines(rt, code, &mut machine, block),
        Err(OutOfMemory) => println!(rt; "{block}\n    want of memory"),
    }
}

// Each line, and what comes of it.
fn run_lines(
    rt: &HostRuntime,
    code: &ProgramCode,
    machine: &mut Machine,
    block: &str,
) -> io::Result<()>
    requires { machine.old.spent ≡ false → IsDataScaled (staged_program code.now machine.old.program) machine.old.state }
{
    for line in block.lines() {
        println!(rt; "{line}")?;
        run_line(rt, code, machine, line)?;
    }
    Ok(())
}

// A line that asks for a unit, or for the parameters.
fn run_line(
    rt: &HostRuntime,
    code: &ProgramCode,
    machine: &mut Machine,
    line: &str,
) -> io::Result<()>
    requires { machine.old.spent ≡ false → IsDataScaled (staged_program code.now machine.old.program) machine.old.state }
    ensures { machine.new.spent ≡ false → IsDataScaled (staged_program code.now machine.new.program) machine.new.state }
{
    match line.strip_prefix("> ") {
        None => Ok(()),
        Some("parameters") => show_parameters(rt, machine),
        Some("copy") => take_copy(rt, machine),
        Some(words) => run_words(rt, code, machine, words),
    }
}

// A copy of the machine goes on in its place.
fn take_copy(rt: &HostRuntime, machine: &mut Machine) -> io::Result<()>
    ensures { machine.new ≡ machine.old }
{
    match machine.copy(rt.alloc()) {
        Ok(copy) => {
            *machine = copy;
            Ok(())
        }
        Err(OutOfMemory) => println!(rt; "    want of memory"),
    }
}

// The unit of these words.
fn run_words(
    rt: &HostRuntime,
    code: &ProgramCode,
    machine: &mut Machine,
    words: &str,
) -> io::Result<()>
    requires { machine.old.spent ≡ false → IsDataScaled (staged_program code.now machine.old.program) machine.old.state }
    ensures { machine.new.spent ≡ false → IsDataScaled (staged_program code.now machine.new.program) machine.new.state }
{
    if is_told_before(words) {
        return Ok(());
    }
    if machine.spent() {
        return println!(rt; "    spent");
    }
    let mut written = UnitRecord::new(rt.alloc());
    match call(rt.alloc(), code, machine, words, &mut written) {
        Ok(end) => {
            show_end(rt, &end)?;
            show_written(rt, &written)
        }
        Err(stop) => show_stop(rt, &stop),
    }
}

// Whether a line says what was read before the first unit.
fn is_told_before(words: &str) -> bool {
    words == "table" || words.starts_with("row ") || words.starts_with("open ")
}

fn show_stop(rt: &HostRuntime, stop: &Stop<Unreadable>) -> io::Result<()> {
    match stop {
        Stop::Refused(_) => println!(rt; "    a line that asks for nothing"),
        Stop::OutOfMemory => println!(rt; "    want of memory"),
    }
}
