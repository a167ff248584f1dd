//! What the lines of a case ask for.
ghost use Rattle.std.specs.Prelude.{◌≡◌, ◌≤◌, ◌∷◌, [], false, IfOk};
ghost use Rattle.ds2_value.specs.declared.value.Value.TheVariants.{Int};
ghost use Rattle.ds2_code.specs.Scales.{IsDataScaled};
ghost use Rattle.ds2_machine.specs.AtRest.{staged_program};
ghost use Rattle.ds2_machine.specs.declared.machine.TheConstants.{MOST_BUDGET};

use crate::codes::text::{Read, Unreadable, number, refused, value};
use ds2_base::{List, OutOfMemory, Stop};
use ds2_machine::{MOST_BUDGET, Machine, UnitEnd, UnitRecord};
use ds2_valid_code::ProgramCode;
use ds2_value::{Row, Value};
use std::alloc::Global;

fn budget(word: &str) -> Read<u64>
    ensures { IfOk result (λ budget. budget ≤ MOST_BUDGET) }
{
    let budget = u64::from(number(word)?);
    if budget > MOST_BUDGET {
        return Err(Stop::Refused(Unreadable));
    }
    Ok(budget)
}

fn whole_number(word: &str) -> Read<i64> {
    match word.parse::<i64>() {
        Ok(number) => Ok(number),
        Err(_) => refused(),
    }
}

// A load that sets a slot to a number.
fn load(alloc: Global, slot: u32, x: i64) -> Result<List<(u32, Value)>, OutOfMemory>
    ensures { IfOk result (λ set. set ≡ (slot, Int x) ∷ []) }
{
    let mut load = List::new(alloc);
    load.push((slot, Value::Int(x)))?;
    Ok(load)
}

/// Runs the unit that a line asks for.
pub fn call(
    alloc: Global,
    code: &ProgramCode,
    machine: &mut Machine,
    words: &str,
    written: &mut UnitRecord,
) -> Read<UnitEnd>
    requires ready { machine.old.spent ≡ false }
    requires scaled { IsDataScaled (staged_program code.now machine.old.program) machine.old.state }
    ensures { machine.new.spent ≡ false → IsDataScaled (staged_program code.now machine.new.program) machine.new.state }
{
    let Some((unit, rest)) = words.split_once(' ') else {
        return refused();
    };
    match unit {
        "init" => Ok(machine.call_init(alloc, code, budget(rest)?, written)?),
        "term" => Ok(machine.call_term(alloc, code, budget(rest)?, written)?),
        "run" => call_run(alloc, code, machine, rest, written),
        _ => refused(),
    }
}

// Runs the unit `run`: `7`, or `7 0 42`, which sets slot 0 to 42.
fn call_run(
    alloc: Global,
    code: &ProgramCode,
    machine: &mut Machine,
    rest: &str,
    written: &mut UnitRecord,
) -> Read<UnitEnd>
    requires ready { machine.old.spent ≡ false }
    requires scaled { IsDataScaled (staged_program code.now machine.old.program) machine.old.state }
    ensures { machine.new.spent ≡ false → IsDataScaled (staged_program code.now machine.new.program) machine.new.state }
{
    match rest.split_once(' ') {
        None => {
            let nothing: List<(u32, Value)> = List::new(alloc);
            Ok(machine.call_run(alloc, code, &nothing, budget(rest)?, written)?)
        }
        Some((limit, setting)) => {
            call_loaded(alloc, code, machine, budget(limit)?, setting, written)
        }
    }
}

// Runs the unit `run` with a setting: `0 42` sets slot 0 to 42.
fn call_loaded(
    alloc: Global,
    code: &ProgramCode,
    machine: &mut Machine,
    budget: u64,
    setting: &str,
    written: &mut UnitRecord,
) -> Read<UnitEnd>
    requires ready { machine.old.spent ≡ false }
    requires scaled { IsDataScaled (staged_program code.now machine.old.program) machine.old.state }
    requires budget { budget ≤ MOST_BUDGET }
    ensures { machine.new.spent ≡ false → IsDataScaled (staged_program code.now machine.new.program) machine.new.state }
{
    let Some((slot, x)) = setting.split_once(' ') else {
        return refused();
    };
    let load = load(alloc, number(slot)?, whole_number(x)?)?;
    Ok(machine.call_run(alloc, code, &load, budget, written)?)
}

// The values of a row, with `|` between them.
fn row(alloc: Global, words: &str) -> Read<Row> {
    let mut row = List::new(alloc);
    for word in words.split('|') {
        row.push(value(alloc, word)?)?;
    }
    Ok(row)
}

// The rows below a line `> table`.
fn table(alloc: Global, text: &str) -> Read<List<Row>> {
    let mut rows = List::new(alloc);
    for line in text.lines() {
        if let Some(words) = line.strip_prefix("> row ") {
            rows.push(row(alloc, words)?)?;
        }
    }
    Ok(rows)
}

/// The tables that the hash objects of a case are loaded from.
pub fn tables_of(alloc: Global, block: &str) -> Read<List<List<Row>>> {
    let mut tables = List::new(alloc);
    let Some((_code, text)) = block.split_once("\n> table") else {
        return Ok(tables);
    };
    for piece in text.split("\n> table") {
        tables.push(table(alloc, piece)?)?;
    }
    Ok(tables)
}
