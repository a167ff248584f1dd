//! What a unit leaves, as lines.
use ds2_base::{OutOfMemory, Text};
use ds2_machine::{Machine, OutRow, UnitEnd, UnitRecord};
use ds2_value::{Ending, Fault, Value, write_dec};
use std::alloc::Global;
use std::io;

fn fault_name(fault: Fault) -> &'static str {
    match fault {
        Fault::Overflow => "Overflow",
        Fault::DivideByZero => "DivideByZero",
        Fault::Range => "Range",
        Fault::NoWhen => "NoWhen",
        Fault::BudgetSpent => "BudgetSpent",
        Fault::DepthReached => "DepthReached",
    }
}

/// How a unit has ended.
pub fn show_end(rt: &HostRuntime, end: &UnitEnd) -> io::Result<()> {
    let left = end.left;
    let executed = end.executed;
    match end.ending {
        Ending::Normal => println!(rt; "    normal, {left} left, {executed} executed"),
        Ending::Faulted { kind, place } => {
            let name = fault_name(kind);
            let (line, column) = (place.line, place.column);
            println!(rt; "    {name} at {line}:{column}, {left} left, {executed} executed")
        }
    }
}

// A value as in a case: a decimal with an `n` behind it, a text between quotes.
fn shown(alloc: Global, value: &Value) -> Result<String, OutOfMemory> {
    match value {
        Value::Null => Ok(String::from_str(alloc, "null")?),
        Value::Int(i) => Ok(format!(in alloc; "{i}")?),
        Value::Dec(d) => {
            let text: Text = write_dec(alloc, *d)?;
            let digits = text.as_str();
            Ok(format!(in alloc; "{digits}n")?)
        }
        Value::Txt(t) => {
            let text = t.as_str();
            Ok(format!(in alloc; "'{text}'")?)
        }
    }
}

fn values(alloc: Global, row: &[Value]) -> Result<String, OutOfMemory> {
    let mut line = String::new(alloc);
    for value in row {
        line.push('|')?;
        line.push_str(shown(alloc, value)?.as_str())?;
    }
    Ok(line)
}

fn show_row(rt: &HostRuntime, row: &OutRow) -> io::Result<()> {
    let output = row.output;
    match values(rt.alloc(), row.row.as_slice()) {
        Ok(line) => println!(rt; "    row {output} {line}"),
        Err(OutOfMemory) => println!(rt; "    want of memory"),
    }
}

/// The rows and the lines that a unit wrote.
pub fn show_written(rt: &HostRuntime, written: &UnitRecord) -> io::Result<()> {
    for row in written.rows.as_slice() {
        show_row(rt, row)?;
    }
    for line in written.lines.as_slice() {
        let text = line.as_str();
        println!(rt; "    line {text}")?;
    }
    Ok(())
}

/// What was set for the parameters of the thread program.
pub fn show_parameters(rt: &HostRuntime, machine: &Machine) -> io::Result<()> {
    match values(rt.alloc(), machine.stage_parameters()) {
        Ok(line) => println!(rt; "    {line}"),
        Err(OutOfMemory) => println!(rt; "    want of memory"),
    }
}
