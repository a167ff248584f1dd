//! Instructions, by the names of the machine's table, with their fields behind them: `RESCALE 5 2`, `ICMP =`, `HCALL 0 find`,
//! `TICK 3 7`; `TICK` alone is at the start.
use crate::codes::text::operation::operation;
use crate::codes::text::words::{Read, digits, number, refused, size, ty};
use ds2_base::Place;
use ds2_code::Instr;
use ds2_value::{Comparison, HashFunction, IteratorFunction};

fn comparison(word: &str) -> Read<Comparison> {
    match word {
        "=" => Ok(Comparison::Equal),
        "^=" => Ok(Comparison::NotEqual),
        "<" => Ok(Comparison::Less),
        "<=" => Ok(Comparison::LessOrEqual),
        ">" => Ok(Comparison::Greater),
        ">=" => Ok(Comparison::GreaterOrEqual),
        _ => refused(),
    }
}

fn hash_function(word: &str) -> Read<HashFunction> {
    match word {
        "find" => Ok(HashFunction::Find),
        "check" => Ok(HashFunction::Check),
        "add" => Ok(HashFunction::Add),
        "replace" => Ok(HashFunction::Replace),
        "remove" => Ok(HashFunction::Remove),
        "clear" => Ok(HashFunction::Clear),
        "num_items" => Ok(HashFunction::NumItems),
        _ => refused(),
    }
}

fn iterator_function(word: &str) -> Read<IteratorFunction> {
    match word {
        "first" => Ok(IteratorFunction::First),
        "next" => Ok(IteratorFunction::Next),
        "prev" => Ok(IteratorFunction::Prev),
        "last" => Ok(IteratorFunction::Last),
        _ => refused(),
    }
}

// An instruction on values, with one field.
fn on_values(word: &str, field: &str) -> Read<Instr> {
    match word {
        "CONST" => Ok(Instr::Const(number(field)?)),
        "NULL" => Ok(Instr::Null(ty(field)?)),
        "PAD" => Ok(Instr::Pad(size(field)?)),
        "CUT" => Ok(Instr::Cut(size(field)?)),
        "ICMP" => Ok(Instr::ICmp(comparison(field)?)),
        "DCMP" => Ok(Instr::DCmp(comparison(field)?)),
        "TCMP" => Ok(Instr::TCmp(comparison(field)?)),
        _ => refused(),
    }
}

// An instruction with the number of a slot, a local, a parameter or an output, or of operands.
fn of_number(word: &str, n: u32) -> Option<Instr> {
    match word {
        "GLOAD" => Some(Instr::GLoad(n)),
        "GSTORE" => Some(Instr::GStore(n)),
        "LLOAD" => Some(Instr::LLoad(n)),
        "LSTORE" => Some(Instr::LStore(n)),
        "SETPARM" => Some(Instr::SetParm(n)),
        "OUTPUT" => Some(Instr::Output(n)),
        "CHOOSE" => Some(Instr::Choose(n)),
        "LEAST" => Some(Instr::Least(n)),
        "GREATEST" => Some(Instr::Greatest(n)),
        "PUT" => Some(Instr::Put(n)),
        _ => None,
    }
}

// An instruction with the number of an instruction or of a method.
fn of_target(word: &str, n: u32) -> Option<Instr> {
    match word {
        "JUMP" => Some(Instr::Jump(n)),
        "JFALSE" => Some(Instr::JFalse(n)),
        "JTRUE" => Some(Instr::JTrue(n)),
        "CALL" => Some(Instr::Call(n)),
        _ => None,
    }
}

// An instruction with one field.
fn with_field(word: &str, field: &str) -> Read<Instr> {
    let Ok(n) = number(field) else {
        return on_values(word, field);
    };
    if let Some(instr) = of_target(word, n) {
        return Ok(instr);
    }
    match of_number(word, n) {
        Some(instr) => Ok(instr),
        None => on_values(word, field),
    }
}

// An instruction with two fields.
fn with_two_fields(word: &str, first: &str, second: &str) -> Read<Instr> {
    match word {
        "TICK" => Ok(Instr::Tick(Place {
            line: number(first)?,
            column: number(second)?,
        })),
        "RESCALE" => Ok(Instr::Rescale(digits(first)?, digits(second)?)),
        "HCALL" => Ok(Instr::HCall(number(first)?, hash_function(second)?)),
        "ICALL" => Ok(Instr::ICall(number(first)?, iterator_function(second)?)),
        _ => refused(),
    }
}

/// The instruction of a line.
pub fn instruction(words: &[&str]) -> Read<Instr> {
    match *words {
        [word] => match operation(word) {
            Some(instr) => Ok(instr),
            None => refused(),
        },
        [word, field] => with_field(word, field),
        [word, first, second] => with_two_fields(word, first, second),
        _ => refused(),
    }
}
