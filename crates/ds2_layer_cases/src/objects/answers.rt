//! The answer to a case.

use crate::objects::spoiled::{each_byte, each_cut};
use crate::objects::timed::timed;
use ds2_base::{Bytes, List, Stop};
use ds2_object::{ObjectRefusal, decode, encode};
use std::alloc::{AllocError, Global};
use std::io;

// The name of a refusal.
fn refusal_text(alloc: Global, refusal: &ObjectRefusal) -> Result<String, AllocError> {
    match refusal {
        ObjectRefusal::BadMagic => String::from_str(alloc, "BadMagic"),
        ObjectRefusal::BadVersion => String::from_str(alloc, "BadVersion"),
        ObjectRefusal::Truncated => String::from_str(alloc, "Truncated"),
        ObjectRefusal::TrailingBytes => String::from_str(alloc, "TrailingBytes"),
        ObjectRefusal::BadField { offset } => format!(in alloc; "BadField {offset}"),
        ObjectRefusal::NotValid => String::from_str(alloc, "NotValid"),
    }
}

/// What `decode` says of a file; of an object also whether it is written as the same bytes again.
pub fn decoded(alloc: Global, file: &Bytes) -> Result<String, AllocError> {
    match decode(alloc, file) {
        Ok(object) => match encode(alloc, &object) {
            Ok(again) => {
                let is_same = again.as_slice() == file.as_slice();
                let text = if is_same {
                    "Ok"
                } else {
                    "Ok, but written otherwise"
                };
                String::from_str(alloc, text)
            }
            Err(_) => String::from_str(alloc, "Ok, but no memory to write it"),
        },
        Err(Stop::Refused(refusal)) => refusal_text(alloc, &refusal),
        Err(Stop::OutOfMemory) => String::from_str(alloc, "no memory to read it"),
    }
}

// The answer to a word and a file.
fn answer_to(rt: &HostRuntime, word: &str, file: &Bytes) -> io::Result<String> {
    let alloc = rt.alloc();
    match word {
        "object" => Ok(decoded(alloc, file)?),
        "cuts" => Ok(each_cut(alloc, file)?),
        "bytes" => Ok(each_byte(alloc, file)?),
        "time" => timed(rt, file),
        _ => Ok(String::from_str(alloc, "a word that is none")?),
    }
}

// The answer to a task: a word, and behind a blank a file in hexadecimal digits; a word alone stands for a file without a byte.
fn task_answer(rt: &HostRuntime, task: &str) -> io::Result<String> {
    let (word, digits) = match task.split_once(' ') {
        Some(parts) => parts,
        None => (task, ""),
    };
    match hex::decode(rt.alloc(), digits) {
        Ok(bytes) => answer_to(rt, word, &List::of(bytes)),
        Err(_) => Ok(String::from_str(rt.alloc(), "digits that are none")?),
    }
}

/// The name of a case and its answer below it; a heading as it is.
pub fn answer(rt: &HostRuntime, block: &str) -> io::Result<String> {
    let alloc = rt.alloc();
    if block.starts_with("##") {
        return Ok(String::from_str(alloc, block)?);
    }
    let Some((name, task)) = block.split_once('\n') else {
        return Ok(String::from_str(alloc, "no case")?);
    };
    let answer = task_answer(rt, task)?;
    Ok(format!(in alloc; "{name}\n    {answer}")?)
}
