//! Files that are spoiled byte after byte.

use crate::objects::answers::decoded;
use ds2_base::{Bytes, List};
use std::alloc::{AllocError, Global};

// The first so many bytes of a file.
fn front(alloc: Global, file: &Bytes, n: usize) -> Result<Bytes, AllocError> {
    let bytes = file.as_slice();
    let shorter = if n <= bytes.len() { &bytes[..n] } else { bytes };
    Ok(List::of(Vec::from_slice(alloc, shorter)?))
}

// A file with 255 as this byte.
fn with_255(alloc: Global, file: &Bytes, n: usize) -> Result<Bytes, AllocError> {
    let mut bytes = Vec::from_slice(alloc, file.as_slice())?;
    if n < bytes.len() {
        bytes[n] = 255;
    }
    Ok(List::of(bytes))
}

/// Whether each beginning of a file that is not the whole is Truncated; the answers to the others.
pub fn each_cut(alloc: Global, file: &Bytes) -> Result<String, AllocError> {
    let mut told = String::new(alloc);
    for n in 0..file.len() {
        let cut = front(alloc, file, n)?;
        let answer = decoded(alloc, &cut)?;
        if answer.as_str() != "Truncated" {
            let line = format!(in alloc; "{answer} after {n} bytes\n    ")?;
            told.push_str(line.as_str())?;
        }
    }
    let count = file.len();
    told.push_str("each other cut is Truncated, of ")?;
    let last = format!(in alloc; "{count}")?;
    told.push_str(last.as_str())?;
    Ok(told)
}

// An answer in which an object and code that is not valid are one.
fn answer_of_255(alloc: Global, file: &Bytes, n: usize) -> Result<String, AllocError> {
    let spoiled = with_255(alloc, file, n)?;
    let answer = decoded(alloc, &spoiled)?;
    if answer.as_str() == "Ok" || answer.as_str() == "NotValid" {
        String::from_str(alloc, "Read")
    } else {
        Ok(answer)
    }
}

/// The answers to a file with each of its bytes set to 255 in turn: a line for bytes with one answer, from the first on.
pub fn each_byte(alloc: Global, file: &Bytes) -> Result<String, AllocError> {
    let mut told = String::new(alloc);
    let mut last = String::new(alloc);
    for n in 0..file.len() {
        let answer = answer_of_255(alloc, file, n)?;
        if answer.as_str() != last.as_str() {
            let line = format!(in alloc; "from {n} on {answer}\n    ")?;
            told.push_str(line.as_str())?;
            last = answer;
        }
    }
    told.push_str("to the end")?;
    Ok(told)
}
