//! The words of a line: numbers, types, names, and lists of them.
//!
//! Lists have commas between their items, and `-` is the empty one. `decimal(5.2)` is DECIMAL(5,2).
use ds2_base::{List, Name, Stop};
use ds2_code::ParameterPart;
use ds2_value::{Column, Ty};
use std::alloc::Global;
use thiserror::Error;

/// A line is none of those that a case has.
#[derive(Clone, Copy, Debug, PartialEq, Eq, Error)]
#[error("a line that is no part of a program")]
pub struct Unreadable;

/// What reading a word gives.
pub type Read<T> = Result<T, Stop<Unreadable>>;

/// The answer to a word that is none.
pub fn refused<T>() -> Read<T> {
    Err(Stop::Refused(Unreadable))
}

pub fn number(word: &str) -> Read<u32> {
    match word.parse::<u32>() {
        Ok(number) => Ok(number),
        Err(_) => refused(),
    }
}

/// The number of characters of a text's type.
pub fn size(word: &str) -> Read<u16> {
    match word.parse::<u16>() {
        Ok(size) => Ok(size),
        Err(_) => refused(),
    }
}

/// A number of digits.
pub fn digits(word: &str) -> Read<u8> {
    match word.parse::<u8>() {
        Ok(digits) => Ok(digits),
        Err(_) => refused(),
    }
}

fn decimal(sizes: &str) -> Read<Ty> {
    match sizes.split_once('.') {
        Some((p, s)) => Ok(Ty::Decimal {
            p: digits(p)?,
            s: digits(s)?,
        }),
        None => refused(),
    }
}

// A type with sizes, of which the `)` at their end is left.
fn sized_ty(kind: &str, sizes: &str) -> Read<Ty> {
    let Some(sizes) = sizes.strip_suffix(')') else {
        return refused();
    };
    match kind {
        "decimal" => decimal(sizes),
        "char" => Ok(Ty::Char { n: size(sizes)? }),
        "varchar" => Ok(Ty::Varchar { n: size(sizes)? }),
        _ => refused(),
    }
}

/// `bigint`, `decimal(5.2)`, `char(3)` or `varchar(3)`, in bounds or not.
pub fn ty(word: &str) -> Read<Ty> {
    match word.split_once('(') {
        Some((kind, sizes)) => sized_ty(kind, sizes),
        None if word == "bigint" => Ok(Ty::BigInt),
        None => refused(),
    }
}

/// A type, or None for `-`.
pub fn optional_ty(word: &str) -> Read<Option<Ty>> {
    if word == "-" {
        return Ok(None);
    }
    Ok(Some(ty(word)?))
}

pub fn name(alloc: Global, word: &str) -> Read<Name> {
    match Name::new(alloc, word) {
        Ok(name) => Ok(name),
        Err(Stop::Refused(_)) => refused(),
        Err(Stop::OutOfMemory) => Err(Stop::OutOfMemory),
    }
}

/// Numbers, as `0,1`.
pub fn numbers(alloc: Global, word: &str) -> Read<List<u32>> {
    let mut numbers = List::new(alloc);
    if word == "-" {
        return Ok(numbers);
    }
    for item in word.split(',') {
        numbers.push(number(item)?)?;
    }
    Ok(numbers)
}

/// Types, as `bigint,char(3)`.
pub fn types(alloc: Global, word: &str) -> Read<List<Ty>> {
    let mut types = List::new(alloc);
    if word == "-" {
        return Ok(types);
    }
    for item in word.split(',') {
        types.push(ty(item)?)?;
    }
    Ok(types)
}

fn parameter(item: &str) -> Read<ParameterPart> {
    let (is_in_out, kind) = match item.strip_prefix("in_out:") {
        Some(kind) => (true, kind),
        None => (false, item),
    };
    Ok(ParameterPart {
        ty: ty(kind)?,
        is_in_out,
    })
}

/// Parameters, as `bigint,in_out:char(3)`.
pub fn parameters(alloc: Global, word: &str) -> Read<List<ParameterPart>> {
    let mut parameters = List::new(alloc);
    if word == "-" {
        return Ok(parameters);
    }
    for item in word.split(',') {
        parameters.push(parameter(item)?)?;
    }
    Ok(parameters)
}

fn column(alloc: Global, item: &str) -> Read<Column> {
    let Some((title, kind)) = item.split_once(':') else {
        return refused();
    };
    let ty = ty(kind)?;
    Ok(Column {
        name: name(alloc, title)?,
        ty,
    })
}

/// Columns of a table, as `k:bigint,v:char(3)`.
pub fn columns(alloc: Global, word: &str) -> Read<List<Column>> {
    let mut columns = List::new(alloc);
    if word == "-" {
        return Ok(columns);
    }
    for item in word.split(',') {
        columns.push(column(alloc, item)?)?;
    }
    Ok(columns)
}

fn made_column(alloc: Global, item: &str) -> Read<(Name, u32)> {
    let Some((title, slot)) = item.split_once(':') else {
        return refused();
    };
    let slot = number(slot)?;
    Ok((name(alloc, title)?, slot))
}

/// Columns of an output with their slots, as `x:0,y:1`.
pub fn made_columns(alloc: Global, word: &str) -> Read<List<(Name, u32)>> {
    let mut columns = List::new(alloc);
    if word == "-" {
        return Ok(columns);
    }
    for item in word.split(',') {
        columns.push(made_column(alloc, item)?)?;
    }
    Ok(columns)
}
