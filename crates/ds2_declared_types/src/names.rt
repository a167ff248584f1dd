//! Names and numbers that tokens spell.
ghost use Rattle.std.specs.Prelude.{◌≡◌, ◌+◌, ◌*◌, ◌-◌, IfOk, IfSome};
ghost use Rattle.ds2_names.specs.NameRules.{spelled_number};
ghost use Rattle.ds2_names.specs.SourceUnit.{spelled_name, names_alone};
ghost use Rattle.ds2_declared_types.specs.Numbers.{with_digits};

use ds2_base::{List, Name, OutOfMemory, Stop};
use ds2_names::PlacedName;
use ds2_token::Token;
use std::alloc::Global;

/// The name that a token spells. What is no name, as no name among the tokens of a text is, is want of memory.
pub fn name(alloc: Global, token: &Token) -> Result<Name, OutOfMemory>
    ensures { IfOk result (λ name. name ≡ spelled_name token.now) }
{
    match token.name(alloc) {
        Ok(name) => Ok(name),
        Err(Stop::Refused(_)) => Err(OutOfMemory),
        Err(Stop::OutOfMemory) => Err(OutOfMemory),
    }
}

/// A name in lower case, where it is what these bytes are.
fn of_these(name: Name, bytes: &[u8]) -> Result<Name, OutOfMemory>
    ensures { IfOk result (λ name. name ≡ bytes.now) }
{
    if name.as_str().as_bytes() == bytes {
        Ok(name)
    } else {
        Err(OutOfMemory)
    }
}

/// The name of these bytes. What is no name in lower case, as the name of every column is, is want of memory.
pub fn name_of_bytes(alloc: Global, bytes: &[u8]) -> Result<Name, OutOfMemory>
    ensures { IfOk result (λ name. name ≡ bytes.now) }
{
    match std::str::from_utf8(bytes) {
        Ok(text) => match Name::new(alloc, text) {
            Ok(name) => of_these(name, bytes),
            Err(Stop::Refused(_)) => Err(OutOfMemory),
            Err(Stop::OutOfMemory) => Err(OutOfMemory),
        },
        Err(_) => Err(OutOfMemory),
    }
}

/// The names of names with their places.
pub fn names_alone(alloc: Global, placed: &[PlacedName]) -> Result<List<Name>, OutOfMemory>
    ensures { IfOk result (λ names. names ≡ names_alone placed.now) }
{
    let mut names: List<Name> = List::new(alloc);
    'placed: for n in placed {
        let name = name_of_bytes(alloc, n.name.as_slice())?;
        names.push(name)?;
    }
    Ok(names)
}

/// A number with one more digit behind it; None where it is 2^32 or more.
fn with_digit(value: u32, c: u8) -> Option<u32>
    ensures { IfSome result (λ n. n ≡ value * 10 + (c - 48)) }
{
    value
        .checked_mul(10)?
        .checked_add(u32::from(c.saturating_sub(48)))
}

/// The number that digits behind another one write; a number of 2^32 or more is want of memory.
fn number_behind(before: u32, digits: &[u8]) -> Result<u32, OutOfMemory>
    ensures { IfOk result (λ n. n ≡ with_digits before digits.now) }
{
    let mut value = before;
    let mut rest = digits;
    'digits: while let [c, after @ ..] = rest {
        match with_digit(value, *c) {
            None => return Err(OutOfMemory),
            Some(more) => {
                value = more;
                rest = after;
            }
        }
    }
    Ok(value)
}

/// The number that an integer token spells.
pub fn number(token: &Token) -> Result<u32, OutOfMemory>
    ensures { IfOk result (λ n. n ≡ spelled_number token.now) }
{
    number_behind(0, token.spelling.as_bytes())
}

/// The number of digits that an integer token spells; one of 256 or more, which the rules of names refuse, is want of memory.
pub fn digits(token: &Token) -> Result<u8, OutOfMemory>
    ensures { IfOk result (λ n. n ≡ spelled_number token.now) }
{
    let n = number(token)?;
    match u8::try_from(n) {
        Ok(n) => Ok(n),
        Err(_) => Err(OutOfMemory),
    }
}

/// The number of characters that an integer token spells; one of 65,536 or more, which the rules of names refuse, is want of memory.
pub fn characters(token: &Token) -> Result<u16, OutOfMemory>
    ensures { IfOk result (λ n. n ≡ spelled_number token.now) }
{
    let n = number(token)?;
    match u16::try_from(n) {
        Ok(n) => Ok(n),
        Err(_) => Err(OutOfMemory),
    }
}
