//! Functions of the language on texts and on null.
ghost use Rattle.std.specs.Prelude.{◌≡◌, IfOk, Ok, length, option_map, pos, string_bytes};
ghost use Rattle.std.specs.Str.{chars};
ghost use Rattle.ds2_base.specs.Says.{Says};
ghost use Rattle.ds2_value.specs.Texts.{without_blanks};
ghost use Rattle.ds2_value.specs.Functions.{is_null_of, length_of, trim_of, joined_texts, concat_of, part_of, substr_of};

use crate::texts::{after_characters, cut_to, shortened_to, trimmed};
use crate::{Fault, TEXT_CHARACTERS, Value};
use ds2_base::{OutOfMemory, Stop, Text, char_count};
use std::alloc::Global;

/// `null(x)`: 1 where x is null, else 0.
pub fn is_null(args: &[Value]) -> Value
    ensures { result ≡ is_null_of args.now }
{
    match args {
        [v] => Value::Int(v.is_null() as i64),
        _ => Value::Null,
    }
}

// The number of characters without the blanks at the end, as a BIGINT.
fn trimmed_length(t: &Text) -> i64
    ensures { result ≡ pos (length (without_blanks (chars t.now))) }
{
    // No more characters than bytes, of which a text has fewer than 2 ^ 63.
    char_count(trimmed(t.as_str())).min(t.len()) as i64
}

/// `length(t)`: the number of characters without the blanks at the end; null where t is null.
pub fn length(args: &[Value]) -> Value
    ensures { result ≡ length_of args.now }
{
    match args {
        [Value::Txt(t)] => Value::Int(trimmed_length(t)),
        _ => Value::Null,
    }
}

/// `trim(t)`: the text without the blanks at its end; null where t is null. No fault.
pub fn trim(alloc: Global, args: &[Value]) -> Result<Value, Stop<Fault>>
    ensures { Says result (Ok (trim_of args.now)) }
{
    match args {
        [Value::Txt(t)] => Ok(Value::Txt(Text::of(alloc, trimmed(t.as_str()))?)),
        _ => Ok(Value::Null),
    }
}

// At most k characters of the text from character i on, which counts from 1.
fn part(alloc: Global, t: &str, i: i64, k: usize) -> Result<Value, Stop<Fault>>
    ensures { Says result (part_of t.now i (pos k)) }
{
    if i < 1 || (i as usize) - 1 > char_count(t) {
        return Err(Stop::Refused(Fault::Range));
    }
    let rest = after_characters(t, i as usize - 1);
    Ok(Value::Txt(Text::of(alloc, cut_to(rest, k))?))
}

/// `substr(t, i)` and `substr(t, i, k)`: the text from character i on, which counts from 1, to its end or at most k characters of
/// it; null where an argument is null. Range exactly where i is below 1 or above the number of characters and one, or k below 0.
pub fn substr(alloc: Global, args: &[Value]) -> Result<Value, Stop<Fault>>
    ensures { Says result (substr_of args.now) }
{
    match args {
        [Value::Txt(t), Value::Int(i)] => part(alloc, t.as_str(), *i, char_count(t.as_str())),
        [Value::Txt(t), Value::Int(i), Value::Int(k)] => {
            if *k < 0 {
                return Err(Stop::Refused(Fault::Range));
            }
            part(alloc, t.as_str(), *i, *k as usize)
        }
        _ => Ok(Value::Null),
    }
}

// Puts the texts one after the other; None where one is no text.
fn joined_texts(alloc: Global, args: &[Value]) -> Result<Option<String>, OutOfMemory>
    ensures { IfOk result (λ joined. option_map string_bytes joined ≡ joined_texts args.now) }
{
    let mut joined = String::new(alloc);
    'texts: for v in args {
        match v {
            Value::Txt(t) => joined.push_str(t.as_str())?,
            Value::Null | Value::Int(_) | Value::Dec(_) => return Ok(None),
        }
    }
    Ok(Some(joined))
}

/// `a || b`: the texts one after the other, cut to 1,024 characters; null where one is null. No fault.
pub fn concat(alloc: Global, args: &[Value]) -> Result<Value, Stop<Fault>>
    ensures { Says result (Ok (concat_of args.now)) }
{
    match joined_texts(alloc, args)? {
        None => Ok(Value::Null),
        Some(joined) => Ok(Value::Txt(shortened_to(
            Text::from_string(alloc, joined)?,
            TEXT_CHARACTERS as usize,
        ))),
    }
}
