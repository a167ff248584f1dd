//! The parts of a program beside its instructions.
use crate::codes::text::words::{
    Read, columns, made_columns, name, number, numbers, optional_ty, parameters, refused, ty, types,
};
use crate::texts::unescaped;
use ds2_base::{Name, Text};
use ds2_code::{
    ByPart, Constant, HashPart, HashTable, MethodPart, OutputPart, ReadPart, Slot, SlotRole,
    TableReference,
};
use ds2_decimal::Dec;
use ds2_value::Value;
use std::alloc::Global;

fn role(word: &str) -> Read<SlotRole> {
    match word {
        "cleared" => Ok(SlotRole::Cleared),
        "kept" => Ok(SlotRole::Kept),
        "column" => Ok(SlotRole::Column),
        "flag" => Ok(SlotRole::Flag),
        _ => refused(),
    }
}

/// `slot x bigint kept`.
pub fn slot(alloc: Global, title: &str, kind: &str, use_of: &str) -> Read<Slot> {
    let ty = ty(kind)?;
    let role = role(use_of)?;
    Ok(Slot {
        name: name(alloc, title)?,
        ty,
        role,
    })
}

// The text between two quotes, of which the second is left.
fn text(alloc: Global, rest: &str) -> Read<Value> {
    let Some(inner) = rest.strip_suffix('\'') else {
        return refused();
    };
    match unescaped(alloc, inner)? {
        Some(text) => Ok(Value::Txt(Text::from_string(alloc, text)?)),
        None => refused(),
    }
}

fn decimal(digits: &str) -> Read<Value> {
    match Dec::read(digits) {
        Some(d) => Ok(Value::Dec(d)),
        None => refused(),
    }
}

fn whole_number(word: &str) -> Read<Value> {
    match word.parse::<i64>() {
        Ok(i) => Ok(Value::Int(i)),
        Err(_) => refused(),
    }
}

/// A value: `null`, `5`, `1.50n` or `'abc'`, with escapes in the text.
pub fn value(alloc: Global, word: &str) -> Read<Value> {
    if word == "null" {
        return Ok(Value::Null);
    }
    if let Some(rest) = word.strip_prefix('\'') {
        return text(alloc, rest);
    }
    match word.strip_suffix('n') {
        Some(digits) => decimal(digits),
        None => whole_number(word),
    }
}

/// `constant bigint 5`.
pub fn constant(alloc: Global, kind: &str, word: &str) -> Read<Constant> {
    let ty = ty(kind)?;
    Ok(Constant {
        ty,
        value: value(alloc, word)?,
    })
}

fn table(alloc: Global, title: &str, columns_word: &str) -> Read<TableReference> {
    let name = name(alloc, title)?;
    Ok(TableReference {
        name,
        maker: 0,
        columns: columns(alloc, columns_word)?,
    })
}

/// `hash 0,1 2`: the slots of its keys and of its data.
pub fn hash(alloc: Global, keys: &str, data: &str, loaded: Option<HashTable>) -> Read<HashPart> {
    let key_slots = numbers(alloc, keys)?;
    Ok(HashPart {
        key_slots,
        data_slots: numbers(alloc, data)?,
        loaded,
    })
}

/// The rest of `hash 0 1 t k:bigint,v:bigint 0 1`: the table, and its columns for the keys and for the data.
pub fn hash_table(
    alloc: Global,
    title: &str,
    columns_word: &str,
    keys: &str,
    data: &str,
) -> Read<HashTable> {
    let table = table(alloc, title, columns_word)?;
    let key_columns = numbers(alloc, keys)?;
    Ok(HashTable {
        table,
        key_columns,
        data_columns: numbers(alloc, data)?,
    })
}

/// `method 3 bigint,in_out:char(3) char(2) bigint`: entry, parameters, locals and result.
pub fn method(
    alloc: Global,
    entry: &str,
    takes: &str,
    locals: &str,
    gives: &str,
) -> Read<MethodPart> {
    let entry = number(entry)?;
    let returns = optional_ty(gives)?;
    let parameters = parameters(alloc, takes)?;
    Ok(MethodPart {
        entry,
        parameters,
        locals: types(alloc, locals)?,
        returns,
    })
}

// A slot, or None for `-`.
fn optional_slot(word: &str) -> Read<Option<u32>> {
    if word == "-" {
        return Ok(None);
    }
    Ok(Some(number(word)?))
}

/// `table t k:bigint,v:char(3) 0,1 2`: its columns, their slots, and the slot of its `in=` flag.
pub fn read_table(
    alloc: Global,
    title: &str,
    columns_word: &str,
    slots: &str,
    flag: &str,
) -> Read<ReadPart> {
    let present = optional_slot(flag)?;
    let table = table(alloc, title, columns_word)?;
    Ok(ReadPart {
        table,
        present,
        slots: numbers(alloc, slots)?,
    })
}

/// `by 0 1 2`: the slots of a BY variable and of its two flags.
pub fn by_variable(slot: &str, first: &str, last: &str) -> Read<ByPart> {
    Ok(ByPart {
        slot: number(slot)?,
        is_descending: false,
        first: number(first)?,
        last: number(last)?,
    })
}

/// `output o x:0,y:1`: a table's columns with their slots.
pub fn output(alloc: Global, title: &str, columns_word: &str) -> Read<OutputPart> {
    let name = name(alloc, title)?;
    Ok(OutputPart {
        name,
        overwrites: false,
        columns: made_columns(alloc, columns_word)?,
    })
}

/// The name of a thread program, or None for `-`.
pub fn thread_name(alloc: Global, word: &str) -> Read<Option<Name>> {
    if word == "-" {
        return Ok(None);
    }
    match name(alloc, word) {
        Ok(name) => Ok(Some(name)),
        Err(stop) => Err(stop),
    }
}
