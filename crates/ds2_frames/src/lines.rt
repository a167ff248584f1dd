//! Texts of values in lines of the log.
ghost use Rattle.std.specs.Prelude.{◌≡◌, ◌++◌, ◌∷◌, IfOk, OnOk, Ok, map, string_bytes};
ghost use Rattle.std.specs.List.{join_with_byte};
ghost use Rattle.ds2_base.specs.Says.{Says};
ghost use Rattle.ds2_value.specs.Operations.{line_value, of_one};
ghost use Rattle.ds2_code.specs.CodeRun.{operand_text};

use ds2_base::{OutOfMemory, Stop, Text};
use ds2_value::{Fault, TEXT_CHARACTERS, Ty, Value, assign_owned, trim, write_dec};
use std::alloc::Global;

// The text of an operand in a line: a number as in a table, `null` for null, a text as it is.
fn operand_text(alloc: Global, v: &Value) -> Result<Text, OutOfMemory>
    ensures { IfOk result (λ text. text ≡ operand_text v.now) }
{
    match v {
        Value::Null => Text::of(alloc, "null"),
        Value::Int(i) => Text::from_string(alloc, format!(in alloc; "{i}")?),
        Value::Dec(d) => write_dec(alloc, *d),
        Value::Txt(t) => t.copy(alloc),
    }
}

/// The text of one operand in a line, as a value: a text without the blanks at its end, cut to 1,024 characters; `null` for null.
pub(crate) fn shown(alloc: Global, operands: &[Value]) -> Result<Value, Stop<Fault>>
    ensures { Says result (Ok (of_one line_value operands.now)) }
{
    match operands {
        [Value::Txt(_)] => {
            let trimmed = trim(alloc, operands)?;
            assign_owned(alloc, trimmed, Ty::Varchar { n: TEXT_CHARACTERS })
        }
        [v] => Ok(Value::Txt(operand_text(alloc, v)?)),
        _ => Ok(Value::Null),
    }
}

// Appends the text of an operand.
fn push_operand(alloc: Global, line: &mut String, v: &Value) -> Result<(), OutOfMemory>
    ensures { OnOk result (string_bytes line.new ≡ string_bytes line.old ++ operand_text v.now) }
{
    match v {
        Value::Txt(t) => {
            line.push_str(t.as_str())?;
            Ok(())
        }
        Value::Null | Value::Int(_) | Value::Dec(_) => {
            let text = operand_text(alloc, v)?;
            line.push_str(text.as_str())?;
            Ok(())
        }
    }
}

// Appends a blank and the text of an operand.
#[tactic(auto, using(crate::proofs::LineLemmas::behind_blank))]
fn push_further(alloc: Global, line: &mut String, v: &Value) -> Result<(), OutOfMemory>
    ensures { OnOk result (string_bytes line.new ≡ string_bytes line.old ++ 32 ∷ operand_text v.now) }
{
    line.push(' ')?;
    push_operand(alloc, line, v)
}

/// Makes the line of these operands: the text of each, behind a blank but for the first.
#[tactic(auto, using(crate::proofs::LineLemmas::joined_further))]
pub fn write_line(alloc: Global, operands: &[Value], line: &mut String) -> Result<(), OutOfMemory>
    ensures { OnOk result (string_bytes line.new ≡ join_with_byte 32 (map operand_text operands.now)) }
{
    line.clear();
    let [first, rest @ ..] = operands else {
        return Ok(());
    };
    push_operand(alloc, line, first)?;
    let mut left = rest;
    'operands: while let [v, after @ ..] = left {
        push_further(alloc, line, v)?;
        left = after;
    }
    Ok(())
}
