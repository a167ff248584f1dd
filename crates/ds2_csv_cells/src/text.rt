//! The text of types and values.
ghost use Rattle.std.specs.Prelude.{◌≡◌, ◌<◌, ◌≤◌, length, ◌++◌, ◌∷◌, [], if◌then◌else◌, OnOk, IfOk, string_bytes};
ghost use Rattle.std.specs.Fmt.{signed_decimal};
ghost use Rattle.ds2_csv_records.specs.Records.{field_of};
ghost use Rattle.ds2_decimal.specs.Text.{decimal_text, last_digits, written_magnitude};
ghost use Rattle.ds2_csv_cells.specs.CellText.{type_text, null_text, escaped, cell_text};
ghost use Rattle.ds2_csv_cells.specs.Pointed.{with_point};

use ds2_base::{Bytes, OutOfMemory};
use ds2_csv_records::add_field;
use ds2_decimal::Dec;
use ds2_value::{Ty, Value, write_dec};
use itoa::Buffer;
use std::alloc::{AllocError, Global};

/// The spelling of a type.
#[tactic(auto, unfolding(crate::specs::CellText::type_text))]
pub fn type_text(alloc: Global, ty: Ty) -> Result<String, AllocError>
    ensures { IfOk result (λ spelling. string_bytes spelling ≡ type_text ty) }
{
    match ty {
        Ty::BigInt => String::from_str(alloc, "bigint"),
        Ty::Decimal { p, s } => format!(in alloc; "decimal({p},{s})"),
        Ty::Char { n } => format!(in alloc; "char({n})"),
        Ty::Varchar { n } => format!(in alloc; "varchar({n})"),
    }
}

// What null is written as in a column of a type.
fn null_text(ty: Ty) -> &'static str
    ensures { result.now ≡ null_text ty }
{
    match ty {
        Ty::BigInt | Ty::Decimal { .. } => "",
        Ty::Char { .. } | Ty::Varchar { .. } => "\\N",
    }
}

// Adds the text of a cell that holds a text, with one more backslash where it begins with one.
fn add_text(alloc: Global, out: &mut Bytes, text: &str) -> Result<(), OutOfMemory>
    ensures { OnOk result (out.new ≡ out.old ++ field_of (escaped text.now)) }
{
    match text.as_bytes() {
        [b'\\', ..] => {
            let longer = format!(in alloc; "\\{text}")?;
            add_field(out, longer.as_bytes())?;
            Ok(())
        }
        bytes => {
            add_field(out, bytes)?;
            Ok(())
        }
    }
}

// Adds the text of a cell that holds an integer, which needs no quotes.
#[inline(always)]
fn add_integer(out: &mut Bytes, buffer: &mut Buffer, i: i64) -> Result<(), OutOfMemory>
    ensures { OnOk result (out.new ≡ out.old ++ field_of (signed_decimal i)) }
{
    out.append(buffer.format(i).as_bytes())?;
    Ok(())
}

// Adds the last digits of a number, so many of them.
fn add_last_digits(out: &mut Bytes, n: u64, count: u8) -> Result<(), OutOfMemory>
    ensures { OnOk result (out.new ≡ out.old ++ last_digits count n) }
{
    if count > 0 {
        add_last_digits(out, n / 10, count - 1)?;
        out.push(b'0' + (n % 10) as u8)?;
    }
    Ok(())
}

// Adds the sign of a number below 0.
fn add_sign(out: &mut Bytes, below_zero: bool) -> Result<(), OutOfMemory>
    ensures { OnOk result (out.new ≡ out.old ++ (if below_zero then 45 ∷ [] else [])) }
{
    if below_zero {
        out.push(b'-')?;
    }
    Ok(())
}

// Adds digits, of which there are more than `behind`, with a point before the last `behind` of them.
fn add_pointed(out: &mut Bytes, digits: &[u8], behind: usize) -> Result<(), OutOfMemory>
    requires { behind < length digits.now }
    ensures { OnOk result (out.new ≡ out.old ++ with_point behind digits.now) }
{
    let (whole, fraction) = digits.split_at(digits.len() - behind);
    out.append(whole)?;
    out.push(b'.')?;
    out.append(fraction)?;
    Ok(())
}

// Adds the text of a decimal without its sign, of any size, with at least one digit behind the point.
fn add_by_digits(out: &mut Bytes, buffer: &mut Buffer, n: u64, scale: u8) -> Result<(), OutOfMemory>
    requires some { 0 < scale }
    requires few { scale ≤ 18 }
    ensures { OnOk result (out.new ≡ out.old ++ written_magnitude n scale) }
{
    out.append(buffer.format(n / 10u64.pow(scale as u32)).as_bytes())?;
    out.push(b'.')?;
    add_last_digits(out, n, scale)?;
    Ok(())
}

// Adds the text of a decimal without its sign, of at most 18 digits behind the point. Where it has more digits than those, they
// are made at once.
fn add_magnitude(out: &mut Bytes, buffer: &mut Buffer, n: u64, scale: u8) -> Result<(), OutOfMemory>
    requires { scale ≤ 18 }
    ensures { OnOk result (out.new ≡ out.old ++ written_magnitude n scale) }
{
    let digits = buffer.format(n).as_bytes();
    if scale == 0 {
        out.append(digits)?;
        return Ok(());
    }
    if digits.len() > scale as usize {
        add_pointed(out, digits, scale as usize)?;
        return Ok(());
    }
    add_by_digits(out, buffer, n, scale)
}

// Adds the text of a cell that holds a decimal, which needs no quotes. A short one is written here, in fewer steps.
fn add_decimal(
    alloc: Global,
    out: &mut Bytes,
    buffer: &mut Buffer,
    d: Dec,
) -> Result<(), OutOfMemory>
    ensures { OnOk result (out.new ≡ out.old ++ field_of (decimal_text d)) }
{
    let units = d.units();
    let magnitude = units.unsigned_abs();
    if d.scale() > 18 || magnitude > u64::MAX as u128 {
        let text = write_dec(alloc, d)?;
        return add_field(out, text.as_bytes());
    }
    add_sign(out, units < 0)?;
    add_magnitude(out, buffer, magnitude as u64, d.scale())?;
    Ok(())
}

// Adds the text of a cell that holds a value in a column of a type.
#[inline(never)]
#[tactic(auto, unfolding(crate::specs::CellText::cell_text))]
fn add_value(
    alloc: Global,
    out: &mut Bytes,
    buffer: &mut Buffer,
    ty: Ty,
    value: &Value,
) -> Result<(), OutOfMemory>
    ensures { OnOk result (out.new ≡ out.old ++ field_of (cell_text ty value.now)) }
{
    match value {
        Value::Null => add_field(out, null_text(ty).as_bytes()),
        Value::Int(i) => add_integer(out, buffer, *i),
        Value::Dec(d) => add_decimal(alloc, out, buffer, *d),
        Value::Txt(t) => add_text(alloc, out, t.as_str()),
    }
}

/// Adds the cell of a value in a column of a type, with quotes where it needs them. An integer is added here, in fewer steps.
#[inline(always)]
#[tactic(auto, unfolding(crate::specs::CellText::cell_text))]
pub fn write_cell(
    alloc: Global,
    out: &mut Bytes,
    buffer: &mut Buffer,
    ty: Ty,
    value: &Value,
) -> Result<(), OutOfMemory>
    ensures { OnOk result (out.new ≡ out.old ++ field_of (cell_text ty value.now)) }
{
    match value {
        Value::Int(i) => add_integer(out, buffer, *i),
        _ => add_value(alloc, out, buffer, ty, value),
    }
}
