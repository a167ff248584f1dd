//! Constants.
ghost use Rattle.std.specs.Prelude.{◌≡◌, ◌&&◌, IsTrue, OnOk, IfOk, not, if◌then◌else◌};
ghost use Rattle.ds2_value.specs.Types.{in_bounds, fits};
ghost use Rattle.ds2_value.specs.Value.{is_null};
ghost use Rattle.ds2_value.specs.declared.ty.Ty.TheVariants.{Decimal as DecimalOf};
ghost use Rattle.ds2_code.specs.ValidCode.{is_char_type, constant_allowed};
ghost use Rattle.ds2_object_words.specs.Parts.{ReadsPart, Writes};
ghost use Rattle.ds2_object_words.specs.CodeParts.{signed64_part, signed128_part, units_value, text_value_part, constant_value_part, constant_type_part, constant_line};

use crate::unread::bad;
use crate::{Flaw, Spelled, Unread, read_text, write_text};
use ds2_base::{Bytes, OutOfMemory, Stop, Text};
use ds2_code::Constant;
use ds2_decimal::Dec;
use ds2_value::{Ty, Value};
use std::alloc::Global;

// How many numbers 64 bits have.
const HALF: u128 = 0x1_0000_0000_0000_0000;

// ---- numbers with signs

fn read_signed64(bytes: &mut Unread<'_>) -> Result<i64, Stop<Flaw>>
    ensures { ReadsPart result (signed64_part.read bytes.old) bytes.new }
{
    let n = bytes.number64()?;
    Ok(n.cast_signed())
}

fn read_signed128(bytes: &mut Unread<'_>) -> Result<i128, Stop<Flaw>>
    ensures { ReadsPart result (signed128_part.read bytes.old) bytes.new }
{
    let low = bytes.number64()?;
    let high = bytes.number64()?;
    let n = low as u128 + high as u128 * HALF;
    Ok(n.cast_signed())
}

fn write_signed64(number: i64, out: &mut Bytes) -> Result<(), OutOfMemory>
    ensures { OnOk result (Writes signed64_part out.old number out.new) }
{
    out.append(&number.to_le_bytes())?;
    Ok(())
}

fn write_signed128(number: i128, out: &mut Bytes) -> Result<(), OutOfMemory>
    ensures { OnOk result (Writes signed128_part out.old number out.new) }
{
    let n = number.cast_unsigned();
    let low = (n % HALF) as u64;
    let high = (n / HALF) as u64;
    out.append(&low.to_le_bytes())?;
    out.append(&high.to_le_bytes())?;
    Ok(())
}

// ---- values

// A value that fits a type; from its first byte on so many bytes are left.
fn fitting(value: Value, ty: Ty, left: usize) -> Result<Value, Stop<Flaw>>
    requires { IsTrue (in_bounds ty) }
    ensures { result ≡ (if fits value ty then Ok value else Err (Stop.Refused (Flaw.Bad left))) }
{
    if value.fits(ty) {
        Ok(value)
    } else {
        Err(bad(left))
    }
}

// The decimal of these units that fits its type; from its first byte on so many bytes are left.
fn decimal(units: i128, p: u8, s: u8, left: usize) -> Result<Value, Stop<Flaw>>
    requires { IsTrue (in_bounds (DecimalOf p s)) }
    ensures { result ≡ (if fits (units_value s units) (DecimalOf p s) then Ok (units_value s units) else Err (Stop.Refused (Flaw.Bad left))) }
{
    match Dec::new(units, s) {
        Some(number) => fitting(Value::Dec(number), Ty::Decimal { p, s }, left),
        None => Err(bad(left)),
    }
}

fn read_decimal(p: u8, s: u8, bytes: &mut Unread<'_>) -> Result<Value, Stop<Flaw>>
    requires { IsTrue (in_bounds (DecimalOf p s)) }
    ensures { ReadsPart result ((constant_value_part (DecimalOf p s)).read bytes.old) bytes.new }
{
    let left = bytes.left();
    let units = read_signed128(bytes)?;
    decimal(units, p, s, left)
}

fn read_text_value(alloc: Global, ty: Ty, bytes: &mut Unread<'_>) -> Result<Value, Stop<Flaw>>
    requires { IsTrue (in_bounds ty) }
    ensures { ReadsPart result ((text_value_part ty).read bytes.old) bytes.new }
{
    let left = bytes.left();
    let text = read_text(bytes)?;
    fitting(Value::Txt(Text::of(alloc, text)?), ty, left)
}

// A value of a type.
fn read_value(alloc: Global, ty: Ty, bytes: &mut Unread<'_>) -> Result<Value, Stop<Flaw>>
    requires { IsTrue (in_bounds ty) }
    ensures { ReadsPart result ((constant_value_part ty).read bytes.old) bytes.new }
{
    match ty {
        Ty::BigInt => {
            let number = read_signed64(bytes)?;
            Ok(Value::Int(number))
        }
        Ty::Decimal { p, s } => read_decimal(p, s, bytes),
        Ty::Char { .. } | Ty::Varchar { .. } => read_text_value(alloc, ty, bytes),
    }
}

// The type of a constant.
fn read_constant_type(alloc: Global, bytes: &mut Unread<'_>) -> Result<Ty, Stop<Flaw>>
    ensures type_read { ReadsPart result (constant_type_part.read bytes.old) bytes.new }
    ensures bounds { IfOk result (λ ty. IsTrue (in_bounds ty)) }
{
    let left = bytes.left();
    match Ty::read(alloc, bytes)? {
        Ty::Char { .. } => Err(bad(left)),
        Ty::BigInt => Ok(Ty::BigInt),
        Ty::Decimal { p, s } => Ok(Ty::Decimal { p, s }),
        Ty::Varchar { n } => Ok(Ty::Varchar { n }),
    }
}

fn write_value(value: &Value, ty: Ty, out: &mut Bytes) -> Result<(), OutOfMemory>
    requires type_bounds { IsTrue (in_bounds ty && not (is_char_type ty)) }
    requires of_type { IsTrue (not (is_null value.now) && fits value.now ty) }
    ensures { OnOk result (Writes (constant_value_part ty) out.old value.now out.new) }
{
    match value {
        Value::Null => Ok(()),
        Value::Int(i) => {
            write_signed64(*i, out)?;
            Ok(())
        }
        Value::Dec(d) => {
            write_signed128(d.units(), out)?;
            Ok(())
        }
        Value::Txt(t) => {
            write_text(t.as_str(), out)?;
            Ok(())
        }
    }
}

impl Spelled for Constant {
    ghost part = { constant_line };

    ghost rules = { constant_allowed };

    #[tactic(auto, unfolding(crate::specs::CodeParts::constant_line))]
    fn read(alloc: Global, bytes: &mut Unread<'_>) -> Result<Constant, Stop<Flaw>> {
        let ty = read_constant_type(alloc, bytes)?;
        let value = read_value(alloc, ty, bytes)?;
        Ok(Constant { ty, value })
    }

    #[tactic(auto, unfolding(crate::specs::CodeParts::constant_line))]
    fn write(&self, out: &mut Bytes) -> Result<(), OutOfMemory> {
        self.ty.write(out)?;
        write_value(&self.value, self.ty, out)?;
        Ok(())
    }
}
