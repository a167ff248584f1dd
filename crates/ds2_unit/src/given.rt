//! Values that are given for the parameters of a thread program.
ghost use Rattle.std.specs.Prelude.{◌≡◌};
ghost use Rattle.std.specs.Bool.{OnTrue};
ghost use Rattle.ds2_code.specs.OperandTypes.{slot_type};
ghost use Rattle.ds2_code.specs.Scales.{AreGivenScaled, is_scaled};
ghost use Rattle.ds2_unit.specs.GivenScales.{has_scale_of_slot, have_given_scales};

use ds2_base::List;
use ds2_code::Slot;
use ds2_decimal::Dec;
use ds2_value::{Ty, Value};

// Whether a decimal may stand where one of this type does, as far as its scale goes.
fn is_decimal_of(d: Dec, ty: Ty) -> bool
    ensures { result ≡ is_scaled (Value.Dec d) ty }
{
    match ty {
        Ty::BigInt => false,
        Ty::Decimal { p: _, s } => d.scale() == s,
        Ty::Char { .. } => false,
        Ty::Varchar { .. } => false,
    }
}

// Whether a value may stand where one of this type does, as far as its scale goes.
fn is_scaled(value: &Value, ty: Ty) -> bool
    ensures { result ≡ is_scaled value.now ty }
{
    match value {
        Value::Null => true,
        Value::Int(_) => true,
        Value::Dec(d) => is_decimal_of(*d, ty),
        Value::Txt(_) => true,
    }
}

// Whether a value that is given for a slot has its scale, where the slot is there.
fn fits_slot(slots: &List<Slot>, number: u32, value: &Value) -> bool
    ensures { result ≡ has_scale_of_slot (slot_type slots.now number) value.now }
{
    match slots.get(number as usize) {
        None => true,
        Some(slot) => is_scaled(value, slot.ty),
    }
}

/// Whether each value that is given for a slot, in order, has the scale of the slot.
pub fn are_given_scaled(slots: &List<Slot>, numbers: &[u32], given: &[Value]) -> bool
    ensures exact { result ≡ have_given_scales slots.now numbers.now given.now }
    ensures scaled { OnTrue result (AreGivenScaled slots.now numbers.now given.now) }
{
    let count = numbers.len().min(given.len());
    let mut n = 0;
    'given: while n < count {
        let value = &given[n];
        if !fits_slot(slots, numbers[n], value) {
            return false;
        }
        n += 1;
    }
    true
}
