//! Choices among values of one type.
ghost use Rattle.std.specs.Prelude.{◌≡◌, IfOk, fold, if◌then◌else◌};
ghost use Rattle.ds2_value.specs.Functions.{first_of, lesser_of, greater_of};
ghost use Rattle.ds2_value.specs.declared.value.Value.TheVariants.{Null};

use ds2_base::OutOfMemory;
use ds2_value::{Value, key_compare};
use std::alloc::Global;

/// The first value that is not null; null where all are.
pub(crate) fn first(alloc: Global, operands: &[Value]) -> Result<Value, OutOfMemory>
    ensures { IfOk result (λ v. v ≡ fold first_of Null operands.now) }
{
    let none = Value::Null;
    let mut best = &none;
    'values: for v in operands {
        if best.is_null() {
            best = v;
        }
    }
    best.copy(alloc)
}

// Whether the second value is the lesser one; null never is before another value.
fn is_lesser(a: &Value, b: &Value) -> bool
    ensures { (if result then b.now else a.now) ≡ lesser_of a.now b.now }
{
    a.is_null() || (!b.is_null() && key_compare(b, a).is_lt())
}

/// The least value without the nulls; null where all are.
pub(crate) fn least(alloc: Global, operands: &[Value]) -> Result<Value, OutOfMemory>
    ensures { IfOk result (λ v. v ≡ fold lesser_of Null operands.now) }
{
    let none = Value::Null;
    let mut best = &none;
    'values: for v in operands {
        if is_lesser(best, v) {
            best = v;
        }
    }
    best.copy(alloc)
}

// Whether the second value is the greater one; null never is before another value.
fn is_greater(a: &Value, b: &Value) -> bool
    ensures { (if result then b.now else a.now) ≡ greater_of a.now b.now }
{
    a.is_null() || (!b.is_null() && key_compare(b, a).is_gt())
}

/// The greatest value without the nulls; null where all are.
pub(crate) fn greatest(alloc: Global, operands: &[Value]) -> Result<Value, OutOfMemory>
    ensures { IfOk result (λ v. v ≡ fold greater_of Null operands.now) }
{
    let none = Value::Null;
    let mut best = &none;
    'values: for v in operands {
        if is_greater(best, v) {
            best = v;
        }
    }
    best.copy(alloc)
}
