//! Functions of the language that choose one of their arguments.
ghost use Rattle.std.specs.Prelude.{◌≡◌, ◌≤◌, IfOk, IfSome, Some, fold, if◌then◌else◌};
ghost use Rattle.ds2_base.specs.Says.{Says};
ghost use Rattle.ds2_value.specs.Functions.{greatest_scale, at_scale, all_beside, alike_of, chosen_of, choice_of, coalesce_of, least_of, greatest_of};
ghost use Rattle.ds2_value.specs.declared.value.Value.TheVariants.{Null};

use crate::{Fault, Value, decimal_value, key_compare, whole_decimal};
use ds2_base::{OutOfMemory, Stop, refusing};
use ds2_decimal::MOST_DIGITS;
use std::alloc::Global;

// Which of its arguments a function chooses.
#[derive(Clone, Copy)]
enum Choice {
    First,
    Least,
    Greatest,
}

impl Choice {
    // Whether the second value is chosen; null is never chosen before another value.
    fn is_second(self, a: &Value, b: &Value) -> bool
        ensures { (if result then b.now else a.now) ≡ chosen_of self a.now b.now }
    {
        match self {
            Choice::First => a.is_null(),
            Choice::Least => a.is_null() || (!b.is_null() && key_compare(b, a).is_lt()),
            Choice::Greatest => a.is_null() || (!b.is_null() && key_compare(b, a).is_gt()),
        }
    }
}

// The greatest scale of the decimals; None where there is none.
fn greatest_scale(args: &[Value]) -> Option<u8>
    ensures value { result ≡ greatest_scale args.now }
    ensures bound { IfSome result (λ s. s ≤ 38) }
{
    let mut greatest = None;
    'values: for v in args {
        if let Value::Dec(d) = v {
            greatest = Some(match greatest {
                None => d.scale(),
                Some(scale) => d.scale().max(scale),
            });
        }
    }
    greatest
}

// A number as a decimal of 38 digits and this scale.
fn at_scale(v: &Value, scale: u8) -> Result<Value, Fault>
    requires { scale ≤ 38 }
    ensures { result ≡ at_scale scale v.now }
{
    match v {
        Value::Int(i) => decimal_value(whole_decimal(*i).rescale(MOST_DIGITS, scale)),
        Value::Dec(d) => decimal_value(d.rescale(MOST_DIGITS, scale)),
        Value::Null | Value::Txt(_) => Ok(Value::Null),
    }
}

// The choice among decimals of this scale.
fn choose_scaled(choice: Choice, args: &[Value], scale: u8) -> Result<Value, Fault>
    requires { scale ≤ 38 }
    ensures { result ≡ choice_of (chosen_of choice) (all_beside (Some scale) args.now) }
{
    let mut best = Value::Null;
    'values: for v in args {
        let next = at_scale(v, scale)?;
        if choice.is_second(&best, &next) {
            best = next;
        }
    }
    Ok(best)
}

// The choice among values as they are, which alone is copied.
fn choose_kept(alloc: Global, choice: Choice, args: &[Value]) -> Result<Value, OutOfMemory>
    ensures { IfOk result (λ v. v ≡ fold (chosen_of choice) Null args.now) }
{
    let none = Value::Null;
    let mut best = &none;
    'values: for v in args {
        if choice.is_second(best, v) {
            best = v;
        }
    }
    best.copy(alloc)
}

// The choice among values in one type: numbers as decimals of the greatest scale, where there is a decimal among them.
#[tactic(auto, using(crate::proofs::ChoiceLemmas::as_they_are))]
fn choose(alloc: Global, choice: Choice, args: &[Value]) -> Result<Value, Stop<Fault>>
    ensures { Says result (choice_of (chosen_of choice) (alike_of args.now)) }
{
    match greatest_scale(args) {
        None => Ok(choose_kept(alloc, choice, args)?),
        Some(scale) => refusing(choose_scaled(choice, args, scale)),
    }
}

/// `coalesce(a, ..)`: the first value that is not null; null where all are. Where one is a DECIMAL, each number is brought to the
/// greatest scale and 38 digits before, and Overflow comes exactly where one does not fit.
pub fn coalesce(alloc: Global, args: &[Value]) -> Result<Value, Stop<Fault>>
    ensures { Says result (coalesce_of args.now) }
{
    choose(alloc, Choice::First, args)
}

/// `min(a, ..)`: the least number without the nulls; null where all are. Numbers are brought to one type as in [`coalesce`].
pub fn least(alloc: Global, args: &[Value]) -> Result<Value, Stop<Fault>>
    ensures { Says result (least_of args.now) }
{
    choose(alloc, Choice::Least, args)
}

/// `max(a, ..)`: the greatest number without the nulls; null where all are. Numbers are brought to one type as in [`coalesce`].
pub fn greatest(alloc: Global, args: &[Value]) -> Result<Value, Stop<Fault>>
    ensures { Says result (greatest_of args.now) }
{
    choose(alloc, Choice::Greatest, args)
}
