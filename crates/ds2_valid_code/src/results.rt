//! What instructions leave for the operands that they take.
ghost use Rattle.std.specs.Prelude.{◌≡◌, ◌+◌, List as Items, min, nat_le, replicate, [], ◌∷◌, ◌++◌, Some, None, IfOk, OnOk, map, reverse, if◌then◌else◌, slice_get};
ghost use Rattle.ds2_code.specs.declared.parts.ParameterPart.{ParameterPart as ParameterPartModel};
ghost use Rattle.ds2_value.specs.ValueFunctions.{always, as_operand, decimal_of_scale, by_scales, text_length, type_by, function_row};
ghost use Rattle.ds2_value.specs.declared.value_function.OperandClass.TheVariants.{OneType, AnyDecimal, AnyText};
ghost use Rattle.ds2_code.specs.OperandTypes.{take_classes, with_type, one_for, none_for, when_none, none_below, both_texts, is_number_type, chosen_types, chosen_numbers, when_in_bounds, stored_type, with_in_out_types, with_result_type, call_types, with_only_result};
ghost use Rattle.ds2_valid_code.specs.OperandStack.{below_classes, scale_by};

use crate::stack::{TypeStack, take, take_many, take_one};
use ds2_base::OutOfMemory;
use ds2_code::{MethodPart, ParameterPart};
use ds2_value::{OperandClass, TEXT_CHARACTERS, Ty, ValueFunction};

/// The scale that an operation on two decimals leaves.
#[derive(Clone, Copy, PartialEq, Eq)]
pub(crate) enum ScaleRule {
    Greater,
    Sum,
    Quotient,
}

// One operand of a type for those of these classes.
#[tactic(auto, using(crate::proofs::StackLemmas::one_for_always))]
pub(crate) fn operation(
    types: &mut TypeStack,
    classes: &[OperandClass],
    result_type: Ty,
) -> Result<bool, OutOfMemory>
    ensures { IfOk result (λ ok. one_for (always result_type) (take_classes classes.now [] types.old) ≡ (if ok then Some types.new else None)) }
{
    if !take(types, classes) {
        return Ok(false);
    }
    types.push(result_type)?;
    Ok(true)
}

// One operand for those that a function takes.
#[tactic(auto, using(crate::proofs::StackLemmas::one_for_taken))]
pub(crate) fn applied(types: &mut TypeStack, function: ValueFunction) -> Result<bool, OutOfMemory>
    ensures { IfOk result (λ ok. one_for (type_by (function_row function).result) (take_classes (function_row function).operands [] types.old) ≡ (if ok then Some types.new else None)) }
{
    let classes = function.operands();
    let result_type = function.result_type().of(types.last(classes.len()));
    if !take(types, classes) {
        return Ok(false);
    }
    load(types, result_type)
}

// One operand of a type in bounds for one of a class.
pub(crate) fn conversion(
    types: &mut TypeStack,
    class: OperandClass,
    result_type: Ty,
) -> Result<bool, OutOfMemory>
    ensures { IfOk result (λ ok. when_in_bounds result_type (one_for (always result_type) (take_classes (class ∷ []) [] types.old)) ≡ (if ok then Some types.new else None)) }
{
    if !result_type.is_in_bounds() {
        return Ok(false);
    }
    operation(types, &[class], result_type)
}

pub(crate) fn null(types: &mut TypeStack, ty: Ty) -> Result<bool, OutOfMemory>
    ensures { IfOk result (λ ok. when_in_bounds ty (Some (ty ∷ types.old)) ≡ (if ok then Some types.new else None)) }
{
    if !ty.is_in_bounds() {
        return Ok(false);
    }
    types.push(ty)?;
    Ok(true)
}

// An operand of a type that is there.
pub(crate) fn load(types: &mut TypeStack, ty: Option<Ty>) -> Result<bool, OutOfMemory>
    ensures { IfOk result (λ ok. with_type ty types.old ≡ (if ok then Some types.new else None)) }
{
    match ty {
        None => Ok(false),
        Some(t) => {
            types.push(t)?;
            Ok(true)
        }
    }
}

pub(crate) fn store(types: &mut TypeStack, ty: Option<Ty>) -> bool
    ensures { stored_type ty types.old ≡ (if result then Some types.new else None) }
{
    match ty {
        None => false,
        Some(t) => drop_one(types, OperandClass::OneType(t)),
    }
}

#[tactic(auto, using(crate::proofs::StackLemmas::none_for_below))]
pub(crate) fn drop_one(types: &mut TypeStack, class: OperandClass) -> bool
    ensures { none_for (take_classes (class ∷ []) [] types.old) ≡ (if result then Some types.new else None) }
{
    take_one(types, class)
}

fn scale_of(rule: ScaleRule, s: u8, t: u8) -> u16
    ensures { result ≡ scale_by rule s t }
{
    match rule {
        ScaleRule::Greater => s.max(t) as u16,
        ScaleRule::Sum => s as u16 + t as u16,
        ScaleRule::Quotient => 6u8.max(s.max(t)) as u16,
    }
}

fn decimal_of_scale(s: u16) -> Option<Ty>
    ensures { result ≡ decimal_of_scale s }
{
    if s <= 38 {
        Some(Ty::Decimal { p: 38, s: s as u8 })
    } else {
        None
    }
}

fn decimal_result(rule: ScaleRule, first: Ty, second: Ty) -> Option<Ty>
    ensures { result ≡ by_scales (scale_by rule) (first ∷ second ∷ []) }
{
    match (first, second) {
        (Ty::Decimal { s, .. }, Ty::Decimal { s: t, .. }) => decimal_of_scale(scale_of(rule, s, t)),
        _ => None,
    }
}

// A decimal for two decimals.
#[tactic(auto, using(crate::proofs::StackLemmas::two_decimals, crate::proofs::StackLemmas::one_decimal, crate::proofs::StackLemmas::no_decimal))]
pub(crate) fn decimals(types: &mut TypeStack, rule: ScaleRule) -> Result<bool, OutOfMemory>
    ensures { IfOk result (λ ok. one_for (by_scales (scale_by rule)) (take_classes (AnyDecimal ∷ AnyDecimal ∷ []) [] types.old) ≡ (if ok then Some types.new else None)) }
{
    let Some(second) = types.pop() else {
        return Ok(false);
    };
    let Some(first) = types.pop() else {
        return Ok(false);
    };
    load(types, decimal_result(rule, first, second))
}

// A decimal of the same type for a decimal.
pub(crate) fn same_decimal(types: &mut TypeStack) -> Result<bool, OutOfMemory>
    ensures { IfOk result (λ ok. one_for as_operand (take_classes (AnyDecimal ∷ []) [] types.old) ≡ (if ok then Some types.new else None)) }
{
    match types.pop() {
        Some(Ty::Decimal { p, s }) => {
            types.push(Ty::Decimal { p, s })?;
            Ok(true)
        }
        Some(Ty::BigInt) => Ok(false),
        Some(Ty::Char { .. }) => Ok(false),
        Some(Ty::Varchar { .. }) => Ok(false),
        None => Ok(false),
    }
}

fn length_of_both(first: Ty, second: Ty) -> u16
    ensures { result ≡ min TEXT_CHARACTERS (text_length first + text_length second) }
{
    let length = first.text_length() as u32 + second.text_length() as u32;
    length.min(TEXT_CHARACTERS as u32) as u16
}

// A text for two texts.
#[tactic(auto, using(crate::proofs::StackLemmas::two_texts, crate::proofs::StackLemmas::one_text, crate::proofs::StackLemmas::no_text))]
pub(crate) fn both_texts(types: &mut TypeStack) -> Result<bool, OutOfMemory>
    ensures { IfOk result (λ ok. one_for both_texts (take_classes (AnyText ∷ AnyText ∷ []) [] types.old) ≡ (if ok then Some types.new else None)) }
{
    let Some(second) = types.pop() else {
        return Ok(false);
    };
    let Some(first) = types.pop() else {
        return Ok(false);
    };
    if !(OperandClass::AnyText.takes(second) && OperandClass::AnyText.takes(first)) {
        return Ok(false);
    }
    types.push(Ty::Varchar {
        n: length_of_both(first, second),
    })?;
    Ok(true)
}

// One operand for n of its type; at least so many, and at most 16.
#[tactic(auto, using(crate::proofs::StackLemmas::one_for_always))]
pub(crate) fn choice(types: &mut TypeStack, least: u32, n: u32) -> Result<bool, OutOfMemory>
    ensures { IfOk result (λ ok. chosen_types least n types.old ≡ (if ok then Some types.new else None)) }
{
    let Some(ty) = types.pop() else {
        return Ok(false);
    };
    if !(least <= n && n <= 16) {
        return Ok(false);
    }
    types.push(ty)?;
    if !take_many(types, OperandClass::OneType(ty), n) {
        return Ok(false);
    }
    types.push(ty)?;
    Ok(true)
}

fn is_number(ty: Ty) -> bool
    ensures { result ≡ is_number_type ty }
{
    match ty {
        Ty::BigInt | Ty::Decimal { .. } => true,
        Ty::Char { .. } | Ty::Varchar { .. } => false,
    }
}

pub(crate) fn choice_of_numbers(types: &mut TypeStack, n: u32) -> Result<bool, OutOfMemory>
    ensures { IfOk result (λ ok. chosen_numbers n types.old ≡ (if ok then Some types.new else None)) }
{
    let Some(ty) = types.pop() else {
        return Ok(false);
    };
    if !is_number(ty) {
        return Ok(false);
    }
    types.push(ty)?;
    choice(types, 2, n)
}

// n texts.
#[tactic(auto, using(crate::proofs::StackLemmas::none_for_below))]
pub(crate) fn line(types: &mut TypeStack, n: u32) -> bool
    ensures { (if nat_le n 1000000 then none_for (take_classes (replicate n AnyText) [] types.old) else None) ≡ (if result then Some types.new else None) }
{
    n <= 1_000_000 && take_many(types, OperandClass::AnyText, n)
}

pub(crate) fn nothing(types: &TypeStack) -> bool
    ensures { when_none types.now ≡ (if result then Some types.now else None) }
{
    types.is_empty()
}

// One operand of a type, and none below it.
#[tactic(auto, using(crate::proofs::StackLemmas::none_below_only))]
pub(crate) fn only(types: &mut TypeStack, ty: Ty) -> bool
    ensures { none_below (take_classes (OneType ty ∷ []) [] types.old) ≡ (if result then Some types.new else None) }
{
    take_one(types, OperandClass::OneType(ty)) && nothing(types)
}

// Takes the last argument off, where it has its parameter's type.
fn take_last(types: &mut TypeStack, last: &ParameterPart) -> bool
    ensures { (before : Items ParameterPartModel) → below_classes (map (λ (p : ParameterPartModel). OneType p.ty) (reverse (before ++ last.now ∷ []))) types.old ≡ (if result then below_classes (map (λ (p : ParameterPartModel). OneType p.ty) (reverse before)) types.new else None) }
{
    take_one(types, OperandClass::OneType(last.ty))
}

// The arguments of a call, the last one on top.
fn take_arguments(types: &mut TypeStack, parameters: &[ParameterPart]) -> bool
    ensures { below_classes (map (λ (p : ParameterPartModel). OneType p.ty) (reverse parameters.now)) types.old ≡ (if result then Some types.new else None) }
{
    let mut rest = parameters;
    'arguments: while let Some((last, before)) = rest.split_last() {
        if !take_last(types, last) {
            return false;
        }
        rest = before;
    }
    true
}

fn push_result(types: &mut TypeStack, returns: Option<Ty>) -> Result<(), OutOfMemory>
    ensures { OnOk result (types.new ≡ with_result_type returns types.old) }
{
    match returns {
        None => Ok(()),
        Some(ty) => types.push(ty),
    }
}

fn push_in_out(types: &mut TypeStack, parameter: &ParameterPart) -> Result<(), OutOfMemory>
    ensures { OnOk result (types.new ≡ (if parameter.now.is_in_out then parameter.now.ty ∷ types.old else types.old)) }
{
    if !parameter.is_in_out {
        return Ok(());
    }
    types.push(parameter.ty)
}

fn push_in_outs(types: &mut TypeStack, parameters: &[ParameterPart]) -> Result<(), OutOfMemory>
    ensures { OnOk result (types.new ≡ with_in_out_types parameters.now types.old) }
{
    let mut rest = parameters;
    'parameters: while let [parameter, after @ ..] = rest {
        push_in_out(types, parameter)?;
        rest = after;
    }
    Ok(())
}

#[tactic(auto, using(crate::proofs::StackLemmas::call_below))]
fn call_method(types: &mut TypeStack, method: &MethodPart) -> Result<bool, OutOfMemory>
    ensures { IfOk result (λ ok. call_types (Some method.now) types.old ≡ (if ok then Some types.new else None)) }
{
    if !take_arguments(types, method.parameters.as_slice()) {
        return Ok(false);
    }
    push_result(types, method.returns)?;
    push_in_outs(types, method.parameters.as_slice())?;
    Ok(true)
}

pub(crate) fn call(
    types: &mut TypeStack,
    methods: &[MethodPart],
    m: u32,
) -> Result<bool, OutOfMemory>
    ensures { IfOk result (λ ok. call_types (slice_get methods.now m) types.old ≡ (if ok then Some types.new else None)) }
{
    match methods.get(m as usize) {
        None => Ok(false),
        Some(method) => call_method(types, method),
    }
}
