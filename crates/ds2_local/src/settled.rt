//! The effects of all methods, bottom-up: each body is walked once, when the effects of all methods that it calls are found, in an order
//! that is held of them, or else in rounds over all methods.
ghost use Rattle.std.specs.List.{list_all, list_any};
ghost use Rattle.std.specs.Option.{is_some};
ghost use Rattle.std.specs.Prelude.{◌≡◌, ◌||◌, ℕ, suc, Some, IfOk, OnOk, length, map, slice_get};
ghost use Rattle.ds2_deeds.specs.NamedMethods.{method_of_name, methods_named, number_among_methods};
ghost use Rattle.ds2_deeds.specs.NumberedCalls.{deeds_numbered};
ghost use Rattle.ds2_local.specs.EffectSteps.{EffectsAtDepth};
ghost use Rattle.ds2_local.specs.JudgedBodies.{HoldsJudged};
ghost use Rattle.ds2_local.specs.SettledEffects.{is_left, waits_for, with_found, with_one_settled, CoversCycles, FoundTells, HaveCycleEffects, IsFoundBy, IsRound, IsSettledTo, Settles};
ghost use Rattle.ds2_locality.specs.Verdict.{JudgedThread};
ghost use Rattle.ds2_recorded_walk.specs.declared.record.CallEffect.{CallEffect as CallEffectModel};
ghost use Rattle.ds2_recorded_walk.specs.LocationBits.{is_on};

use crate::effects::{copy_effect, plain_effect};
use crate::judged::JudgedBodies;
use crate::parts::number_at;
use ds2_base::{List, OutOfMemory};
use ds2_deeds::{MethodName, NumberedDeed};
use ds2_meaning::{ByVariable, Shared};
use ds2_recorded_walk::{CallEffect, LocationSet, is_on};
use std::alloc::Global;

// What stands for a method at first: its effect where it is on a cycle.
fn first_effect(alloc: Global, cycle: &Option<CallEffect>) -> Result<CallEffect, OutOfMemory>
    ensures { (effect : CallEffectModel) → cycle.now ≡ Some effect → IfOk result (λ first. first ≡ effect) }
{
    match cycle {
        None => Ok(CallEffect {
            reads: Shared::new(alloc, List::new(alloc))?,
            keeps: LocationSet::new(alloc),
        }),
        Some(effect) => {
            let copy = copy_effect(alloc, effect)?;
            Ok(copy)
        }
    }
}

// The effects of methods on cycles; what stands for the others says nothing.
fn first_effects(
    alloc: Global,
    cycles: &[Option<CallEffect>],
) -> Result<List<CallEffect>, OutOfMemory>
    ensures { IfOk result (HaveCycleEffects cycles.now) }
{
    let mut effects = List::new(alloc);
    'methods: for cycle in cycles {
        effects.push(first_effect(alloc, cycle)?)?;
    }
    Ok(effects)
}

// Which methods are on a cycle.
fn first_settled(alloc: Global, cycles: &[Option<CallEffect>]) -> Result<List<bool>, OutOfMemory>
    ensures { IfOk result (λ settled. settled ≡ map is_some cycles.now) }
{
    let mut settled = List::new(alloc);
    'methods: for cycle in cycles {
        settled.push(cycle.is_some())?;
    }
    Ok(settled)
}

// Whether the effect of the method of a number is still to be found.
fn is_left(settled: &[bool], number: usize) -> bool
    ensures { result ≡ is_left settled.now number }
{
    match settled.get(number) {
        None => false,
        Some(is_settled) => !*is_settled,
    }
}

// Whether a deed calls a method whose effect is still to be found.
fn waits_for(settled: &[bool], deed: NumberedDeed) -> bool
    ensures { result ≡ waits_for settled.now deed }
{
    match deed {
        NumberedDeed::Call(number) => is_left(settled, number),
        NumberedDeed::Mention(_) => false,
        NumberedDeed::Change(_) => false,
        NumberedDeed::Write(_) => false,
    }
}

// Whether one of deeds calls a method whose effect is still to be found.
fn waits(settled: &[bool], deeds: &[NumberedDeed]) -> bool
    ensures { result ≡ list_any (waits_for settled.now) deeds.now }
{
    'deeds: for deed in deeds {
        if waits_for(settled, *deed) {
            return true;
        }
    }
    false
}

// The deeds of the method of a number; one that is not there has none.
fn deeds_of<'p>(bodies: &JudgedBodies<'p>, number: usize) -> &'p [NumberedDeed]
    ensures { result.now ≡ deeds_numbered bodies.now.deeds.now number }
{
    match bodies.deeds.get(number) {
        None => &[],
        Some(deeds) => deeds.as_slice(),
    }
}

// The effect of the method of a number, where it is still to be found and can be.
fn found_effect(
    bodies: &JudgedBodies<'_>,
    known: &[ByVariable],
    effects: &[CallEffect],
    settled: &[bool],
    number: usize,
    method: MethodName<'_>,
) -> Result<Option<CallEffect>, OutOfMemory>
    ensures found { IfOk result (IsFoundBy settled.now number (deeds_numbered bodies.now.deeds.now number)) }
    ensures tells { (t : JudgedThread) (depth : ℕ) → HoldsJudged t bodies.now → CoversCycles bodies.now.cycles.now settled.now → length effects.now ≡ length settled.now → number_among_methods (methods_named bodies.now.numbers.methods.now) (method_of_name method.entry) ≡ Some number → Settles t bodies.now known.now settled.now effects.now depth → IfOk result (FoundTells t bodies.now known.now depth (method_of_name method.entry)) }
{
    if is_on(settled, number) {
        return Ok(None);
    }
    if waits(settled, deeds_of(bodies, number)) {
        return Ok(None);
    }
    Ok(Some(plain_effect(bodies, known, effects, method)?))
}

// Whether the effect of the method of a number is found: it was before, or is now.
fn is_found(settled: &[bool], number: usize, found: &Option<CallEffect>) -> bool
    ensures { result ≡ (is_on settled.now number || is_some found.now) }
{
    is_on(settled, number) || found.is_some()
}

// Puts the effect that was found for the method of a number in its place, where one was.
fn put_found(effects: &mut List<CallEffect>, number: usize, found: Option<CallEffect>)
    ensures { effects.new ≡ with_found effects.old number found }
{
    if let Some(effect) = found {
        if number < effects.len() {
            effects.replace(number, effect);
        }
    }
}

// Finds the effects of the methods that wait for no other one, and tells which are found then.
fn settle_round(
    bodies: &JudgedBodies<'_>,
    known: &[ByVariable],
    effects: &mut List<CallEffect>,
    settled: &[bool],
) -> Result<List<bool>, OutOfMemory>
    ensures count { IfOk result (λ next. length effects.new ≡ length effects.old) }
    ensures round { length settled.now ≡ length bodies.now.deeds.now → length bodies.now.numbers.methods.now ≡ length bodies.now.deeds.now → IfOk result (IsRound bodies.now.deeds.now settled.now) }
    ensures told { (t : JudgedThread) (depth : ℕ) → HoldsJudged t bodies.now → CoversCycles bodies.now.cycles.now settled.now → length effects.old ≡ length settled.now → Settles t bodies.now known.now settled.now effects.old depth → IfOk result (λ next. Settles t bodies.now known.now next effects.new (suc depth)) }
{
    let mut next = List::new(bodies.alloc);
    let mut number: usize = 0;
    'methods: for method in bodies.numbers.methods {
        let found = found_effect(bodies, known, effects.as_slice(), settled, number, *method)?;
        next.push(is_found(settled, number, &found))?;
        put_found(effects, number, found);
        number += 1;
    }
    Ok(next)
}

// Whether all values are true.
fn are_all_on(bits: &[bool]) -> bool
    ensures { result ≡ list_all (λ bit. bit) bits.now }
{
    'bits: for bit in bits {
        if !*bit {
            return false;
        }
    }
    true
}

// Notes that the effect of the method of a number is found, where it was.
fn mark_found(settled: &mut List<bool>, number: usize, found: &Option<CallEffect>)
    ensures { settled.new ≡ with_one_settled settled.old number found.now }
{
    if found.is_some() {
        if number < settled.len() {
            settled.replace(number, true);
        }
    }
}

// Finds the effect of the method of a number, where it waits for no other one.
fn settle_one(
    bodies: &JudgedBodies<'_>,
    known: &[ByVariable],
    effects: &mut List<CallEffect>,
    settled: &mut List<bool>,
    number: usize,
) -> Result<(), OutOfMemory>
    ensures { (t : JudgedThread) (depth : ℕ) → HoldsJudged t bodies.now → IsSettledTo t bodies.now known.now settled.old effects.old depth → OnOk result (IsSettledTo t bodies.now known.now settled.new effects.new (suc depth)) }
{
    match bodies.numbers.methods.get(number) {
        None => Ok(()),
        Some(method) => {
            let found = found_effect(
                bodies,
                known,
                effects.as_slice(),
                settled.as_slice(),
                number,
                *method,
            )?;
            mark_found(settled, number, &found);
            put_found(effects, number, found);
            Ok(())
        }
    }
}

// Finds the effects of methods in the order that is held of them.
fn settle_in_order(
    bodies: &JudgedBodies<'_>,
    known: &[ByVariable],
    effects: &mut List<CallEffect>,
    settled: &mut List<bool>,
) -> Result<(), OutOfMemory>
    ensures { (t : JudgedThread) → HoldsJudged t bodies.now → IsSettledTo t bodies.now known.now settled.old effects.old 0 → OnOk result (IsSettledTo t bodies.now known.now settled.new effects.new (length bodies.now.deeds.now)) }
{
    'turns: for turn in 0..bodies.deeds.len() {
        settle_one(
            bodies,
            known,
            effects,
            settled,
            number_at(bodies.order, turn),
        )?;
    }
    Ok(())
}

// The effects of calls of methods, round by round, where they are not found in order.
fn effects_by_rounds(
    bodies: &JudgedBodies<'_>,
    known: &[ByVariable],
) -> Result<List<CallEffect>, OutOfMemory>
    ensures { (t : JudgedThread) → HoldsJudged t bodies.now → IfOk result (λ effects. EffectsAtDepth t bodies.now known.now effects (length bodies.now.deeds.now)) }
{
    let mut effects = first_effects(bodies.alloc, bodies.cycles)?;
    let mut settled = first_settled(bodies.alloc, bodies.cycles)?;
    'rounds: for _ in 0..bodies.deeds.len() {
        if are_all_on(settled.as_slice()) {
            return Ok(effects);
        }
        settled = settle_round(bodies, known, &mut effects, settled.as_slice())?;
    }
    Ok(effects)
}

/// The effects of calls of the methods of a program, where `first` flags of these BY variables are known to be 1.
pub fn call_effects(
    bodies: &JudgedBodies<'_>,
    known: &[ByVariable],
) -> Result<List<CallEffect>, OutOfMemory>
    ensures { (t : JudgedThread) → HoldsJudged t bodies.now → IfOk result (λ effects. EffectsAtDepth t bodies.now known.now effects (length bodies.now.deeds.now)) }
{
    let mut effects = first_effects(bodies.alloc, bodies.cycles)?;
    let mut settled = first_settled(bodies.alloc, bodies.cycles)?;
    settle_in_order(bodies, known, &mut effects, &mut settled)?;
    if are_all_on(settled.as_slice()) {
        return Ok(effects);
    }
    effects_by_rounds(bodies, known)
}
