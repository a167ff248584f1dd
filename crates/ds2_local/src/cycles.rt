//! The effects of the methods that are on a cycle of calls.
//!
//! The numbers of `parts` tell at once of most methods that they are on none. Those of one part that reach each other, as `members` tells,
//! share the effect of the part's head.
ghost use Rattle.std.specs.Prelude.{◌≡◌, ◌+◌, ℕ, true, List as Items, IfOk, Some, slice_get};
ghost use Rattle.ds2_deeds.specs.declared.deed.NumberedDeed.{NumberedDeed as NumberedDeedModel};
ghost use Rattle.ds2_local.specs.CallParts.{all_lead_below, leads_below, number_at, AreJoined, NeverRises, StayWithin, TellCycles, TellsCycle};
ghost use Rattle.ds2_local.specs.JudgedBodies.{cycle_effect, AreCycleEffects};

use crate::effects::{call_rounds, copy_effect, mention_effect};
use crate::members::{head_mark, joined};
use crate::parts::{CallParts, number_at};
use ds2_base::{List, OutOfMemory};
use ds2_deeds::{NumberedDeed, is_among, may_call, with_called};
use ds2_recorded_walk::CallEffect;
use std::alloc::Global;

// The effect of the method of a number, which has these deeds, where it is on a cycle of calls: it reads all that it and the methods that it
// may call mention.
fn cycle_effect(
    alloc: Global,
    count: usize,
    all: &[List<NumberedDeed>],
    number: usize,
    deeds: &[NumberedDeed],
) -> Result<Option<CallEffect>, OutOfMemory>
    ensures { IfOk result (λ effect. effect ≡ cycle_effect count all.now number deeds.now) }
{
    let rounds = call_rounds(all)?;
    let called = may_call(alloc, all, rounds, deeds)?;
    if !is_among(called.as_slice(), number) {
        return Ok(None);
    }
    let whole = with_called(alloc, all, rounds, deeds)?;
    Ok(Some(mention_effect(alloc, count, whole.as_slice())?))
}

// Whether a deed calls no method but one that has a part, whose number is below a bound.
fn leads_below(parts: &[usize], bound: usize, deed: NumberedDeed) -> bool
    ensures { result ≡ leads_below parts.now bound deed }
{
    match deed {
        NumberedDeed::Call(number) => number < parts.len() && number_at(parts, number) < bound,
        NumberedDeed::Mention(_) => true,
        NumberedDeed::Change(_) => true,
        NumberedDeed::Write(_) => true,
    }
}

// Whether so do all of these deeds.
fn all_lead_below(parts: &[usize], bound: usize, deeds: &[NumberedDeed]) -> bool
    ensures { result ≡ all_lead_below parts.now bound deeds.now }
{
    'deeds: for deed in deeds {
        if !leads_below(parts, bound, *deed) {
            return false;
        }
    }
    true
}

// Whether the deeds of the method of a number call none but of its own part and of those with lower numbers.
fn never_rises_from(parts: &[usize], number: usize, deeds: &[NumberedDeed]) -> bool
    ensures { result ≡ true → all_lead_below parts.now (number_at parts.now number + 1) deeds.now ≡ true }
{
    match number_at(parts, number).checked_add(1) {
        None => false,
        Some(bound) => all_lead_below(parts, bound, deeds),
    }
}

// Whether no method calls another one than these, and the number of the part rises along no call.
fn never_rises(parts: &[usize], all: &[List<NumberedDeed>]) -> bool
    ensures { result ≡ true → NeverRises parts.now all.now }
{
    if parts.len() != all.len() {
        return false;
    }
    let mut number: usize = 0;
    'methods: for deeds in all {
        if !never_rises_from(parts, number, deeds.as_slice()) {
            return false;
        }
        number += 1;
    }
    true
}

// The effect of the method of a number, which has these deeds, where it is the head of its part and on a cycle of calls.
fn head_effect(
    alloc: Global,
    count: usize,
    all: &[List<NumberedDeed>],
    parts: &CallParts,
    number: usize,
    deeds: &[NumberedDeed],
) -> Result<Option<CallEffect>, OutOfMemory>
    ensures { slice_get all.now number ≡ Some deeds.now → IfOk result (TellsCycle count all.now number) }
{
    if head_mark(parts, number) == 0 {
        return Ok(None);
    }
    let part = number_at(parts.parts.as_slice(), number);
    if all_lead_below(parts.parts.as_slice(), part, deeds) {
        return Ok(None);
    }
    cycle_effect(alloc, count, all, number, deeds)
}

// Those of all heads, in the order of the methods.
fn head_effects(
    alloc: Global,
    count: usize,
    all: &[List<NumberedDeed>],
    parts: &CallParts,
) -> Result<List<Option<CallEffect>>, OutOfMemory>
    ensures { IfOk result (TellCycles count all.now) }
{
    let mut effects = List::new(alloc);
    let mut number: usize = 0;
    'methods: for deeds in all {
        let effect = head_effect(alloc, count, all, parts, number, deeds.as_slice())?;
        effects.push(effect)?;
        number += 1;
    }
    Ok(effects)
}

// Another effect like this one, where there is one.
fn copy_found(alloc: Global, effect: &Option<CallEffect>) -> Result<Option<CallEffect>, OutOfMemory>
    ensures { IfOk result (λ copy. copy ≡ effect.now) }
{
    match effect {
        None => Ok(None),
        Some(effect) => Ok(Some(copy_effect(alloc, effect)?)),
    }
}

// What is known of methods by their parts: the effects of the heads, and the marks of the methods that reach their head and are reached by
// it. `ranked` tells whether the numbers of parts rise along no call.
#[derive(Clone, Copy)]
struct Known<'p> {
    parts: &'p [usize],
    ranked: bool,
    heads: &'p [Option<CallEffect>],
    marks: &'p [usize],
}

// The effect of the method of a number, where it has that of its part's head.
fn shared_effect(
    alloc: Global,
    known: &Known<'_>,
    number: usize,
) -> Result<Option<CallEffect>, OutOfMemory>
    ensures { (count : ℕ) (all : Items (Items NumberedDeedModel)) → StayWithin all → TellCycles count all known.now.heads.now → AreJoined all known.now.marks.now → IfOk result (TellsCycle count all number) }
{
    let mark = number_at(known.marks, number);
    if mark == 0 {
        return Ok(None);
    }
    match known.heads.get(mark - 1) {
        None => Ok(None),
        Some(effect) => copy_found(alloc, effect),
    }
}

// The effect of the method of a number, which has these deeds, where it is on a cycle of calls. Where the numbers of parts rise along no
// call, one that calls into lower ones alone is on none.
fn effect_by_parts(
    alloc: Global,
    count: usize,
    all: &[List<NumberedDeed>],
    known: &Known<'_>,
    number: usize,
    deeds: &[NumberedDeed],
) -> Result<Option<CallEffect>, OutOfMemory>
    ensures { (known.now.ranked ≡ true → NeverRises known.now.parts.now all.now) → TellCycles count all.now known.now.heads.now → AreJoined all.now known.now.marks.now → slice_get all.now number ≡ Some deeds.now → IfOk result (λ effect. effect ≡ cycle_effect count all.now number deeds.now) }
{
    if known.ranked {
        if all_lead_below(known.parts, number_at(known.parts, number), deeds) {
            return Ok(None);
        }
        let shared = shared_effect(alloc, known, number)?;
        if shared.is_some() {
            return Ok(shared);
        }
    }
    cycle_effect(alloc, count, all, number, deeds)
}

/// The effects of the methods that are on a cycle of calls, in the order of the methods, which have these deeds; none for the others.
pub fn cycle_effects(
    alloc: Global,
    count: usize,
    all: &[List<NumberedDeed>],
    parts: &CallParts,
) -> Result<List<Option<CallEffect>>, OutOfMemory>
    ensures { IfOk result (AreCycleEffects count all.now) }
{
    let heads = head_effects(alloc, count, all, parts)?;
    let marks = joined(alloc, all, parts)?;
    let known = Known {
        parts: parts.parts.as_slice(),
        ranked: never_rises(parts.parts.as_slice(), all),
        heads: heads.as_slice(),
        marks: marks.as_slice(),
    };
    let mut effects = List::new(alloc);
    let mut number: usize = 0;
    'methods: for deeds in all {
        let effect = effect_by_parts(alloc, count, all, &known, number, deeds.as_slice())?;
        effects.push(effect)?;
        number += 1;
    }
    Ok(effects)
}
