//! The effect of a call of a method on the walks that come by.
ghost use Rattle.std.specs.Prelude.{◌≡◌, ◌+◌, IfOk, length, map, slice_get};
ghost use Rattle.ds2_value.specs.declared.fault.TheConstants.{CALL_DEPTH};
ghost use Rattle.ds2_locality.specs.Verdict.{JudgedThread, walk_body as body_walk};
ghost use Rattle.ds2_locality.specs.Walk.{CallWalks};
ghost use Rattle.ds2_meaning.specs.ProgramTree.{methods_of};
ghost use Rattle.ds2_meaning.specs.View.{typed_statements};
ghost use Rattle.ds2_recorded_walk.specs.declared.record.RecordedRead.{RecordedRead as RecordedReadModel};
ghost use Rattle.ds2_local.specs.EffectSteps.{EffectTells, BodyTells};
ghost use Rattle.ds2_local.specs.JudgedBodies.{HoldsJudged, effect_of_mentions, effect_of_walk};
ghost use Rattle.ds2_recorded_walk.specs.KnownFlags.{first_flags};
ghost use Rattle.ds2_deeds.specs.NamedMethods.{method_of_name};
ghost use Rattle.ds2_deeds.specs.NumberedDeeds.{numbers_of};
ghost use Rattle.ds2_recorded_walk.specs.RecordedWalks.{EffectsTell};

use crate::judged::JudgedBodies;
use crate::marks::numbers_mentioned;
use ds2_base::{List, OutOfMemory};
use ds2_deeds::{MethodName, NumberedDeed, method_at, method_scope};
use ds2_meaning::{ByVariable, Method, Shared};
use ds2_recorded_walk::{
    CallEffect, LocationSet, RecordScope, RecordedRead, RecordedWalk, walk_body,
};
use ds2_value::CALL_DEPTH;
use std::alloc::Global;

/// A call that reads all that deeds mention, and makes nothing clean.
pub fn mention_effect(
    alloc: Global,
    count: usize,
    deeds: &[NumberedDeed],
) -> Result<CallEffect, OutOfMemory>
    ensures { IfOk result (λ effect. effect ≡ effect_of_mentions count deeds.now) }
{
    let reads = numbers_mentioned(alloc, count, deeds)?;
    Ok(CallEffect {
        reads: Shared::new(alloc, reads)?,
        keeps: LocationSet::all(alloc, count),
    })
}

// The numbers of the locations that are read.
fn numbers_read(alloc: Global, reads: &[RecordedRead]) -> Result<List<usize>, OutOfMemory>
    ensures { IfOk result (λ numbers. numbers ≡ map (λ (r : RecordedReadModel). r.location) reads.now) }
{
    let mut numbers = List::new(alloc);
    'reads: for read in reads {
        numbers.push(read.location)?;
    }
    Ok(numbers)
}

// A call of a method whose body was walked.
fn walked_effect(alloc: Global, walk: RecordedWalk) -> Result<CallEffect, OutOfMemory>
    ensures { IfOk result (λ effect. effect ≡ effect_of_walk walk) }
{
    let reads = numbers_read(alloc, walk.reads.as_slice())?;
    Ok(CallEffect {
        reads: Shared::new(alloc, reads)?,
        keeps: walk.onward,
    })
}

/// How many calls deep the methods of a program are looked for that may be called; want of memory where that is no number.
pub fn call_rounds(deeds: &[List<NumberedDeed>]) -> Result<usize, OutOfMemory>
    ensures { IfOk result (λ rounds. rounds ≡ length deeds.now + CALL_DEPTH) }
{
    match deeds.len().checked_add(CALL_DEPTH) {
        None => Err(OutOfMemory),
        Some(rounds) => Ok(rounds),
    }
}

/// Another effect like this one.
pub fn copy_effect(alloc: Global, effect: &CallEffect) -> Result<CallEffect, OutOfMemory>
    ensures { IfOk result (λ copy. copy ≡ effect.now) }
{
    Ok(CallEffect {
        reads: effect.reads.share()?,
        keeps: effect.keeps.copy(alloc)?,
    })
}

// The effect of a method whose body is walked, where its calls have these effects.
fn body_effect(scope: &RecordScope<'_>, method: &Method) -> Result<CallEffect, OutOfMemory>
    ensures { IfOk result (λ effect. BodyTells scope.now (typed_statements method.now.body) effect) }
{
    let locations = LocationSet::all(scope.alloc, scope.numbers.locations.len());
    let mut walk = RecordedWalk::new(scope.alloc, locations);
    walk_body(scope, &mut walk, method.body.as_slice())?;
    walk.end(scope.alloc)?;
    walked_effect(scope.alloc, walk)
}

/// The effect of a method that is on no cycle, where calls within it have these effects; one that is not there does nothing.
pub fn plain_effect(
    bodies: &JudgedBodies<'_>,
    known: &[ByVariable],
    effects: &[CallEffect],
    method: MethodName<'_>,
) -> Result<CallEffect, OutOfMemory>
    ensures { (t : JudgedThread) → HoldsJudged t bodies.now → IfOk result (λ effect. (calls : CallWalks) → EffectsTell (numbers_of bodies.now.numbers) effects.now calls → EffectTells (numbers_of bodies.now.numbers) effect (body_walk t (first_flags known.now) calls (method_of_name method.entry).home (slice_get (methods_of t.program (method_of_name method.entry).home) (method_of_name method.entry).number))) }
{
    match method_at(bodies.program, method) {
        None => mention_effect(bodies.alloc, bodies.numbers.locations.len(), &[]),
        Some(found) => {
            let scope = RecordScope {
                alloc: bodies.alloc,
                numbers: bodies.numbers,
                effects,
                body: method_scope(bodies.program, method.home),
                known,
            };
            body_effect(&scope, found)
        }
    }
}
