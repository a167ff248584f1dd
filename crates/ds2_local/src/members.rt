//! Methods that reach each other by calls, as the hints of `parts` say and as is looked up here.
ghost use Rattle.std.specs.Prelude.{◌≡◌, ℕ, suc, IfOk};
ghost use Rattle.ds2_local.specs.CallParts.{AreJoined, AreReached, CallsIfSome};

use crate::parts::{CallParts, deed_at, number_at, put, zeros};
use ds2_base::{List, OutOfMemory};
use ds2_deeds::NumberedDeed;
use std::alloc::Global;

// The method that the deed of a method at a place calls.
fn called_at(all: &[List<NumberedDeed>], method: usize, place: usize) -> Option<usize>
    ensures { CallsIfSome all.now method result }
{
    match deed_at(all, method, place) {
        None => None,
        Some(deed) => match deed {
            NumberedDeed::Call(called) => Some(called),
            NumberedDeed::Mention(_) => None,
            NumberedDeed::Change(_) => None,
            NumberedDeed::Write(_) => None,
        },
    }
}

/// One more than the number of a method that is the head of its part, and 0 for each other one.
pub fn head_mark(parts: &CallParts, method: usize) -> usize
    ensures { (head : ℕ) → result ≡ suc head → method ≡ head }
{
    let mark = number_at(parts.heads.as_slice(), method);
    if mark.saturating_sub(1) == method {
        return mark;
    }
    0
}

// The number that has so many behind it.
fn from_end(numbers: &[usize], behind: usize) -> usize {
    number_at(
        numbers,
        numbers.len().saturating_sub(behind).saturating_sub(1),
    )
}

// Marks a method that is the head of its part, and else one that is called by a marked one.
fn mark_reached(
    all: &[List<NumberedDeed>],
    parts: &CallParts,
    marks: &mut List<usize>,
    method: usize,
)
    ensures { AreReached all.now marks.old → AreReached all.now marks.new }
{
    let own = head_mark(parts, method);
    if own != 0 {
        put(marks, method, own);
        return;
    }
    let caller = number_at(parts.callers.as_slice(), method);
    let place = number_at(parts.places.as_slice(), method);
    if let Some(called) = called_at(all, caller, place) {
        let mark = number_at(marks.as_slice(), caller);
        put(marks, called, mark);
    }
}

// For each method of which it is known that it is the head of its part or that the head reaches it one more than the head's number, and 0
// for each other one.
fn reached(
    alloc: Global,
    all: &[List<NumberedDeed>],
    parts: &CallParts,
) -> Result<List<usize>, OutOfMemory>
    ensures { IfOk result (AreReached all.now) }
{
    let mut marks = zeros(alloc, all.len())?;
    'methods: for behind in 0..parts.order.len() {
        let method = from_end(parts.order.as_slice(), behind);
        mark_reached(all, parts, &mut marks, method);
    }
    Ok(marks)
}

// Marks a method that is the head of its part, and else one that calls a marked one and is reached by the same head.
fn mark_joined(
    all: &[List<NumberedDeed>],
    parts: &CallParts,
    from: &[usize],
    marks: &mut List<usize>,
    method: usize,
)
    ensures { AreReached all.now from.now → AreJoined all.now marks.old → AreJoined all.now marks.new }
{
    let own = head_mark(parts, method);
    if own != 0 {
        put(marks, method, own);
        return;
    }
    let place = number_at(parts.homeward.as_slice(), method);
    if let Some(called) = called_at(all, method, place) {
        let mark = number_at(marks.as_slice(), called);
        let reached = number_at(from, method);
        if reached == mark {
            put(marks, method, mark);
        }
    }
}

// Marks methods, the last one first.
fn mark_way(
    all: &[List<NumberedDeed>],
    parts: &CallParts,
    from: &[usize],
    marks: &mut List<usize>,
    way: &[usize],
)
    ensures { AreReached all.now from.now → AreJoined all.now marks.old → AreJoined all.now marks.new }
{
    'way: for behind in 0..way.len() {
        mark_joined(all, parts, from, marks, from_end(way, behind));
    }
}

// The methods on the way from a method to the head of its part, up to one that is marked.
fn way_home(
    alloc: Global,
    all: &[List<NumberedDeed>],
    parts: &CallParts,
    marks: &[usize],
    method: usize,
) -> Result<List<usize>, OutOfMemory> {
    let mut way = List::new(alloc);
    let mut last = method;
    'way: for _ in 0..all.len() {
        if number_at(marks, last) != 0 {
            return Ok(way);
        }
        way.push(last)?;
        if head_mark(parts, last) != 0 {
            return Ok(way);
        }
        let place = number_at(parts.homeward.as_slice(), last);
        match called_at(all, last, place) {
            None => return Ok(way),
            Some(called) => last = called,
        }
    }
    Ok(way)
}

/// For each method of which it is known that it is the head of its part or that the two reach each other one more than the head's number, and
/// 0 for each other one.
pub fn joined(
    alloc: Global,
    all: &[List<NumberedDeed>],
    parts: &CallParts,
) -> Result<List<usize>, OutOfMemory>
    ensures { IfOk result (AreJoined all.now) }
{
    let from = reached(alloc, all, parts)?;
    let known = from.as_slice();
    let mut marks = zeros(alloc, all.len())?;
    'methods: for method in parts.order.as_slice() {
        let way = way_home(alloc, all, parts, marks.as_slice(), *method)?;
        mark_way(all, parts, known, &mut marks, way.as_slice());
    }
    Ok(marks)
}
