//! Parts of methods that call each other, the called ones first.
//!
//! Nothing is promised of them: who goes by them looks whether they serve, and finds the same in another way where they do not.
ghost use Rattle.std.specs.Prelude.{◌≡◌, IfOk, replicate, slice_get, slice_set};
ghost use Rattle.ds2_deeds.specs.NumberedCalls.{deeds_numbered};
ghost use Rattle.ds2_local.specs.CallParts.{number_at};

use ds2_base::{List, OutOfMemory};
use ds2_deeds::NumberedDeed;
use std::alloc::Global;

/// The methods of a program, by the parts of those that reach each other by calls. A call leads into its own part or into an earlier one.
#[derive(Drop)]
pub struct CallParts {
    /// The methods, part by part. The last one of each part is its head, and each other one is called by one that stands behind it.
    pub order: List<usize>,
    /// For each method the number of its part, from 1 on, and one more than the number of the part's head.
    pub parts: List<usize>,
    pub heads: List<usize>,
    /// For each method but the heads one of its part that calls it, by which the head reaches it, and the place of that deed.
    pub callers: List<usize>,
    pub places: List<usize>,
    /// For each method but the heads the place of its deed that calls one of its part, by which it reaches the head.
    pub homeward: List<usize>,
}

/// The number at a place, and 0 where there is none.
pub fn number_at(numbers: &[usize], place: usize) -> usize
    ensures { result ≡ number_at numbers.now place }
{
    match numbers.get(place) {
        None => 0,
        Some(number) => *number,
    }
}

/// Puts a number in its place, where there is such a place.
pub fn put(numbers: &mut List<usize>, place: usize, number: usize)
    ensures { numbers.new ≡ slice_set numbers.old place number }
{
    if place < numbers.len() {
        numbers.replace(place, number);
    }
}

/// So many numbers, each 0.
pub fn zeros(alloc: Global, count: usize) -> Result<List<usize>, OutOfMemory>
    ensures { IfOk result (λ numbers. numbers ≡ replicate count 0) }
{
    let mut numbers = List::new(alloc);
    'numbers: for _ in 0..count {
        numbers.push(0)?;
    }
    Ok(numbers)
}

/// The deed of a method at a place.
pub fn deed_at(all: &[List<NumberedDeed>], method: usize, place: usize) -> Option<NumberedDeed>
    ensures { result ≡ slice_get (deeds_numbered all.now method) place }
{
    match all.get(method) {
        None => None,
        Some(deeds) => deeds.get(place).copied(),
    }
}

// A search along calls: each method has the turn at which it was met, and the earliest turn of one whose part is still open that calls
// from it lead to, both from 1 on.
#[derive(Drop)]
struct Search {
    met: List<usize>,
    low: List<usize>,
    // How many deeds of each method have been followed.
    followed: List<usize>,
    // The methods whose parts are still open, in the order of their turns.
    open: List<usize>,
    // The methods whose deeds are being followed, each called by the one before.
    path: List<usize>,
    turn: usize,
    part: usize,
    found: CallParts,
}

impl Search {
    // A method is met.
    fn enter(&mut self, method: usize) -> Result<(), OutOfMemory> {
        let turn = self.turn.saturating_add(1);
        self.turn = turn;
        put(&mut self.met, method, turn);
        put(&mut self.low, method, turn);
        self.open.push(method)?;
        self.path.push(method)
    }

    // The place of the deed of a method that was followed last.
    fn place_of(&self, method: usize) -> usize {
        number_at(self.followed.as_slice(), method).saturating_sub(1)
    }

    // Calls from a method, by way of the deed that was followed last, lead to an open one of this turn.
    fn lower(&mut self, method: usize, turn: usize) {
        let low = number_at(self.low.as_slice(), method);
        if turn < low {
            put(&mut self.low, method, turn);
            let place = self.place_of(method);
            put(&mut self.found.homeward, method, place);
        }
    }

    // One method calls another one.
    fn call(&mut self, method: usize, called: usize) -> Result<(), OutOfMemory> {
        let turn = number_at(self.met.as_slice(), called);
        if turn == 0 {
            put(&mut self.found.callers, called, method);
            let place = self.place_of(method);
            put(&mut self.found.places, called, place);
            return self.enter(called);
        }
        let part = number_at(self.found.parts.as_slice(), called);
        if part == 0 {
            self.lower(method, turn);
        }
        Ok(())
    }

    // The open method that was met last is one of the part that has this head.
    fn take_last(&mut self, part: usize, head: usize) -> Result<Option<usize>, OutOfMemory> {
        match self.open.pop() {
            None => Ok(None),
            Some(last) => {
                put(&mut self.found.parts, last, part);
                put(&mut self.found.heads, last, head.saturating_add(1));
                self.found.order.push(last)?;
                Ok(Some(last))
            }
        }
    }

    // The part of a method is ended: it and those that were met later and are still open.
    fn end_part(&mut self, method: usize) -> Result<(), OutOfMemory> {
        let part = self.part.saturating_add(1);
        self.part = part;
        'open: for _ in 0..self.open.len() {
            if self.take_last(part, method)? == Some(method) {
                return Ok(());
            }
        }
        Ok(())
    }

    // All deeds of a method have been followed.
    fn leave(&mut self, method: usize) -> Result<(), OutOfMemory> {
        let low = number_at(self.low.as_slice(), method);
        let turn = number_at(self.met.as_slice(), method);
        if low == turn {
            return self.end_part(method);
        }
        let depth = self.path.len();
        let caller = number_at(self.path.as_slice(), depth.saturating_sub(1));
        self.lower(caller, low);
        Ok(())
    }

    // The next deed of a method is followed.
    fn follow(&mut self, all: &[List<NumberedDeed>], method: usize) -> Result<(), OutOfMemory> {
        let place = number_at(self.followed.as_slice(), method);
        match deed_at(all, method, place) {
            None => self.leave(method),
            Some(deed) => {
                put(&mut self.followed, method, place.saturating_add(1));
                self.path.push(method)?;
                match deed {
                    NumberedDeed::Call(called) => self.call(method, called),
                    NumberedDeed::Mention(_) => Ok(()),
                    NumberedDeed::Change(_) => Ok(()),
                    NumberedDeed::Write(_) => Ok(()),
                }
            }
        }
    }

    // Whatever calls from a method lead to is met.
    fn go_from(&mut self, all: &[List<NumberedDeed>], method: usize) -> Result<(), OutOfMemory> {
        let turn = number_at(self.met.as_slice(), method);
        if turn != 0 {
            return Ok(());
        }
        self.enter(method)?;
        'path: for _ in 0..usize::MAX {
            match self.path.pop() {
                None => return Ok(()),
                Some(last) => self.follow(all, last)?,
            }
        }
        Ok(())
    }
}

// Parts that hold no method yet.
fn no_parts(alloc: Global, count: usize) -> Result<CallParts, OutOfMemory> {
    let parts = zeros(alloc, count)?;
    let heads = zeros(alloc, count)?;
    let callers = zeros(alloc, count)?;
    let places = zeros(alloc, count)?;
    let homeward = zeros(alloc, count)?;
    Ok(CallParts {
        order: List::new(alloc),
        parts,
        heads,
        callers,
        places,
        homeward,
    })
}

// A search that has met no method.
fn begun(alloc: Global, count: usize) -> Result<Search, OutOfMemory> {
    let met = zeros(alloc, count)?;
    let low = zeros(alloc, count)?;
    let followed = zeros(alloc, count)?;
    let found = no_parts(alloc, count)?;
    Ok(Search {
        met,
        low,
        followed,
        open: List::new(alloc),
        path: List::new(alloc),
        turn: 0,
        part: 0,
        found,
    })
}

/// The parts of methods, which have these deeds.
pub fn call_parts(alloc: Global, all: &[List<NumberedDeed>]) -> Result<CallParts, OutOfMemory> {
    let mut search = begun(alloc, all.len())?;
    'methods: for method in 0..all.len() {
        search.go_from(all, method)?;
    }
    Ok(search.found)
}
