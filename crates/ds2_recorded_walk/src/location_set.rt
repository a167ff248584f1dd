//! Sets that hold all locations of a program but a few.
//!
//! What a walk makes clean is little beside all locations of a program of many instances, and each method has such sets. So they keep marks
//! of what is not in them.
ghost use Rattle.std.specs.Prelude.{◌≡◌, ◌≤◌, [], true, false, length, replicate, slice_set, IfOk, OnOk};
ghost use Rattle.ds2_recorded_walk.specs.LocationBits.{is_on as is_on_at, either_on, both_on};
ghost use Rattle.ds2_recorded_walk.specs.MarkedSets.{all_but_marked, marks_without};

use crate::number_marks::{NumberMarks, next_number};
use ds2_base::{List, OutOfMemory};
use std::alloc::Global;
use std::marker::Model;

/// A set of locations, by their numbers. A contract sees a truth value for each of the locations in order; those behind the last value are not
/// in the set.
#[derive(Drop)]
pub struct LocationSet {
    // How many values there are.
    count: usize,
    // The numbers of the locations that are not in the set.
    out: NumberMarks,
}

impl Model for LocationSet {
    ghost use Rattle.std.specs.Prelude.{Bool, List as Items};

    ghost Value = { Items Bool };

    ghost use Rattle.ds2_recorded_walk.specs.MarkedSets.{all_but_marked};

    ghost view = { λ s. all_but_marked s.count s.out };
}

// The values of so many locations, of which those are not in the set whose numbers are marked.
fn values(alloc: Global, count: usize, out: &NumberMarks) -> Result<List<bool>, OutOfMemory>
    ensures { IfOk result (λ bits. bits ≡ all_but_marked count out.now) }
{
    let mut bits = List::new(alloc);
    'locations: for number in 0..count {
        bits.push(!out.contains(number))?;
    }
    Ok(bits)
}

// The marks, from a first number on, of those numbers that are not in a set.
fn marks_without(
    alloc: Global,
    from: usize,
    marks: &[bool],
    other: &LocationSet,
) -> Result<List<bool>, OutOfMemory>
    ensures { IfOk result (λ left. left ≡ marks_without from marks.now other.now) }
{
    let mut left = List::new(alloc);
    let mut number = from;
    'marks: for mark in marks {
        left.push(*mark && !other.contains(number))?;
        number = next_number(number)?;
    }
    Ok(left)
}

// So many locations but those whose numbers are marked, from a first number on.
fn all_but(count: usize, from: usize, marks: List<bool>) -> LocationSet
    ensures { result ≡ all_but_marked count (record { from = from; marks = marks }) }
{
    LocationSet {
        count,
        out: NumberMarks { from, marks },
    }
}

impl LocationSet {
    /// No location.
    pub fn new(alloc: Global) -> LocationSet
        ensures { result ≡ [] }
    {
        LocationSet {
            count: 0,
            out: NumberMarks::new(alloc),
        }
    }

    /// All of so many locations.
    pub fn all(alloc: Global, count: usize) -> LocationSet
        ensures { result ≡ replicate count true }
    {
        LocationSet {
            count,
            out: NumberMarks::new(alloc),
        }
    }

    /// The same locations.
    pub fn copy(&self, alloc: Global) -> Result<LocationSet, OutOfMemory>
        ensures { IfOk result (λ set. set ≡ self.now) }
    {
        Ok(LocationSet {
            count: self.count,
            out: self.out.copy(alloc)?,
        })
    }

    /// A value for each location in order.
    pub fn values(&self, alloc: Global) -> Result<List<bool>, OutOfMemory>
        ensures { IfOk result (λ bits. bits ≡ self.now) }
    {
        values(alloc, self.count, &self.out)
    }

    /// Whether the location of a number is in the set.
    pub fn contains(&self, number: usize) -> bool
        ensures { result ≡ is_on_at self.now number }
    {
        number < self.count && !self.out.contains(number)
    }

    /// Takes the location of a number out.
    pub fn take_out(&mut self, alloc: Global, number: usize) -> Result<(), OutOfMemory>
        ensures { OnOk result (self.new ≡ slice_set self.old number false) }
    {
        self.out.mark(alloc, number)
    }

    // The locations that are in this set or in another one, which has values for no more locations.
    fn united_with_fewer(
        &self,
        alloc: Global,
        other: &LocationSet,
    ) -> Result<LocationSet, OutOfMemory>
        ensures { length other.now ≤ length self.now → IfOk result (λ set. set ≡ either_on self.now other.now) }
    {
        if other.count == 0 {
            return self.copy(alloc);
        }
        let from = self.out.from;
        let marks = marks_without(alloc, from, self.out.marks.as_slice(), other)?;
        Ok(all_but(self.count, from, marks))
    }

    /// The locations that are in this set or in another one.
    pub fn united(&self, alloc: Global, other: &LocationSet) -> Result<LocationSet, OutOfMemory>
        ensures { IfOk result (λ set. set ≡ either_on self.now other.now) }
    {
        if self.count < other.count {
            return other.united_with_fewer(alloc, self);
        }
        self.united_with_fewer(alloc, other)
    }

    /// The locations that are both in this set and in another one.
    pub fn common(&self, alloc: Global, other: &LocationSet) -> Result<LocationSet, OutOfMemory>
        ensures { IfOk result (λ set. set ≡ both_on self.now other.now) }
    {
        let mut out = self.out.copy(alloc)?;
        out.mark_range(alloc, other.count, self.count)?;
        out.mark_all(alloc, &other.out)?;
        Ok(all_but(self.count, out.from, out.marks))
    }
}
