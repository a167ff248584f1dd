//! What a walk records: which locations it reads that nothing before made clean, and which of them nothing made clean on its ways out.
//!
//! A walk is recorded once, from all locations on, and tells how the walk goes from whichever of them are dirty.
ghost use Rattle.std.specs.Prelude.{◌≡◌, [], ◌∷◌, ◌++◌, false, slice_set, OnOk};
ghost use Rattle.ds2_recorded_walk.specs.LocationBits.{either_on};
ghost use Rattle.ds2_recorded_walk.specs.MarkedReads.{is_read_in};
ghost use Rattle.ds2_recorded_walk.specs.RecordedWalks.{nothing_recorded, with_read, with_reads, with_effect};

use crate::location_set::LocationSet;
use crate::number_marks::NumberMarks;
use ds2_base::{List, OutOfMemory, Place};
use ds2_meaning::Shared;
use std::alloc::Global;
use std::marker::Model;
use std::mem;

/// A read of a location, by its number, in the statement at a place.
#[derive(Clone, Copy)]
pub struct RecordedRead {
    pub location: usize,
    pub place: Place,
}

/// Reads in order, with marks of the locations that are read. A contract sees the reads.
#[derive(Drop)]
pub struct RecordedReads {
    reads: List<RecordedRead>,
    marks: NumberMarks,
}

impl Model for RecordedReads {
    ghost use Rattle.std.specs.Prelude.{List as Items};
    ghost use Rattle.ds2_recorded_walk.specs.declared.record.RecordedRead.{RecordedRead as RecordedReadModel};

    ghost Value = { Items RecordedReadModel };

    ghost use Rattle.ds2_recorded_walk.specs.MarkedReads.{AreMarkedReads};

    ghost view = { λ r. r.reads };

    ghost invariant = { λ r. AreMarkedReads r.reads r.marks };
}

impl RecordedReads {
    /// No read yet.
    pub fn new(alloc: Global) -> RecordedReads
        ensures { result ≡ [] }
    {
        RecordedReads {
            reads: List::new(alloc),
            marks: NumberMarks::new(alloc),
        }
    }

    /// The reads in order.
    pub fn as_slice(&self) -> &[RecordedRead]
        ensures { result.now ≡ self.now }
    {
        self.reads.as_slice()
    }

    // Whether a read of the location of a number is among them.
    fn contains(&self, number: usize) -> bool
        ensures { result ≡ is_read_in number self.now }
    {
        self.marks.contains(number)
    }

    // Adds a read.
    fn add(&mut self, alloc: Global, read: RecordedRead) -> Result<(), OutOfMemory>
        ensures { OnOk result (self.new ≡ self.old ++ read ∷ []) }
    {
        let count = self.reads.len();
        self.reads.push(read)?;
        match self.marks.mark(alloc, read.location) {
            Ok(()) => Ok(()),
            Err(refusal) => {
                self.reads.truncate(count);
                Err(refusal)
            }
        }
    }
}

/// What a walk has recorded so far.
#[derive(Drop)]
pub struct RecordedWalk {
    /// The first read of each location that is read where nothing before made it clean, in order.
    pub reads: RecordedReads,
    /// The locations that nothing made clean on the way on, and so on each other way out.
    pub onward: LocationSet,
    pub leaves: LocationSet,
    pub continues: LocationSet,
    pub returns: LocationSet,
}

/// The locations that nothing made clean on the ways out of the body of a loop, by `leave` and to its next round.
#[derive(Drop)]
pub struct LoopWays {
    pub leaves: LocationSet,
    pub continues: LocationSet,
}

impl LoopWays {
    /// No way has come out of the body.
    pub fn new(alloc: Global) -> LoopWays
        ensures { result ≡ record { leaves = []; continues = [] } }
    {
        LoopWays {
            leaves: LocationSet::new(alloc),
            continues: LocationSet::new(alloc),
        }
    }
}

/// What a call of a method does to the walk that comes by.
#[derive(Drop)]
pub struct CallEffect {
    /// The locations that it reads where it did not make them clean before, in order. The methods of a cycle of calls share them.
    pub reads: Shared<List<usize>>,
    /// The locations that it does not make clean.
    pub keeps: LocationSet,
}

impl RecordedWalk {
    /// A walk that begins with these locations, and has recorded nothing.
    pub fn new(alloc: Global, locations: LocationSet) -> RecordedWalk
        ensures { result ≡ nothing_recorded locations }
    {
        RecordedWalk {
            reads: RecordedReads::new(alloc),
            onward: locations,
            leaves: LocationSet::new(alloc),
            continues: LocationSet::new(alloc),
            returns: LocationSet::new(alloc),
        }
    }

    /// The location of a number is read in the statement at a place.
    pub fn read(&mut self, alloc: Global, number: usize, place: Place) -> Result<(), OutOfMemory>
        ensures { OnOk result (self.new ≡ with_read place number self.old) }
    {
        if !self.onward.contains(number) {
            return Ok(());
        }
        if self.reads.contains(number) {
            return Ok(());
        }
        let read = RecordedRead {
            location: number,
            place,
        };
        self.reads.add(alloc, read)
    }

    /// The location of a number is made clean.
    pub fn clean(&mut self, alloc: Global, number: usize) -> Result<(), OutOfMemory>
        ensures { OnOk result (self.new ≡ record self.old { onward = slice_set self.old.onward number false }) }
    {
        self.onward.take_out(alloc, number)
    }

    // The locations of these numbers are read, in order, in the statement at a place.
    fn read_all(
        &mut self,
        alloc: Global,
        numbers: &[usize],
        place: Place,
    ) -> Result<(), OutOfMemory>
        ensures { OnOk result (self.new ≡ with_reads place numbers.now self.old) }
    {
        'numbers: for number in numbers {
            self.read(alloc, *number, place)?;
        }
        Ok(())
    }

    /// A method of this effect is called in the statement at a place.
    pub fn call(
        &mut self,
        alloc: Global,
        effect: &CallEffect,
        place: Place,
    ) -> Result<(), OutOfMemory>
        ensures { OnOk result (self.new ≡ with_effect place effect.now self.old) }
    {
        self.read_all(alloc, effect.reads.get().as_slice(), place)?;
        self.onward = self.onward.common(alloc, &effect.keeps)?;
        Ok(())
    }

    /// The walk goes on from these locations; what was dirty on the way on is handed back.
    pub fn go_on_from(&mut self, locations: LocationSet) -> LocationSet
        ensures before { result ≡ self.old.onward }
        ensures now { self.new ≡ record self.old { onward = locations } }
    {
        mem::replace(&mut self.onward, locations)
    }

    /// The way on meets others, on which these locations are dirty.
    pub fn meet(&mut self, alloc: Global, others: &LocationSet) -> Result<(), OutOfMemory>
        ensures { OnOk result (self.new ≡ record self.old { onward = either_on self.old.onward others.now }) }
    {
        self.onward = self.onward.united(alloc, others)?;
        Ok(())
    }

    /// The walk comes into another loop, out of whose body these ways have come; those out of the one before are handed back.
    pub fn change_loop(&mut self, ways: LoopWays) -> LoopWays
        ensures before { result ≡ record { leaves = self.old.leaves; continues = self.old.continues } }
        ensures now { self.new ≡ record self.old { leaves = ways.leaves; continues = ways.continues } }
    {
        LoopWays {
            leaves: mem::replace(&mut self.leaves, ways.leaves),
            continues: mem::replace(&mut self.continues, ways.continues),
        }
    }

    /// The way on goes out of the innermost loop.
    pub fn leave(&mut self, alloc: Global) -> Result<(), OutOfMemory>
        ensures { OnOk result (self.new ≡ record self.old { onward = []; leaves = either_on self.old.leaves self.old.onward }) }
    {
        self.leaves = self.leaves.united(alloc, &self.onward)?;
        self.onward = LocationSet::new(alloc);
        Ok(())
    }

    /// The way on goes to the next round of the innermost loop.
    pub fn go_to_next_round(&mut self, alloc: Global) -> Result<(), OutOfMemory>
        ensures { OnOk result (self.new ≡ record self.old { onward = []; continues = either_on self.old.continues self.old.onward }) }
    {
        self.continues = self.continues.united(alloc, &self.onward)?;
        self.onward = LocationSet::new(alloc);
        Ok(())
    }

    /// The way on goes out of the method.
    pub fn return_from(&mut self, alloc: Global) -> Result<(), OutOfMemory>
        ensures { OnOk result (self.new ≡ record self.old { onward = []; returns = either_on self.old.returns self.old.onward }) }
    {
        self.returns = self.returns.united(alloc, &self.onward)?;
        self.onward = LocationSet::new(alloc);
        Ok(())
    }

    /// All ways out meet: what is dirty on any way out of a method's body.
    pub fn end(&mut self, alloc: Global) -> Result<(), OutOfMemory>
        ensures { OnOk result (self.new ≡ record self.old { onward = either_on (either_on (either_on self.old.onward self.old.returns) self.old.leaves) self.old.continues }) }
    {
        let past_returns = self.onward.united(alloc, &self.returns)?;
        let past_leaves = past_returns.united(alloc, &self.leaves)?;
        self.onward = past_leaves.united(alloc, &self.continues)?;
        Ok(())
    }
}
