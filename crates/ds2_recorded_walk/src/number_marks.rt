//! Marks of numbers.
ghost use Rattle.std.specs.Prelude.{◌≡◌, ◌+◌, ◌<◌, ◌≤◌, ◌==◌, ◌||◌, ◌&&◌, ◌++◌, ℕ, false, not, length, nat_lt, replicate, IfOk, OnOk, OnErr};
ghost use Rattle.ds2_recorded_walk.specs.LocationBits.{is_on as is_on_at};
ghost use Rattle.ds2_recorded_walk.specs.MarkedSets.{is_marked, is_on_from};

use crate::bits::is_on;
use ds2_base::{List, OutOfMemory};
use std::alloc::Global;

/// Which numbers are marked: a truth value for each one from a first number on. No number before it, and none behind the last value, is.
#[derive(Drop)]
pub struct NumberMarks {
    pub from: usize,
    pub marks: List<bool>,
}

/// The next number; want of memory where there is none.
pub fn next_number(number: usize) -> Result<usize, OutOfMemory>
    ensures { IfOk result (λ next. next ≡ number + 1) }
{
    match number.checked_add(1) {
        None => Err(OutOfMemory),
        Some(next) => Ok(next),
    }
}

// Values behind so many that are false.
fn begun_earlier(alloc: Global, count: usize, marks: &[bool]) -> Result<List<bool>, OutOfMemory>
    ensures { IfOk result (λ earlier. earlier ≡ replicate count false ++ marks.now) }
{
    let mut earlier = List::new(alloc);
    'numbers: for _ in 0..count {
        earlier.push(false)?;
    }
    earlier.append(marks)?;
    Ok(earlier)
}

// Adds values that are false, until there is one at a place.
fn reach(marks: &mut List<bool>, place: usize) -> Result<(), OutOfMemory>
    ensures same { (n : ℕ) → is_on_at marks.new n ≡ is_on_at marks.old n }
    ensures there { OnOk result (place < length marks.new) }
{
    'places: while marks.len() <= place {
        marks.push(false)?;
    }
    Ok(())
}

// Makes the value at a place true.
fn put_on(marks: &mut List<bool>, place: usize) -> Result<(), OutOfMemory>
    ensures ok { OnOk result ((n : ℕ) → is_on_at marks.new n ≡ ((n == place) || is_on_at marks.old n)) }
    ensures err { OnErr result ((n : ℕ) → is_on_at marks.new n ≡ is_on_at marks.old n) }
{
    reach(marks, place)?;
    marks.replace(place, true);
    Ok(())
}

impl NumberMarks {
    /// No number is marked.
    pub fn new(alloc: Global) -> NumberMarks
        ensures { (n : ℕ) → is_marked result n ≡ false }
    {
        NumberMarks {
            from: 0,
            marks: List::new(alloc),
        }
    }

    /// The same marks.
    pub fn copy(&self, alloc: Global) -> Result<NumberMarks, OutOfMemory>
        ensures { IfOk result (λ marks. marks ≡ self.now) }
    {
        Ok(NumberMarks {
            from: self.from,
            marks: self.marks.copy(alloc)?,
        })
    }

    /// Whether a number is marked.
    pub fn contains(&self, number: usize) -> bool
        ensures { result ≡ is_marked self.now number }
    {
        if number < self.from {
            return false;
        }
        is_on(self.marks.as_slice(), number - self.from)
    }

    // Makes room in front for a number. There is made as much as there are values, so that many numbers that fall cost no more than as many
    // that rise.
    fn begin_by(&mut self, alloc: Global, number: usize) -> Result<(), OutOfMemory>
        ensures same { (n : ℕ) → is_marked self.new n ≡ is_marked self.old n }
        ensures begun { OnOk result (self.new.from ≤ number) }
    {
        if self.marks.is_empty() {
            self.from = number;
            return Ok(());
        }
        if self.from <= number {
            return Ok(());
        }
        let from = number.saturating_sub(self.marks.len());
        let earlier = begun_earlier(alloc, self.from - from, self.marks.as_slice())?;
        self.from = from;
        self.marks = earlier;
        Ok(())
    }

    /// Marks a number.
    pub fn mark(&mut self, alloc: Global, number: usize) -> Result<(), OutOfMemory>
        ensures ok { OnOk result ((n : ℕ) → is_marked self.new n ≡ ((n == number) || is_marked self.old n)) }
        ensures err { OnErr result ((n : ℕ) → is_marked self.new n ≡ is_marked self.old n) }
    {
        self.begin_by(alloc, number)?;
        put_on(&mut self.marks, number - self.from)
    }

    // Marks a number where it is wanted.
    fn mark_if(&mut self, alloc: Global, number: usize, wanted: bool) -> Result<(), OutOfMemory>
        ensures { OnOk result ((n : ℕ) → is_marked self.new n ≡ ((wanted && (n == number)) || is_marked self.old n)) }
    {
        if wanted {
            return self.mark(alloc, number);
        }
        Ok(())
    }

    /// Marks the numbers from one up to another.
    pub fn mark_range(&mut self, alloc: Global, from: usize, to: usize) -> Result<(), OutOfMemory>
        ensures { OnOk result ((n : ℕ) → is_marked self.new n ≡ ((not (nat_lt n from) && nat_lt n to) || is_marked self.old n)) }
    {
        if to <= from {
            return Ok(());
        }
        'numbers: for number in from..to {
            self.mark(alloc, number)?;
        }
        Ok(())
    }

    // Marks the numbers whose values are true, from a first number on.
    fn mark_those(&mut self, alloc: Global, from: usize, marks: &[bool]) -> Result<(), OutOfMemory>
        ensures { OnOk result ((n : ℕ) → is_marked self.new n ≡ (is_on_from from marks.now n || is_marked self.old n)) }
    {
        let mut number = from;
        'marks: for mark in marks {
            self.mark_if(alloc, number, *mark)?;
            number = next_number(number)?;
        }
        Ok(())
    }

    /// Marks the numbers that others mark.
    pub fn mark_all(&mut self, alloc: Global, others: &NumberMarks) -> Result<(), OutOfMemory>
        ensures { OnOk result ((n : ℕ) → is_marked self.new n ≡ (is_marked others.now n || is_marked self.old n)) }
    {
        self.mark_those(alloc, others.from, others.marks.as_slice())
    }
}
