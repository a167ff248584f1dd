//! Numbers of methods, each once.
ghost use Rattle.std.specs.Prelude.{◌≡◌, ℕ, false, List as Items, [], ◌∷◌, ◌++◌, IfOk, OnOk, length, replicate};
ghost use Rattle.ds2_deeds.specs.NumberedCalls.{is_one_of_numbers, with_one_number, AreMarked};

use ds2_base::{List, OutOfMemory};
use std::alloc::Global;
use std::marker::Model;

/// So many numbers are looked for one after the other; where there are more they have marks.
const FEW: usize = 16;

/// Numbers in the order in which they were added. Where they are many a mark for each number below a bound tells whether it is among them. A
/// contract sees the numbers.
#[derive(Drop)]
pub(crate) struct MarkedNumbers {
    alloc: Global,
    bound: usize,
    numbers: List<usize>,
    marks: List<bool>,
}

impl Model for MarkedNumbers {
    ghost use Rattle.std.specs.Prelude.{ℕ, List as Items};

    ghost Value = { Items ℕ };

    ghost use Rattle.ds2_deeds.specs.NumberedCalls.{AreMarked};

    ghost view = { λ n. n.numbers };

    ghost invariant = { λ n. AreMarked n.numbers n.marks };
}

/// Whether a number is among these.
pub fn is_among(numbers: &[usize], number: usize) -> bool
    ensures { result ≡ is_one_of_numbers numbers.now number }
{
    'numbers: for other in numbers {
        if *other == number {
            return true;
        }
    }
    false
}

// So many marks for numbers that are not there.
fn no_marks(alloc: Global, count: usize) -> Result<List<bool>, OutOfMemory>
    ensures { IfOk result (λ marks. marks ≡ replicate count false) }
{
    let mut marks = List::new(alloc);
    'marks: for _ in 0..count {
        marks.push(false)?;
    }
    Ok(marks)
}

// Marks one number more.
fn mark(marks: &mut List<bool>, number: usize)
    ensures { (numbers : Items ℕ) → AreMarked numbers marks.old → AreMarked (numbers ++ number ∷ []) marks.new }
{
    if number < marks.len() {
        let _unmarked = marks.replace(number, true);
    }
}

// Marks of those of numbers that are below a bound.
fn marks_of(alloc: Global, bound: usize, numbers: &[usize]) -> Result<List<bool>, OutOfMemory>
    ensures { IfOk result (AreMarked numbers.now) }
{
    let mut marks = no_marks(alloc, bound)?;
    'numbers: for number in numbers {
        mark(&mut marks, *number);
    }
    Ok(marks)
}

impl MarkedNumbers {
    /// No number yet, of which those below a bound will have marks.
    pub(crate) fn new(alloc: Global, bound: usize) -> MarkedNumbers
        ensures { result ≡ [] }
    {
        MarkedNumbers {
            alloc,
            bound,
            numbers: List::new(alloc),
            marks: List::new(alloc),
        }
    }

    /// How many there are.
    pub(crate) fn len(&self) -> usize
        ensures { result ≡ length self.now }
    {
        self.numbers.len()
    }

    /// The numbers in order.
    pub(crate) fn as_slice(&self) -> &[usize]
        ensures { result.now ≡ self.now }
    {
        self.numbers.as_slice()
    }

    /// The numbers in order.
    pub(crate) fn into_list(self) -> List<usize>
        ensures { result ≡ self }
    {
        self.numbers
    }

    // Whether a number is among them.
    fn contains(&self, number: usize) -> bool
        ensures { result ≡ is_one_of_numbers self.now number }
    {
        match self.marks.get(number) {
            None => is_among(self.numbers.as_slice(), number),
            Some(mark) => *mark,
        }
    }

    /// Adds a number, where it is not there.
    pub(crate) fn add(&mut self, number: usize) -> Result<(), OutOfMemory>
        ensures { OnOk result (self.new ≡ with_one_number self.old number) }
    {
        if self.contains(number) {
            return Ok(());
        }
        if self.numbers.len() == FEW {
            self.marks = marks_of(self.alloc, self.bound, self.numbers.as_slice())?;
        }
        self.numbers.push(number)?;
        mark(&mut self.marks, number);
        Ok(())
    }
}
