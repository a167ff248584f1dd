//! A job whose groups tell their own number.
ghost use Rattle.std.specs.Prelude.{◌≡◌, [], ◌∷◌, IfOk};
ghost use Rattle.ds2_value.specs.declared.value.Value.TheVariants.{Null};
ghost use Rattle.ds2_layer_cases.specs.SampleEnds.{sample_ending};

use ds2_bags::{Answers, GroupEnd, Job};
use ds2_base::{List, OutOfMemory, Place};
use ds2_value::{Ending, Fault, Row, Value};
use std::alloc::{AllocError, Global};

/// So many groups, of which some end by a fault. Group g gives a row without a value and executes g instructions.
#[derive(Drop)]
pub struct Sample {
    groups: u32,
    faults: List<u64>,
}

impl Sample {
    /// The job of a line of numbers.
    pub fn of(alloc: Global, line: &str) -> Result<Sample, AllocError> {
        let mut groups = 0;
        let mut faults = Vec::new(alloc);
        for word in line.split(' ') {
            let number = word.parse::<u32>().unwrap_or(0);
            if groups == 0 {
                groups = number;
            } else {
                faults.push(number as u64)?;
            }
        }
        Ok(Sample {
            groups,
            faults: List::of(faults),
        })
    }

    // How group g ends.
    fn ending(&self, g: u64) -> Ending
        ensures { result ≡ sample_ending self.now.faults g }
    {
        if self.faults.as_slice().contains(&g) {
            Ending::Faulted {
                kind: Fault::Range,
                place: Place { line: 1, column: 1 },
            }
        } else {
            Ending::Normal
        }
    }
}

impl Answers for Sample {
    ghost use Rattle.ds2_layer_cases.specs.SampleEnds.{sample_end};

    ghost count = { λ j. j.groups };

    ghost answer = { λ j g. sample_end j.faults g };

    fn groups(&self) -> u64 {
        self.groups as u64
    }
}

impl Job for Sample {
    // How many groups the worker has run.
    type Worker = u64;

    ghost fits = { λ j w. Unit {0} };

    fn start(&self, _alloc: Global) -> Result<u64, OutOfMemory> {
        Ok(0)
    }

    fn run(&self, alloc: Global, worker: &mut u64, g: u64) -> Result<GroupEnd, OutOfMemory> {
        *worker = worker.wrapping_add(1);
        Ok(GroupEnd {
            rows: one_row(alloc)?,
            lines: List::new(alloc),
            ending: self.ending(g),
            executed: g as u128,
        })
    }
}

fn one_row(alloc: Global) -> Result<List<Row>, OutOfMemory>
    ensures { IfOk result (λ rows. rows ≡ (Null ∷ []) ∷ []) }
{
    let mut row = List::new(alloc);
    row.push(Value::Null)?;
    let mut rows = List::new(alloc);
    rows.push(row)?;
    Ok(rows)
}
