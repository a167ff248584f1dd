//! Codes of programs that run one behind the other, and the tables that they name.
ghost use Rattle.std.specs.Prelude.{◌≡◌, slice_get, IfOk, Some};
ghost use Rattle.ds2_code.specs.declared.parts.StagedParts.{StagedParts as StagedModel};
ghost use Rattle.ds2_code_answer.specs.CodeTables.{program_references};
ghost use Rattle.ds2_answer.specs.ObjectPlans.{references_of};

use ds2_base::{List, OutOfMemory};
use ds2_code::TableReference;
use ds2_store_steps::references_of_code;
use ds2_valid_code::ProgramCode;
use std::alloc::Global;
use std::marker::Model;

// Where the tables that a program names stand among those of all programs.
#[derive(Clone, Copy)]
struct NamedPlace {
    start: usize,
    count: usize,
}

/// Codes of programs that run one behind the other, with the tables that they name, which are gathered once.
#[derive(Drop)]
pub struct RunCodes<'a> {
    codes: &'a [ProgramCode],
    /// The tables that they name, program by program.
    references: List<TableReference>,
    /// Where those of each program stand.
    places: List<NamedPlace>,
}

impl<'a> Model for RunCodes<'a> {
    ghost use Rattle.std.specs.Prelude.{List as Items};
    ghost use Rattle.ds2_code.specs.declared.parts.StagedParts.{StagedParts};
    ghost use Rattle.ds2_exec.specs.GatheredCodes.{AreGathered};

    ghost Value = { Items StagedParts };

    ghost view = { λ r. r.codes.now };

    ghost invariant = { λ r. AreGathered r.codes.now r.references r.places };
}

impl<'a> RunCodes<'a> {
    /// These codes, with the tables that they name.
    pub fn of(alloc: Global, codes: &'a [ProgramCode]) -> Result<RunCodes<'a>, OutOfMemory>
        ensures { IfOk result (λ run. run ≡ codes.now) }
    {
        let mut references = List::new(alloc);
        let mut places = List::new(alloc);
        let mut left = codes;
        'codes: while let [code, after @ ..] = left {
            let own = references_of_code(alloc, code)?;
            let start = references.len();
            let count = own.len();
            references.append_list(own)?;
            places.push(NamedPlace { start, count })?;
            left = after;
        }
        Ok(RunCodes {
            codes,
            references,
            places,
        })
    }

    // The codes.
    pub(crate) fn codes(&self) -> &'a [ProgramCode]
        ensures { result.now ≡ self.now }
    {
        self.codes
    }

    // The tables that they name, program by program.
    pub(crate) fn references(&self) -> &[TableReference]
        ensures { result.now ≡ references_of self.now }
    {
        self.references.as_slice()
    }

    // The tables that the program of this number names, in the order of their numbers.
    pub(crate) fn references_at(&self, number: usize) -> &[TableReference]
        ensures { (code : StagedModel) → slice_get self.now number ≡ Some code → result.now ≡ program_references code.program code.stages }
    {
        match self.places.get(number) {
            None => &[],
            Some(place) => {
                let from = self.references.as_slice().split_at(place.start).1;
                from.split_at(place.count).0
            }
        }
    }
}
