//! Code that is valid by its type, and the test that makes it.
ghost use Rattle.std.specs.Prelude.{◌≡◌, ◌&&◌, IfOk, SomeIff, slice_get};
ghost use Rattle.std.specs.Option.{is_some};
ghost use Rattle.ds2_code.specs.ValidCode.{parts_in_range, lists_short, values_allowed, IsValidStaged};
ghost use Rattle.ds2_valid_code.specs.ProgramTest.{program_passes, parts_pass};

use crate::jumps::jumps_are_bounded;
use crate::layout::{layout_is_fit, outputs_are_named_apart};
use crate::scan::types_suffice;
use crate::values::values_are_allowed;
use ds2_base::OutOfMemory;
use ds2_code::{Instr, ProgramParts, Slot, StagedParts};
use std::alloc::Global;
use std::marker::Model;
use std::mem::size_of;

/// Valid code of a program, and of the thread program that it may read from. A contract sees its parts.
#[derive(Drop)]
pub struct ProgramCode {
    parts: StagedParts,
}

// An object may have many of both. A list of slots may have room for as many again.
const _: () = prove!(size_of::<Instr>() <= 16);

const _: () = prove!(size_of::<Slot>() <= 32);

impl Model for ProgramCode {
    ghost use Rattle.std.specs.Prelude.{IsTrue};
    ghost use Rattle.ds2_code.specs.declared.parts.StagedParts.{StagedParts as Parts};
    ghost use Rattle.ds2_valid_code.specs.ProgramTest.{parts_pass as all_parts_pass};

    ghost Value = { Parts };

    ghost view = { λ c. c.parts };

    ghost invariant = { λ c. IsTrue (all_parts_pass c.parts) };
}

impl ProgramCode {
    /// The parts, which are valid code.
    pub fn parts(&self) -> &StagedParts
        ensures value { result.now ≡ self.now }
        ensures valid { IsValidStaged self.now }
    {
        &self.parts
    }

    /// The parts, which are valid code. Takes no memory.
    pub fn into_parts(self) -> StagedParts
        ensures value { result ≡ self }
        ensures valid { IsValidStaged self }
    {
        self.parts
    }
}

// Whether the numbers, lists and values of a program's parts are those of valid code.
fn parts_are_allowed(code: &ProgramParts) -> bool
    ensures { result ≡ (parts_in_range code.now && (lists_short code.now && values_allowed code.now)) }
{
    code.numbers_in_range() && code.lists_are_short() && values_are_allowed(code)
}

// Whether the code of a program is valid beside the thread program that it reads from, the first of `stages`. Numbers come first:
// where they are in range, a reading has few BY variables, and each is sought among the slots of each table.
fn program_passes(
    alloc: Global,
    code: &ProgramParts,
    stages: &[ProgramParts],
) -> Result<bool, OutOfMemory>
    ensures { IfOk result (λ passes. passes ≡ program_passes code.now (slice_get stages.now 0)) }
{
    if !parts_are_allowed(code) {
        return Ok(false);
    }
    let outputs = outputs_are_named_apart(alloc, code)?;
    let layout = layout_is_fit(alloc, code, stages)?;
    let types = types_suffice(alloc, code, stages)?;
    Ok(types && outputs && jumps_are_bounded(code.instrs.as_slice()) && layout)
}

// Whether a program's code is valid, and that of the thread program that it reads from, which has a name.
fn pair_passes(
    alloc: Global,
    code: &ProgramParts,
    stages: &[ProgramParts],
    stage: &ProgramParts,
) -> Result<bool, OutOfMemory>
    ensures { IfOk result (λ passes. passes ≡ (is_some stage.now.name && (program_passes code.now (slice_get stages.now 0) && program_passes stage.now None))) }
{
    let upper = program_passes(alloc, code, stages)?;
    let lower = program_passes(alloc, stage, &[])?;
    Ok(stage.name.is_some() && upper && lower)
}

fn parts_pass(alloc: Global, parts: &StagedParts) -> Result<bool, OutOfMemory>
    ensures { IfOk result (λ pass. pass ≡ parts_pass parts.now) }
{
    let stages = parts.stages.as_slice();
    match stages {
        [] => program_passes(alloc, &parts.program, &[]),
        [stage] => pair_passes(alloc, &parts.program, stages, stage),
        [_, _, ..] => Ok(false),
    }
}

/// The code that these parts are; None exactly where they are no valid code.
pub fn verify(alloc: Global, parts: StagedParts) -> Result<Option<ProgramCode>, OutOfMemory>
    ensures { IfOk result (λ code. SomeIff code (IsValidStaged parts) parts) }
{
    let passes = parts_pass(alloc, &parts)?;
    if passes {
        Ok(Some(ProgramCode { parts }))
    } else {
        Ok(None)
    }
}
