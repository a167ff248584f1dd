//! The code of data programs, with that of the thread programs that they stand on.
ghost use Rattle.std.specs.Prelude.{◌≡◌, ◌∷◌, ◌++◌, IfOk, IfSome, IsSome, OnOk, SomeIff};
ghost use Rattle.std.specs.Option.{option_map};
ghost use Rattle.ds2_meaning.specs.IsTyped.{IsTypedDataProgram};
ghost use Rattle.ds2_meaning.specs.ProgramTree.{reader_of};
ghost use Rattle.ds2_meaning.specs.View.{typed_data_program, typed_thread_program};
ghost use Rattle.ds2_code.specs.ValidCode.{IsValidStaged};
ghost use Rattle.ds2_program_code.specs.ProgramCode.{program_code};
ghost use Rattle.ds2_generate.specs.Generated.{codes_of, codes_below, code_with_stages, DoAllAs, FitsStagedLimits};

use crate::program::program_parts;
use ds2_base::{List, OutOfMemory};
use ds2_code::{ProgramParts, StagedParts};
use ds2_layout::{lay_out, lay_out_thread};
use ds2_meaning::{Shared, TypedData, TypedThread};
use ds2_valid_code::{ProgramCode, verify};
use std::alloc::Global;

// The code of a thread program, without that of the one that it reads from.
fn thread_parts(alloc: Global, thread: &TypedThread) -> Result<ProgramParts, OutOfMemory>
    ensures { IfOk result (λ code. code ≡ program_code (reader_of (typed_thread_program thread.now))) }
{
    let layout = lay_out_thread(alloc, thread)?;
    let parameters = thread.parameters.as_slice();
    program_parts(
        alloc,
        Some(&thread.name),
        parameters,
        &thread.program,
        &layout,
    )
}

// The code of a data program, without that of the thread program that it reads from.
fn data_parts(alloc: Global, program: &TypedData) -> Result<ProgramParts, OutOfMemory>
    ensures { IfOk result (λ code. code ≡ program_code (reader_of (typed_data_program program.now))) }
{
    let layout = lay_out(alloc, program)?;
    program_parts(alloc, None, &[], &program.program, &layout)
}

// Adds the code of a thread program, and that of those that it stands on.
fn add_stages(
    alloc: Global,
    stages: &mut List<ProgramParts>,
    thread: &TypedThread,
) -> Result<(), OutOfMemory>
    ensures { OnOk result (stages.new ≡ stages.old ++ codes_of (typed_thread_program thread.now)) }
{
    stages.push(thread_parts(alloc, thread)?)?;
    match &thread.stage {
        None => Ok(()),
        Some(next) => add_stages(alloc, stages, next),
    }
}

// The code of the thread programs that a data program stands on.
fn stage_parts(
    alloc: Global,
    stage: &Option<Shared<TypedThread>>,
) -> Result<List<ProgramParts>, OutOfMemory>
    ensures { IfOk result (λ codes. codes ≡ codes_below (option_map typed_thread_program stage.now)) }
{
    let mut stages = List::new(alloc);
    match stage {
        None => Ok(stages),
        Some(thread) => {
            add_stages(alloc, &mut stages, thread.get())?;
            Ok(stages)
        }
    }
}

// The code of a data program and of the thread programs that it stands on, the one that it reads from first.
fn staged_parts(alloc: Global, program: &TypedData) -> Result<StagedParts, OutOfMemory>
    ensures { IfOk result (λ code. code ≡ code_with_stages (typed_data_program program.now)) }
{
    let code = data_parts(alloc, program)?;
    let stages = stage_parts(alloc, &program.stage)?;
    Ok(StagedParts {
        program: code,
        stages,
    })
}

/// The code of a data program and of the thread programs that it stands on, the one that it reads from first; None where that is no valid
/// code, as where a list has 2 ^ 32 items. Of a typed program within the limits of code it always is valid.
///
/// It does what the program means: each unit of a typed program ends as the program's unit means, with the same rows, lines, way, place and
/// budget left, and after a normal end with its state; and the way tells how many instructions it executes. Wants memory too where a number
/// has more than 32 bits.
pub fn generate(alloc: Global, program: &TypedData) -> Result<Option<ProgramCode>, OutOfMemory>
    ensures code { IfOk result (λ made. SomeIff made (IsValidStaged (code_with_stages (typed_data_program program.now))) (code_with_stages (typed_data_program program.now))) }
    ensures meant { IfOk result (λ made. IfSome made (λ code. DoAllAs (typed_data_program program.now) (code.program ∷ code.stages))) }
    ensures within { IfOk result (λ made. IsTypedDataProgram (typed_data_program program.now) → FitsStagedLimits (typed_data_program program.now) → IsSome made) }
{
    ds2_program_code::laws::typed_units_run_as_meant();
    ds2_program_code::laws::typed_programs_open_alike();
    ds2_program_code::laws::typed_stages_are_valid();
    ds2_program_code::count_laws::typed_units_count_by_way();
    let parts = staged_parts(alloc, program)?;
    verify(alloc, parts)
}
