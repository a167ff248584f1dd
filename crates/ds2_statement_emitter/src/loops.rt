//! What stands before and behind the bodies of `do while` and `do until`.
ghost use Rattle.std.specs.Prelude.{◌≡◌, ◌<◌, false, length, OnOk, IfOk};
ghost use Rattle.ds2_meaning.specs.View.{typed_expression};
ghost use Rattle.ds2_emitter.specs.Emit.{with_instruction};
ghost use Rattle.ds2_statement_emitter.specs.Appending.{with_condition, with_open_test, open_test_jump, with_off};
ghost use Rattle.ds2_statement_emitter.specs.Marks.{body_mark, redirected, loop_aims};

use crate::parts::{emit_condition, emit_open_test};
use crate::redirect::{end_loop, lead_here, position};
use ds2_base::{List, OutOfMemory, Place};
use ds2_code::Instr;
use ds2_emitter::{Numbering, emit};
use ds2_meaning::Expression;

/// A `do while` whose body is still to come: where its test begins, the test's jump that was left open, and where the body begins.
#[derive(Clone, Copy)]
pub struct OpenWhile {
    pub test: u32,
    pub hole: usize,
    pub first: usize,
}

/// Adds the code before the body of a `do while`, behind its own step.
pub fn open_while<N: Numbering>(
    names: &N,
    code: &mut List<Instr>,
    place: Place,
    condition: &Expression,
) -> Result<OpenWhile, OutOfMemory>
    ensures code { OnOk result (code.new ≡ with_open_test (N.numbers names.now) place (typed_expression condition.now) code.old) }
    ensures test { IfOk result (λ started. started.test ≡ length code.old) }
    ensures hole { IfOk result (λ started. started.hole ≡ open_test_jump (N.numbers names.now) place (typed_expression condition.now) code.old) }
    ensures first { IfOk result (λ started. started.first ≡ length code.new) }
{
    let test = position(code)?;
    let hole = emit_open_test(names, code, place, condition)?;
    Ok(OpenWhile {
        test,
        hole,
        first: code.len(),
    })
}

/// Adds the code behind the body of a `do while`.
pub fn close_while(code: &mut List<Instr>, started: OpenWhile) -> Result<(), OutOfMemory>
    ensures code { let whole = with_off false started.hole (with_instruction (Instr.Jump started.test) code.old) in OnOk result (code.new ≡ redirected started.first (loop_aims (length whole) started.test) whole) }
    ensures small { OnOk result (length (with_off false started.hole (with_instruction (Instr.Jump started.test) code.old)) < body_mark) }
{
    emit(code, Instr::Jump(started.test))?;
    lead_here(code, started.hole, false)?;
    end_loop(code, started.first, started.test)
}

/// Adds the code behind the body of a `do until`, which began at an instruction.
pub fn close_until<N: Numbering>(
    names: &N,
    code: &mut List<Instr>,
    place: Place,
    condition: &Expression,
    first: u32,
) -> Result<(), OutOfMemory>
    ensures code { let whole = with_instruction (Instr.JFalse first) (with_condition (N.numbers names.now) (typed_expression condition.now) (with_instruction (Instr.Tick place) code.old)) in OnOk result (code.new ≡ redirected first (loop_aims (length whole) (length code.old)) whole) }
    ensures small { OnOk result (length (with_instruction (Instr.JFalse first) (with_condition (N.numbers names.now) (typed_expression condition.now) (with_instruction (Instr.Tick place) code.old))) < body_mark) }
{
    let test = position(code)?;
    emit(code, Instr::Tick(place))?;
    emit_condition(names, code, condition)?;
    emit(code, Instr::JFalse(first))?;
    end_loop(code, first as usize, test)
}
