//! What stands before and behind the body of a counted loop.
ghost use Rattle.std.specs.Prelude.{◌≡◌, ◌<◌, length, OnOk, IfOk};
ghost use Rattle.std.specs.Option.{option_map};
ghost use Rattle.ds2_meaning.specs.View.{typed_expression};
ghost use Rattle.ds2_emitter.specs.Emit.{with_run, with_expression};
ghost use Rattle.ds2_statement_emitter.specs.Appending.{with_loop_step};
ghost use Rattle.ds2_statement_emitter.specs.Counting.{with_begun, begun_jump, with_advanced, with_bound, with_sign, with_step_test, with_tested, with_round, end_kept, step_pushed, step_kept};
ghost use Rattle.ds2_statement_emitter.specs.Marks.{body_mark, redirected, loop_aims};

use crate::parts::{emit_all, emit_step};
use crate::redirect::{end_loop, lead_here, plus, position};
use ds2_base::{List, OutOfMemory, Place};
use ds2_code::Instr;
use ds2_emitter::{Numbering, emit, emit_expression};
use ds2_meaning::{Expression, Reference};
use ds2_value::{Comparison, Ty, Value};

/// The head of a counted loop.
#[derive(Clone, Copy)]
pub struct CountHead<'s> {
    /// Where the loop stands.
    pub place: Place,
    /// The variable that counts.
    pub variable: &'s Reference,
    /// Whether a step was given.
    pub has_step: bool,
}

/// A counted loop whose body is still to come: the jump to its test that was left open, the number under which its end is kept, and
/// where its body begins.
#[derive(Clone, Copy)]
pub struct OpenCount {
    pub hole: usize,
    pub end: u32,
    pub first: u32,
}

/// Adds the start, the end and the step of a counted loop.
pub fn emit_count_values<N: Numbering>(
    names: &N,
    code: &mut List<Instr>,
    start: &Expression,
    end: &Expression,
    step: &Option<Expression>,
) -> Result<(), OutOfMemory>
    ensures { OnOk result (code.new ≡ with_loop_step (N.numbers names.now) (option_map typed_expression step.now) (with_expression (N.numbers names.now) (typed_expression end.now) (with_expression (N.numbers names.now) (typed_expression start.now) code.old))) }
{
    emit_expression(names, code, start)?;
    emit_expression(names, code, end)?;
    emit_step(names, code, step)
}

// Keeps the step of a counted loop, where one was given, and tells the number of the next kept value.
#[tactic(auto, using(ds2_emitter::proofs::Appended::no_run, ds2_emitter::proofs::Appended::one_run))]
fn keep_step<N: Numbering>(
    names: &N,
    code: &mut List<Instr>,
    kept: u32,
    has_step: bool,
) -> Result<u32, OutOfMemory>
    ensures code { OnOk result (code.new ≡ with_run (step_kept (N.numbers names.now) kept has_step) code.old) }
    ensures end { IfOk result (λ end. end ≡ end_kept kept has_step) }
{
    if has_step {
        emit(code, names.store_kept(kept)?)?;
        plus(kept, 1)
    } else {
        Ok(kept)
    }
}

/// Stores the start, the end and the step of a counted loop, and begins its first round; the jump to its test is left open.
pub fn open_count<N: Numbering>(
    names: &N,
    code: &mut List<Instr>,
    kept: u32,
    head: CountHead<'_>,
) -> Result<OpenCount, OutOfMemory>
    ensures code { OnOk result (code.new ≡ with_begun (N.numbers names.now) head.entry.place head.entry.variable.now kept head.entry.has_step code.old) }
    ensures hole { IfOk result (λ started. started.hole ≡ begun_jump (N.numbers names.now) head.entry.place head.entry.variable.now kept head.entry.has_step code.old) }
    ensures end { IfOk result (λ started. started.end ≡ end_kept kept head.entry.has_step) }
    ensures first { IfOk result (λ started. started.first ≡ length code.new) }
{
    let CountHead {
        place,
        variable,
        has_step,
    } = head;
    let end = keep_step(names, code, kept, has_step)?;
    let keep = names.store_kept(end)?;
    let set = names.store(variable)?;
    emit_all(code, &[keep, set, Instr::Tick(place)])?;
    let hole = code.len();
    emit(code, Instr::Jump(0))?;
    Ok(OpenCount {
        hole,
        end,
        first: position(code)?,
    })
}

// Pushes what a counted loop adds: its kept step, or 1.
fn step_instr<N: Numbering>(names: &N, kept: u32, has_step: bool) -> Result<Instr, OutOfMemory>
    ensures { IfOk result (λ i. i ≡ step_pushed (N.numbers names.now) kept has_step) }
{
    if has_step {
        names.load_kept(kept, Ty::BigInt)
    } else {
        names.constant(&Value::Int(1), Ty::BigInt)
    }
}

// Adds the step of a further round.
fn emit_advance<N: Numbering>(
    names: &N,
    code: &mut List<Instr>,
    round: Place,
    counter: &Reference,
    step: Instr,
) -> Result<(), OutOfMemory>
    ensures { OnOk result (code.new ≡ with_advanced (N.numbers names.now) round counter.now step code.old) }
{
    let load = names.load(counter, Ty::BigInt)?;
    let store = names.store(counter)?;
    emit_all(code, &[Instr::Tick(round), load, step, Instr::IAdd, store])
}

// Compares the variable of a counted loop with its kept end, and goes back to its body where the comparison holds.
fn emit_bound<N: Numbering>(
    names: &N,
    code: &mut List<Instr>,
    variable: &Reference,
    end: u32,
    comparison: Comparison,
    first: u32,
) -> Result<(), OutOfMemory>
    ensures { OnOk result (code.new ≡ with_bound (N.numbers names.now) variable.now end comparison first code.old) }
{
    let value = names.load(variable, Ty::BigInt)?;
    let bound = names.load_kept(end, Ty::BigInt)?;
    emit_all(
        code,
        &[value, bound, Instr::ICmp(comparison), Instr::JTrue(first)],
    )
}

// Compares the kept step of a counted loop with 0, and goes elsewhere where the comparison does not hold.
fn emit_sign<N: Numbering>(
    names: &N,
    code: &mut List<Instr>,
    kept: u32,
    comparison: Comparison,
    to: u32,
) -> Result<(), OutOfMemory>
    ensures { OnOk result (code.new ≡ with_sign (N.numbers names.now) kept comparison to code.old) }
{
    let step = names.load_kept(kept, Ty::BigInt)?;
    let zero = names.constant(&Value::Int(0), Ty::BigInt)?;
    emit_all(
        code,
        &[step, zero, Instr::ICmp(comparison), Instr::JFalse(to)],
    )
}

// Adds the test of a counted loop with a step.
fn emit_step_test<N: Numbering>(
    names: &N,
    code: &mut List<Instr>,
    kept: u32,
    variable: &Reference,
    started: OpenCount,
) -> Result<(), OutOfMemory>
    ensures { OnOk result (code.new ≡ with_step_test (N.numbers names.now) kept variable.now started.end started.first code.old) }
{
    let at = position(code)?;
    let falling = plus(at, 9)?;
    let out = plus(at, 17)?;
    emit_sign(names, code, kept, Comparison::GreaterOrEqual, falling)?;
    emit_bound(
        names,
        code,
        variable,
        started.end,
        Comparison::LessOrEqual,
        started.first,
    )?;
    emit(code, Instr::Jump(out))?;
    emit_sign(names, code, kept, Comparison::Less, out)?;
    emit_bound(
        names,
        code,
        variable,
        started.end,
        Comparison::GreaterOrEqual,
        started.first,
    )
}

// Adds the test of a counted loop.
fn emit_count_test<N: Numbering>(
    names: &N,
    code: &mut List<Instr>,
    kept: u32,
    variable: &Reference,
    has_step: bool,
    started: OpenCount,
) -> Result<(), OutOfMemory>
    ensures { OnOk result (code.new ≡ with_tested (N.numbers names.now) kept variable.now has_step started.end started.first code.old) }
{
    if has_step {
        emit_step_test(names, code, kept, variable, started)
    } else {
        emit_bound(
            names,
            code,
            variable,
            started.end,
            Comparison::LessOrEqual,
            started.first,
        )
    }
}

/// Adds the code behind the body of a counted loop: the step of a further round, and the test.
pub fn close_count<N: Numbering>(
    names: &N,
    code: &mut List<Instr>,
    kept: u32,
    head: CountHead<'_>,
    started: OpenCount,
) -> Result<(), OutOfMemory>
    ensures code { let whole = with_round (N.numbers names.now) head.entry.place head.entry.variable.now kept head.entry.has_step started.hole started.end started.first code.old in OnOk result (code.new ≡ redirected started.first (loop_aims (length whole) (length code.old)) whole) }
    ensures small { OnOk result (length (with_round (N.numbers names.now) head.entry.place head.entry.variable.now kept head.entry.has_step started.hole started.end started.first code.old) < body_mark) }
{
    let CountHead {
        place,
        variable,
        has_step,
    } = head;
    let again = position(code)?;
    let added = step_instr(names, kept, has_step)?;
    emit_advance(names, code, place, variable, added)?;
    lead_here(code, started.hole, true)?;
    emit_count_test(names, code, kept, variable, has_step, started)?;
    end_loop(code, started.first as usize, again)
}
