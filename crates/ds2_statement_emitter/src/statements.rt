//! The instructions of statements.
ghost use Rattle.std.specs.Prelude.{◌≡◌, ◌+◌, [], ◌∷◌, List as Items, Option as Maybe, map, OnOk, IfOk};
ghost use Rattle.ds2_meaning.specs.TypedStatement.{TypedStatement, TypedWhens};
ghost use Rattle.ds2_meaning.specs.View.{in_a_row, all_statements, otherwise_part, typed_statement};
ghost use Rattle.ds2_gen.specs.StatementCode.{Subject, values_kept, statements_keep, whens_keep};
ghost use Rattle.ds2_statement_emitter.specs.Appending.{IfPart, subject_of, with_statement, with_statements, with_whens, with_rest, rest_keeps};
ghost use Rattle.ds2_statement_emitter.specs.Arms.{when_tree, arm_of_chain, last_tree};
ghost use Rattle.ds2_statement_emitter.specs.Marks.{end_mark, marked_exits};

use crate::aims::{CONTINUE, END, LEAVE};
use crate::counts::{CountHead, close_count, emit_count_values, open_count};
use crate::loops::{close_until, close_while, open_while};
use crate::parts::{
    emit_invoked, emit_line, emit_open_jump, emit_open_test, emit_outputs, emit_parameters,
    place_of, return_instr,
};
use crate::redirect::{end_chain, lead_here, plus, position};
use crate::subject::Tested;
use crate::when_tests::{emit_when_tests, is_unconditional};
use ds2_base::{List, OutOfMemory};
use ds2_code::Instr;
use ds2_emitter::{Numbering, emit, emit_expression};
use ds2_meaning::{Arm, Statement, When};

// A part of a chain whose test's jump was left open, and the number of the next kept value.
#[derive(Clone, Copy)]
struct OpenPart {
    hole: usize,
    kept: u32,
}

// Adds an `else if` behind the part before it.
#[cycle(statement)]
fn emit_arm<N: Numbering>(
    names: &N,
    code: &mut List<Instr>,
    started: OpenPart,
    arm: &Arm,
) -> Result<OpenPart, OutOfMemory>
    ensures rest { (ps : Items IfPart) (o : Maybe TypedStatement) → IfOk result (λ next. with_rest (N.numbers names.now) (marked_exits (N.way names.now)) end_mark next.kept next.hole ps o code.new ≡ with_rest (N.numbers names.now) (marked_exits (N.way names.now)) end_mark started.kept started.hole (arm_of_chain arm.now ∷ ps) o code.old) }
    ensures values { (ps : Items IfPart) (o : Maybe TypedStatement) → IfOk result (λ next. next.kept + rest_keeps ps o ≡ started.kept + rest_keeps (arm_of_chain arm.now ∷ ps) o) }
{
    emit(code, Instr::Jump(END))?;
    lead_here(code, started.hole, false)?;
    let hole = emit_open_test(names, code, arm.place, &arm.condition)?;
    let kept = emit_statement(names, code, started.kept, &arm.then)?;
    Ok(OpenPart { hole, kept })
}

// Adds the `else if` parts behind the first part of a chain.
#[cycle(statement)]
fn emit_arms<N: Numbering>(
    names: &N,
    code: &mut List<Instr>,
    first: OpenPart,
    arms: &[Arm],
) -> Result<OpenPart, OutOfMemory>
    ensures rest { (o : Maybe TypedStatement) → IfOk result (λ last. with_rest (N.numbers names.now) (marked_exits (N.way names.now)) end_mark last.kept last.hole [] o code.new ≡ with_rest (N.numbers names.now) (marked_exits (N.way names.now)) end_mark first.kept first.hole (map arm_of_chain arms.now) o code.old) }
    ensures values { (o : Maybe TypedStatement) → IfOk result (λ last. last.kept + rest_keeps [] o ≡ first.kept + rest_keeps (map arm_of_chain arms.now) o) }
{
    let mut started = first;
    'arms: for arm in arms {
        started = emit_arm(names, code, started, arm)?;
    }
    Ok(started)
}

// Adds the else part of a chain, where there is one, and tells the number of the next kept value.
#[cycle(statement)]
fn emit_else<N: Numbering>(
    names: &N,
    code: &mut List<Instr>,
    started: OpenPart,
    otherwise: &Option<Box<Statement>>,
) -> Result<u32, OutOfMemory>
    ensures code { OnOk result (code.new ≡ with_rest (N.numbers names.now) (marked_exits (N.way names.now)) end_mark started.kept started.hole [] (last_tree otherwise.now) code.old) }
    ensures values { IfOk result (λ next. next ≡ started.kept + rest_keeps [] (last_tree otherwise.now)) }
{
    match otherwise {
        None => {
            lead_here(code, started.hole, false)?;
            Ok(started.kept)
        }
        Some(last) => {
            emit(code, Instr::Jump(END))?;
            lead_here(code, started.hole, false)?;
            emit_statement(names, code, started.kept, last)
        }
    }
}

// Adds a `when` of a `select`, so that what follows makes the code of the whole.
#[cycle(statement)]
fn emit_when<N: Numbering>(
    names: &N,
    code: &mut List<Instr>,
    kept: u32,
    tested: Tested,
    when: &When,
) -> Result<u32, OutOfMemory>
    ensures rest { (rest : TypedWhens) → IfOk result (λ next. with_whens (N.numbers names.now) next end_mark (marked_exits (N.way names.now)) (subject_of tested) rest code.new ≡ with_whens (N.numbers names.now) kept end_mark (marked_exits (N.way names.now)) (subject_of tested) (when_tree when.now rest) code.old) }
    ensures values { (rest : TypedWhens) → IfOk result (λ next. next + whens_keep rest ≡ kept + whens_keep (when_tree when.now rest)) }
{
    let tests = when.tests.as_slice();
    let hole = emit_when_tests(names, code, tested, tests)?;
    let next = emit_statement(names, code, kept, &when.then)?;
    emit(code, Instr::Jump(END))?;
    lead_here(code, hole, is_unconditional(tests))?;
    Ok(next)
}

// Adds the `when` parts of a `select`.
#[cycle(statement)]
fn emit_whens<N: Numbering>(
    names: &N,
    code: &mut List<Instr>,
    kept: u32,
    tested: Tested,
    whens: &[When],
) -> Result<u32, OutOfMemory>
    ensures rest { (o : Maybe TypedStatement) → IfOk result (λ next. with_whens (N.numbers names.now) next end_mark (marked_exits (N.way names.now)) (subject_of tested) (otherwise_part o) code.new ≡ with_whens (N.numbers names.now) kept end_mark (marked_exits (N.way names.now)) (subject_of tested) (in_a_row (map when_tree whens.now) (otherwise_part o)) code.old) }
    ensures values { (o : Maybe TypedStatement) → IfOk result (λ next. next + whens_keep (otherwise_part o) ≡ kept + whens_keep (in_a_row (map when_tree whens.now) (otherwise_part o))) }
{
    let mut next = kept;
    'whens: for when in whens {
        next = emit_when(names, code, next, tested, when)?;
    }
    Ok(next)
}

// Adds the last part of a `select`: its `otherwise` part, or the fault that none of its tests holds.
#[cycle(statement)]
#[tactic(auto, using(crate::proofs::Added::no_otherwise_added, crate::proofs::Added::otherwise_added))]
fn emit_otherwise<N: Numbering>(
    names: &N,
    code: &mut List<Instr>,
    kept: u32,
    otherwise: &Option<Box<Statement>>,
) -> Result<u32, OutOfMemory>
    ensures code { (subject : Subject) → OnOk result (code.new ≡ with_whens (N.numbers names.now) kept end_mark (marked_exits (N.way names.now)) subject (otherwise_part (last_tree otherwise.now)) code.old) }
    ensures values { IfOk result (λ next. next ≡ kept + whens_keep (otherwise_part (last_tree otherwise.now))) }
{
    match otherwise {
        None => {
            emit(code, Instr::NoWhen)?;
            Ok(kept)
        }
        Some(last) => emit_statement(names, code, kept, last),
    }
}

/// Adds the code of statements, which keeps values from a number on, and tells the number of the next one.
#[cycle(statement)]
pub fn emit_statements<N: Numbering>(
    names: &N,
    code: &mut List<Instr>,
    kept: u32,
    body: &[Statement],
) -> Result<u32, OutOfMemory>
    ensures code { OnOk result (code.new ≡ with_statements (N.numbers names.now) kept (marked_exits (N.way names.now)) (all_statements (map typed_statement body.now)) code.old) }
    ensures values { IfOk result (λ next. next ≡ kept + statements_keep (all_statements (map typed_statement body.now))) }
{
    let mut next = kept;
    'body: for s in body {
        next = emit_statement(names, code, next, s)?;
    }
    Ok(next)
}

/// Adds the code of a statement, which keeps values from a number on, and tells the number of the next one.
#[cycle(statement)]
pub fn emit_statement<N: Numbering>(
    names: &N,
    code: &mut List<Instr>,
    kept: u32,
    s: &Statement,
) -> Result<u32, OutOfMemory>
    ensures code { OnOk result (code.new ≡ with_statement (N.numbers names.now) kept (marked_exits (N.way names.now)) (typed_statement s.now) code.old) }
    ensures values { IfOk result (λ next. next ≡ kept + values_kept (typed_statement s.now)) }
{
    let at = code.len();
    emit(code, Instr::Tick(place_of(s)))?;
    match s {
        Statement::Empty { .. } => Ok(kept),
        Statement::Assign {
            variable,
            value,
            ..
        } => {
            emit_expression(names, code, value)?;
            emit(code, names.store(variable)?)?;
            Ok(kept)
        }
        Statement::Invoke { call, .. } => {
            emit_invoked(names, code, call)?;
            Ok(kept)
        }
        Statement::Evaluate { value, .. } => {
            emit_expression(names, code, value)?;
            emit(code, Instr::DropTop)?;
            Ok(kept)
        }
        Statement::SetParameters {
            instance,
            values,
            ..
        } => {
            emit_parameters(names, code, instance, values.as_slice())?;
            Ok(kept)
        }
        Statement::Leave { .. } => {
            emit(code, Instr::Jump(LEAVE))?;
            Ok(kept)
        }
        Statement::Continue { .. } => {
            emit(code, Instr::Jump(CONTINUE))?;
            Ok(kept)
        }
        Statement::Return { .. } => {
            emit(code, return_instr(names.returning()))?;
            Ok(kept)
        }
        Statement::ReturnValue { value, .. } => {
            emit_expression(names, code, value)?;
            emit(code, Instr::RetV)?;
            Ok(kept)
        }
        Statement::Output { outputs, .. } => {
            emit_outputs(code, outputs.as_slice())?;
            Ok(kept)
        }
        Statement::Put { items, .. } => {
            emit_line(names, code, items.as_slice())?;
            Ok(kept)
        }
        Statement::If {
            condition,
            then,
            others,
            otherwise,
            ..
        } => {
            let hole = emit_open_jump(names, code, condition)?;
            let next = emit_statement(names, code, kept, then)?;
            let first = OpenPart { hole, kept: next };
            let started = emit_arms(names, code, first, others.as_slice())?;
            let last = emit_else(names, code, started, otherwise)?;
            end_chain(code, at)?;
            Ok(last)
        }
        Statement::Select {
            whens,
            otherwise,
            ..
        } => {
            let next = emit_whens(names, code, kept, Tested::Conditions, whens.as_slice())?;
            let last = emit_otherwise(names, code, next, otherwise)?;
            end_chain(code, at)?;
            Ok(last)
        }
        Statement::SelectValue {
            value,
            whens,
            otherwise,
            ..
        } => {
            let ty = emit_expression(names, code, value)?;
            emit(code, names.store_kept(kept)?)?;
            let first = plus(kept, 1)?;
            let tested = Tested::EqualTo { kept, ty };
            let next = emit_whens(names, code, first, tested, whens.as_slice())?;
            let last = emit_otherwise(names, code, next, otherwise)?;
            end_chain(code, at)?;
            Ok(last)
        }
        Statement::Block { body, .. } => {
            let next = emit_statements(names, code, kept, body.as_slice())?;
            Ok(next)
        }
        Statement::Count {
            place,
            variable,
            start,
            end,
            step,
            body,
        } => {
            emit_count_values(names, code, start, end, step)?;
            let has_step = step.is_some();
            let head = CountHead {
                place: *place,
                variable,
                has_step,
            };
            let started = open_count(names, code, kept, head)?;
            let first = plus(started.end, 1)?;
            let next = emit_statements(names, code, first, body.as_slice())?;
            close_count(names, code, kept, head, started)?;
            Ok(next)
        }
        Statement::While {
            place,
            condition,
            body,
        } => {
            let started = open_while(names, code, *place, condition)?;
            let next = emit_statements(names, code, kept, body.as_slice())?;
            close_while(code, started)?;
            Ok(next)
        }
        Statement::Until {
            place,
            condition,
            body,
        } => {
            let first = position(code)?;
            let next = emit_statements(names, code, kept, body.as_slice())?;
            close_until(names, code, *place, condition, first)?;
            Ok(next)
        }
    }
}
