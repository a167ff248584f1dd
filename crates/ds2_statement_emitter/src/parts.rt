//! The instructions of parts of statements.
ghost use Rattle.std.specs.Prelude.{◌≡◌, ◌∷◌, List as Items, length, map, OnOk, IfOk};
ghost use Rattle.std.specs.Option.{option_map};
ghost use Rattle.ds2_meaning.specs.TypedStatement.{Item};
ghost use Rattle.ds2_meaning.specs.View.{typed_expression, typed_statement, call_tree, item_tree, parameter_tree};
ghost use Rattle.ds2_gen.specs.StatementCode.{return_instr as return_of};
ghost use Rattle.ds2_emitter.specs.Dropped.{dropped_result};
ghost use Rattle.ds2_emitter.specs.Emit.{with_instruction, with_run};
ghost use Rattle.ds2_statement_emitter.specs.Arms.{statement_place};
ghost use Rattle.ds2_statement_emitter.specs.Marks.{marked_way};
ghost use Rattle.ds2_statement_emitter.specs.Appending.{with_all, with_condition, with_items, with_outputs, with_parameter_values, with_invoked, with_loop_step, with_open_jump, open_jump, with_open_test, open_test_jump};

use crate::aims::RETURN;
use ds2_base::{List, Name, OutOfMemory, Place};
use ds2_code::Instr;
use ds2_emitter::{Numbering, Returning, emit, emit_call, emit_expression, emit_truth};
use ds2_meaning::{Call, Expression, ParameterSetting, PutItem, Statement};

/// The place of a statement.
pub fn place_of(s: &Statement) -> Place
    ensures { result ≡ statement_place (typed_statement s.now) }
{
    match s {
        Statement::Empty { place } => *place,
        Statement::Assign { place, .. } => *place,
        Statement::Invoke { place, .. } => *place,
        Statement::Evaluate { place, .. } => *place,
        Statement::SetParameters { place, .. } => *place,
        Statement::Leave { place } => *place,
        Statement::Continue { place } => *place,
        Statement::Return { place } => *place,
        Statement::ReturnValue { place, .. } => *place,
        Statement::Output { place, .. } => *place,
        Statement::Put { place, .. } => *place,
        Statement::If { place, .. } => *place,
        Statement::Select { place, .. } => *place,
        Statement::SelectValue { place, .. } => *place,
        Statement::Block { place, .. } => *place,
        Statement::Count { place, .. } => *place,
        Statement::While { place, .. } => *place,
        Statement::Until { place, .. } => *place,
    }
}

/// The instruction of a `return` without a value.
pub fn return_instr(way: Returning) -> Instr
    ensures { result ≡ return_of (marked_way way) }
{
    match way {
        Returning::ToEnd => Instr::Jump(RETURN),
        Returning::WithResult => Instr::RetV,
        Returning::WithoutResult => Instr::Ret,
    }
}

/// Adds instructions one behind the other.
#[tactic(auto, using(crate::proofs::PartRuns::all_added))]
pub fn emit_all(code: &mut List<Instr>, instrs: &[Instr]) -> Result<(), OutOfMemory>
    ensures { OnOk result (code.new ≡ with_all instrs.now code.old) }
{
    code.append(instrs)
}

/// Adds the code of a condition.
#[tactic(auto, using(crate::proofs::PartRuns::condition_added))]
pub fn emit_condition<N: Numbering>(
    names: &N,
    code: &mut List<Instr>,
    condition: &Expression,
) -> Result<(), OutOfMemory>
    ensures { OnOk result (code.new ≡ with_condition (N.numbers names.now) (typed_expression condition.now) code.old) }
{
    let ty = emit_expression(names, code, condition)?;
    emit_truth(code, ty)
}

/// Adds the condition of a test, and the jump where it does not hold, which it leaves open. Tells the jump's number.
pub fn emit_open_jump<N: Numbering>(
    names: &N,
    code: &mut List<Instr>,
    condition: &Expression,
) -> Result<usize, OutOfMemory>
    ensures code { OnOk result (code.new ≡ with_open_jump (N.numbers names.now) (typed_expression condition.now) code.old) }
    ensures jump { IfOk result (λ hole. hole ≡ open_jump (N.numbers names.now) (typed_expression condition.now) code.old) }
{
    emit_condition(names, code, condition)?;
    let hole = code.len();
    emit(code, Instr::JFalse(0))?;
    Ok(hole)
}

/// Adds the step of a test before its condition and the jump, which it leaves open. Tells the jump's number.
pub fn emit_open_test<N: Numbering>(
    names: &N,
    code: &mut List<Instr>,
    place: Place,
    condition: &Expression,
) -> Result<usize, OutOfMemory>
    ensures code { OnOk result (code.new ≡ with_open_test (N.numbers names.now) place (typed_expression condition.now) code.old) }
    ensures jump { IfOk result (λ hole. hole ≡ open_test_jump (N.numbers names.now) place (typed_expression condition.now) code.old) }
{
    emit(code, Instr::Tick(place))?;
    let hole = emit_open_jump(names, code, condition)?;
    Ok(hole)
}

/// Adds a row to each of these outputs.
#[tactic(auto, using(crate::proofs::PartRuns::no_output_added, crate::proofs::PartRuns::output_added))]
pub fn emit_outputs(code: &mut List<Instr>, outputs: &[u32]) -> Result<(), OutOfMemory>
    ensures { OnOk result (code.new ≡ with_outputs outputs.now code.old) }
{
    'outputs: for output in outputs {
        emit(code, Instr::Output(*output))?;
    }
    Ok(())
}

// Adds the text of an item of a line, so that what follows makes the texts of the whole.
#[tactic(auto, using(crate::proofs::PartRuns::text_added, crate::proofs::PartRuns::shown_added, crate::proofs::PartRuns::labelled_added))]
fn emit_item<N: Numbering>(
    names: &N,
    code: &mut List<Instr>,
    item: &PutItem,
) -> Result<(), OutOfMemory>
    ensures { (rest : Items Item) → OnOk result (with_items (N.numbers names.now) rest code.new ≡ with_items (N.numbers names.now) (item_tree item.now ∷ rest) code.old) }
{
    match item {
        PutItem::Constant(text) => emit(code, names.text(text)?),
        PutItem::Value(e) => {
            emit_expression(names, code, e)?;
            emit(code, Instr::Show)
        }
        PutItem::Named { name, value } => {
            emit(code, names.label(name)?)?;
            emit_expression(names, code, value)?;
            emit_all(code, &[Instr::Show, Instr::Cat])
        }
    }
}

// Adds the texts of the items of a line.
fn emit_items<N: Numbering>(
    names: &N,
    code: &mut List<Instr>,
    items: &[PutItem],
) -> Result<(), OutOfMemory>
    ensures { OnOk result (code.new ≡ with_items (N.numbers names.now) (map item_tree items.now) code.old) }
{
    'items: for item in items {
        emit_item(names, code, item)?;
    }
    Ok(())
}

/// Adds the texts of the items of a line, and writes it; want of memory where there are more than 2 ^ 32 items.
pub fn emit_line<N: Numbering>(
    names: &N,
    code: &mut List<Instr>,
    items: &[PutItem],
) -> Result<(), OutOfMemory>
    ensures { OnOk result (code.new ≡ with_instruction (Instr.Put (length items.now)) (with_items (N.numbers names.now) (map item_tree items.now) code.old)) }
{
    let Ok(count) = u32::try_from(items.len()) else {
        return Err(OutOfMemory);
    };
    emit_items(names, code, items)?;
    emit(code, Instr::Put(count))
}

/// Adds the values of parameters of an instance of a thread program.
pub fn emit_parameters<N: Numbering>(
    names: &N,
    code: &mut List<Instr>,
    instance: &Name,
    values: &[ParameterSetting],
) -> Result<(), OutOfMemory>
    ensures { OnOk result (code.new ≡ with_parameter_values (N.numbers names.now) instance.now (map parameter_tree values.now) code.old) }
{
    'values: for setting in values {
        emit_expression(names, code, &setting.value)?;
        emit(code, names.store_parameter(instance, &setting.parameter)?)?;
    }
    Ok(())
}

/// Adds what drops a result, where there is one.
#[tactic(auto, using(ds2_emitter::proofs::Appended::no_run, ds2_emitter::proofs::Appended::one_run))]
pub fn emit_dropped(code: &mut List<Instr>, has_result: bool) -> Result<(), OutOfMemory>
    ensures { OnOk result (code.new ≡ with_run (dropped_result has_result) code.old) }
{
    if has_result {
        emit(code, Instr::DropTop)
    } else {
        Ok(())
    }
}

/// Adds the code of a call as a statement.
pub fn emit_invoked<N: Numbering>(
    names: &N,
    code: &mut List<Instr>,
    call: &Call,
) -> Result<(), OutOfMemory>
    ensures { OnOk result (code.new ≡ with_invoked (N.numbers names.now) (call_tree call.now) code.old) }
{
    emit_call(names, code, call)?;
    emit_dropped(code, names.has_result(&call.instance, call.method))
}

/// Adds the step of a counted loop, where one was given.
#[tactic(auto, using(crate::proofs::PartRuns::no_step_added, crate::proofs::PartRuns::step_added))]
pub fn emit_step<N: Numbering>(
    names: &N,
    code: &mut List<Instr>,
    step: &Option<Expression>,
) -> Result<(), OutOfMemory>
    ensures { OnOk result (code.new ≡ with_loop_step (N.numbers names.now) (option_map typed_expression step.now) code.old) }
{
    match step {
        None => Ok(()),
        Some(e) => {
            emit_expression(names, code, e)?;
            Ok(())
        }
    }
}
