//! The instructions of bodies: system methods and declared methods.
ghost use Rattle.std.specs.Prelude.{◌≡◌, ◌<◌, [], ◌∷◌, ◌++◌, length, OnOk};
ghost use Rattle.ds2_meaning.specs.TypedStatement.{TypedStatements};
ghost use Rattle.ds2_meaning.specs.View.{constructors_first, typed_method, typed_statements};
ghost use Rattle.ds2_gen.specs.BodyCode.{OfSystem, code_of_body};
ghost use Rattle.ds2_gen.specs.MethodCode.{method_code, method_ending};
ghost use Rattle.ds2_emitter.specs.Emit.{with_run};
ghost use Rattle.ds2_statement_emitter.specs.Appending.{with_statements};
ghost use Rattle.ds2_statement_emitter.specs.BodyWords.{method_returning, with_locals};
ghost use Rattle.ds2_statement_emitter.specs.Marks.{body_mark, body_aims, marked_exits, redirected};

use crate::aims::{Aims, BODY, END};
use crate::parts::{emit_all, emit_dropped, emit_outputs};
use crate::redirect::{position, redirect};
use crate::statements::emit_statements;
use ds2_base::{List, OutOfMemory};
use ds2_code::Instr;
use ds2_emitter::{Numbering, Returning, emit, emit_called};
use ds2_meaning::{Instance, Method, Statement, Variable};
use ds2_value::Ty;

// Sets the locals of a system method to null.
fn emit_locals<N: Numbering>(
    names: &N,
    code: &mut List<Instr>,
    locals: &[Variable],
) -> Result<(), OutOfMemory>
    ensures { OnOk result (code.new ≡ with_locals (N.numbers names.now) locals.now code.old) }
{
    'locals: for local in locals {
        let store = names.store_local(&local.name)?;
        emit_all(code, &[Instr::Null(local.ty), store])?;
    }
    Ok(())
}

// Gives the jumps out of a body, from an instruction on, their target behind the code.
fn end_body(code: &mut List<Instr>, from: usize) -> Result<(), OutOfMemory>
    ensures code { OnOk result (code.new ≡ redirected from (body_aims (length code.old)) code.old) }
    ensures small { OnOk result (length code.old < body_mark) }
{
    let end = position(code)?;
    let aims = Aims {
        leave: end,
        continue_to: end,
        return_to: end,
        end: END,
        body: BODY,
    };
    redirect(code, from, aims);
    Ok(())
}

// Adds what stands behind the statements of a method.
#[tactic(auto, using(crate::proofs::BodyRuns::one_behind, crate::proofs::BodyRuns::two_behind))]
fn emit_method_end(code: &mut List<Instr>, returns: Option<Ty>) -> Result<(), OutOfMemory>
    ensures { OnOk result (code.new ≡ with_run (method_ending returns) code.old) }
{
    match returns {
        None => emit(code, Instr::Ret),
        Some(ty) => emit_all(code, &[Instr::Null(ty), Instr::RetV]),
    }
}

/// Adds the code of a declared method.
pub fn emit_method<N: Numbering>(
    names: &N,
    code: &mut List<Instr>,
    method: &Method,
) -> Result<(), OutOfMemory>
    requires { N.way names.now ≡ method_returning method.now.returns }
    ensures { OnOk result (code.new ≡ code.old ++ method_code (N.numbers names.now) (length code.old) (typed_method method.now)) }
{
    let start = code.len();
    emit_statements(names, code, 0, method.body.as_slice())?;
    end_body(code, start)?;
    emit_method_end(code, method.returns)
}

// Adds the call of the constructor of an instance, where its package has one, so that what follows makes the code of the whole.
#[tactic(auto, using(crate::proofs::BodyRuns::not_constructed, crate::proofs::BodyRuns::constructed))]
fn emit_constructor<N: Numbering>(
    names: &N,
    code: &mut List<Instr>,
    instance: &Instance,
) -> Result<(), OutOfMemory>
    ensures { (rest : TypedStatements) → OnOk result (with_statements (N.numbers names.now) 0 (marked_exits (N.way names.now)) rest code.new ≡ with_statements (N.numbers names.now) 0 (marked_exits (N.way names.now)) (constructors_first (instance.now ∷ []) rest) code.old) }
{
    emit(code, Instr::Tick(instance.place))?;
    match instance.constructor {
        None => Ok(()),
        Some(method) => {
            let call = names.construct(&instance.name, method)?;
            emit_called(names, code, call, instance.arguments.as_slice())?;
            emit_dropped(code, names.constructor_has_result(&instance.name, method))
        }
    }
}

// Adds the calls of the constructors of instances, so that what follows makes the code of the whole.
fn emit_constructors<N: Numbering>(
    names: &N,
    code: &mut List<Instr>,
    instances: &[Instance],
) -> Result<(), OutOfMemory>
    ensures { (rest : TypedStatements) → OnOk result (with_statements (N.numbers names.now) 0 (marked_exits (N.way names.now)) rest code.new ≡ with_statements (N.numbers names.now) 0 (marked_exits (N.way names.now)) (constructors_first instances.now rest) code.old) }
{
    'instances: for instance in instances {
        emit_constructor(names, code, instance)?;
    }
    Ok(())
}

/// Adds the code of a system method with the constructors of instances before its statements, and a row to each of these outputs at its
/// end.
pub fn emit_system<N: Numbering>(
    names: &N,
    code: &mut List<Instr>,
    locals: &[Variable],
    instances: &[Instance],
    body: &[Statement],
    written: &[u32],
) -> Result<(), OutOfMemory>
    requires { N.way names.now ≡ Returning.ToEnd }
    ensures { OnOk result (code.new ≡ code.old ++ code_of_body (length code.old) (OfSystem (N.numbers names.now) (record { locals = locals.now; statements = constructors_first instances.now (typed_statements body.now) }) written.now)) }
{
    emit_locals(names, code, locals)?;
    let start = code.len();
    emit_constructors(names, code, instances)?;
    emit_statements(names, code, 0, body)?;
    end_body(code, start)?;
    emit_outputs(code, written)?;
    emit(code, Instr::End)
}
