//! The instructions of expressions.
ghost use Rattle.std.specs.Prelude.{◌≡◌, OnOk, IfOk, List as Items, map};
ghost use Rattle.ds2_meaning.specs.IsTyped.{expression_type, chain_type};
ghost use Rattle.ds2_meaning.specs.TypedExpression.{Links, NoLink, TypedArguments, NoArgument};
ghost use Rattle.ds2_meaning.specs.View.{in_a_row, all_expressions, typed_expression, call_tree, link_tree, argument_tree};
ghost use Rattle.ds2_code.specs.declared.instr.Instr.{Instr as InstrModel};
ghost use Rattle.ds2_emitter.specs.Emit.{with_instruction, with_expression, with_expressions, with_links, with_arguments, with_back, with_method_call};

use crate::Numbering;
use crate::runs::{
    comparison_instr, emit, emit_conversion, emit_function, emit_left_operand, emit_operand,
    emit_prefix, operation_instr,
};
use ds2_base::{List, OutOfMemory};
use ds2_code::Instr;
use ds2_meaning::{Argument, Call, Expression, Link};
use ds2_value::Ty;

// Adds the code of a further operand of a chain, behind operands of a type, so that what follows makes the code of the whole.
#[cycle(emit)]
#[tactic(auto, using(crate::proofs::Appended::link_emitted))]
fn emit_link<N: Numbering>(
    names: &N,
    code: &mut List<Instr>,
    ty: Ty,
    link: &Link,
) -> Result<(), OutOfMemory>
    ensures { (rest : Links) → OnOk result (with_links (N.numbers names.now) link.now.ty rest code.new ≡ with_links (N.numbers names.now) ty (link_tree link.now rest) code.old) }
{
    emit_left_operand(code, link.widens, link.operation, ty)?;
    let other = emit_expression(names, code, &link.operand)?;
    emit_operand(code, link.operation, other)?;
    emit(code, operation_instr(link.operation))
}

// Adds the code of the further operands of a chain, and tells the type of the whole.
#[cycle(emit)]
#[tactic(auto, using(crate::proofs::Appended::no_link_emitted))]
fn emit_links<N: Numbering>(
    names: &N,
    code: &mut List<Instr>,
    first: Ty,
    links: &[Link],
) -> Result<Ty, OutOfMemory>
    ensures code { OnOk result (code.new ≡ with_links (N.numbers names.now) first (in_a_row (map link_tree links.now) NoLink) code.old) }
    ensures ty { IfOk result (λ ty. ty ≡ chain_type first (in_a_row (map link_tree links.now) NoLink)) }
{
    let mut ty = first;
    'links: for link in links {
        emit_link(names, code, ty, link)?;
        ty = link.ty;
    }
    Ok(ty)
}

// Adds the code of expressions in order.
#[cycle(emit)]
#[tactic(auto, using(crate::proofs::Appended::then_emitted, crate::proofs::Appended::no_expression_emitted))]
fn emit_expressions<N: Numbering>(
    names: &N,
    code: &mut List<Instr>,
    expressions: &[Expression],
) -> Result<(), OutOfMemory>
    ensures { OnOk result (code.new ≡ with_expressions (N.numbers names.now) (all_expressions (map typed_expression expressions.now)) code.old) }
{
    'expressions: for e in expressions {
        emit_expression(names, code, e)?;
    }
    Ok(())
}

// Adds the code of an argument, so that what follows makes the code of the whole.
#[cycle(emit)]
#[tactic(auto, using(crate::proofs::Appended::value_emitted, crate::proofs::Appended::in_out_emitted))]
fn emit_argument<N: Numbering>(
    names: &N,
    code: &mut List<Instr>,
    argument: &Argument,
) -> Result<(), OutOfMemory>
    ensures { (rest : TypedArguments) → OnOk result (with_arguments (N.numbers names.now) rest code.new ≡ with_arguments (N.numbers names.now) (argument_tree argument.now rest) code.old) }
{
    match argument {
        Argument::Value(e) => {
            emit_expression(names, code, e)?;
            Ok(())
        }
        Argument::InOut(variable) => emit(code, names.load(variable, Ty::BigInt)?),
    }
}

// Adds the code of arguments in order.
#[cycle(emit)]
#[tactic(auto, using(crate::proofs::Appended::no_argument_emitted))]
fn emit_arguments<N: Numbering>(
    names: &N,
    code: &mut List<Instr>,
    arguments: &[Argument],
) -> Result<(), OutOfMemory>
    ensures { OnOk result (code.new ≡ with_arguments (N.numbers names.now) (in_a_row (map argument_tree arguments.now) NoArgument) code.old) }
{
    'arguments: for argument in arguments {
        emit_argument(names, code, argument)?;
    }
    Ok(())
}

// Adds the instruction that stores what an argument gets back, where it gets something, behind those of the arguments behind it.
#[tactic(auto, using(crate::proofs::Appended::value_back, crate::proofs::Appended::in_out_back))]
fn emit_back_one<N: Numbering>(
    names: &N,
    code: &mut List<Instr>,
    argument: &Argument,
) -> Result<(), OutOfMemory>
    ensures { (rest : TypedArguments) (before : Items InstrModel) → code.old ≡ with_back (N.numbers names.now) rest before → OnOk result (code.new ≡ with_back (N.numbers names.now) (argument_tree argument.now rest) before) }
{
    match argument {
        Argument::Value(_) => Ok(()),
        Argument::InOut(variable) => emit(code, names.store(variable)?),
    }
}

// Adds the code that stores what is handed back, the last one first.
fn emit_back<N: Numbering>(
    names: &N,
    code: &mut List<Instr>,
    arguments: &[Argument],
) -> Result<(), OutOfMemory>
    ensures { OnOk result (code.new ≡ with_back (N.numbers names.now) (in_a_row (map argument_tree arguments.now) NoArgument) code.old) }
{
    let mut i = arguments.len();
    'arguments: while i > 0 {
        i -= 1;
        emit_back_one(names, code, &arguments[i])?;
    }
    Ok(())
}

/// Adds the code of a call: its arguments, the call, and what it hands back. The result, where there is one, lies on top.
#[cycle(emit)]
pub fn emit_call<N: Numbering>(
    names: &N,
    code: &mut List<Instr>,
    call: &Call,
) -> Result<(), OutOfMemory>
    ensures { OnOk result (code.new ≡ with_method_call (N.numbers names.now) (call_tree call.now) code.old) }
{
    let arguments = call.arguments.as_slice();
    emit_arguments(names, code, arguments)?;
    emit(code, names.call(&call.instance, call.method)?)?;
    emit_back(names, code, arguments)
}

/// Adds the code of a call by an instruction, with these arguments, and of what it hands back.
pub fn emit_called<N: Numbering>(
    names: &N,
    code: &mut List<Instr>,
    call: Instr,
    arguments: &[Argument],
) -> Result<(), OutOfMemory>
    ensures { let all = in_a_row (map argument_tree arguments.now) NoArgument in OnOk result (code.new ≡ with_back (N.numbers names.now) all (with_instruction call (with_arguments (N.numbers names.now) all code.old))) }
{
    emit_arguments(names, code, arguments)?;
    emit(code, call)?;
    emit_back(names, code, arguments)
}

/// Adds the code of an expression, and tells its type.
#[cycle(emit)]
#[tactic(auto, using(crate::proofs::Appended::constant_emitted, crate::proofs::Appended::variable_emitted, crate::proofs::Appended::widen_emitted, crate::proofs::Appended::convert_emitted, crate::proofs::Appended::prefixed_emitted, crate::proofs::Appended::chain_emitted, crate::proofs::Appended::compared_emitted, crate::proofs::Appended::applied_emitted, crate::proofs::Appended::called_emitted, crate::proofs::Appended::hash_emitted, crate::proofs::Appended::iterator_emitted))]
pub fn emit_expression<N: Numbering>(
    names: &N,
    code: &mut List<Instr>,
    e: &Expression,
) -> Result<Ty, OutOfMemory>
    ensures code { OnOk result (code.new ≡ with_expression (N.numbers names.now) (typed_expression e.now) code.old) }
    ensures ty { IfOk result (λ ty. ty ≡ expression_type (typed_expression e.now)) }
{
    match e {
        Expression::Constant { value, ty } => {
            emit(code, names.constant(value, *ty)?)?;
            Ok(*ty)
        }
        Expression::Variable { variable, ty } => {
            emit(code, names.load(variable, *ty)?)?;
            Ok(*ty)
        }
        Expression::Widen { operand } => {
            emit_expression(names, code, operand)?;
            emit(code, Instr::IToD)?;
            Ok(Ty::Decimal { p: 19, s: 0 })
        }
        Expression::Convert { operand, ty } => {
            emit_expression(names, code, operand)?;
            emit_conversion(code, *ty)?;
            Ok(*ty)
        }
        Expression::Prefixed {
            prefix,
            operand,
            ty,
        } => {
            let from = emit_expression(names, code, operand)?;
            emit_prefix(code, *prefix, from)?;
            Ok(*ty)
        }
        Expression::Chain { first, links } => {
            let ty = emit_expression(names, code, first)?;
            emit_links(names, code, ty, links.as_slice())
        }
        Expression::Compared {
            comparison,
            left,
            right,
        } => {
            let ty = emit_expression(names, code, left)?;
            emit_expression(names, code, right)?;
            emit(code, comparison_instr(ty, *comparison))?;
            Ok(Ty::BigInt)
        }
        Expression::Applied {
            function,
            arguments,
            ty,
        } => {
            emit_expressions(names, code, arguments.as_slice())?;
            emit_function(code, *function, arguments.len())?;
            Ok(*ty)
        }
        Expression::Called { call, ty } => {
            emit_call(names, code, call)?;
            Ok(*ty)
        }
        Expression::HashCalled { hash, function } => {
            emit(code, names.hash_call(hash, *function)?)?;
            Ok(Ty::BigInt)
        }
        Expression::IteratorCalled { iterator, function } => {
            emit(code, names.iterator_call(iterator, *function)?)?;
            Ok(Ty::BigInt)
        }
    }
}
