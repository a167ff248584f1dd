//! Short runs of instructions for one step of an expression.
ghost use Rattle.std.specs.Prelude.{◌≡◌, ◌<◌, ◌^◌, OnOk, IfOk};
ghost use Rattle.ds2_meaning.specs.IsTyped.{class_of};
ghost use Rattle.ds2_gen.specs.ExpressionCode.{conversion_code, truth_code, prefix_code, operation_instr as instr_of, operand_code, widening_code, widened_type as type_widened, left_operand_code, comparison_instr as comparing, function_code};
ghost use Rattle.ds2_emitter.specs.Emit.{with_instruction, with_run};

use ds2_base::{List, OutOfMemory};
use ds2_code::Instr;
use ds2_meaning::{Function, Operation, Prefix};
use ds2_value::{Comparison, Ty};

/// Adds an instruction.
#[tactic(auto, unfolding(crate::specs::Emit::with_instruction))]
pub fn emit(code: &mut List<Instr>, instr: Instr) -> Result<(), OutOfMemory>
    ensures { OnOk result (code.new ≡ with_instruction instr code.old) }
{
    code.push(instr)
}

// A number of operands as an instruction has it; want of memory where it has more than 32 bits.
fn operands(n: usize) -> Result<u32, OutOfMemory>
    ensures { IfOk result (λ k. k ≡ n) }
{
    let Ok(k) = u32::try_from(n) else {
        return Err(OutOfMemory);
    };
    Ok(k)
}

/// A value becomes one of a type.
#[tactic(auto, using(crate::proofs::Appended::no_run, crate::proofs::Appended::one_run))]
pub fn emit_conversion(code: &mut List<Instr>, ty: Ty) -> Result<(), OutOfMemory>
    ensures { OnOk result (code.new ≡ with_run (conversion_code ty) code.old) }
{
    match ty {
        Ty::BigInt => Ok(()),
        Ty::Decimal { p, s } => emit(code, Instr::Rescale(p, s)),
        Ty::Char { n } => emit(code, Instr::Pad(n)),
        Ty::Varchar { n } => emit(code, Instr::Cut(n)),
    }
}

/// A number becomes a truth.
#[tactic(auto, using(crate::proofs::Appended::no_run, crate::proofs::Appended::one_run))]
pub fn emit_truth(code: &mut List<Instr>, ty: Ty) -> Result<(), OutOfMemory>
    ensures { OnOk result (code.new ≡ with_run (truth_code ty) code.old) }
{
    match ty {
        Ty::BigInt => Ok(()),
        Ty::Decimal { .. } => emit(code, Instr::DTruth),
        Ty::Char { .. } => Ok(()),
        Ty::Varchar { .. } => Ok(()),
    }
}

/// An operator before an operand of a type.
#[tactic(auto, using(crate::proofs::Appended::no_run, crate::proofs::Appended::one_run, crate::proofs::Appended::not_run))]
pub fn emit_prefix(code: &mut List<Instr>, prefix: Prefix, ty: Ty) -> Result<(), OutOfMemory>
    ensures { OnOk result (code.new ≡ with_run (prefix_code prefix ty) code.old) }
{
    match prefix {
        Prefix::IntegerNegate => emit(code, Instr::INeg),
        Prefix::DecimalNegate => emit(code, Instr::DNeg),
        Prefix::Plus => Ok(()),
        Prefix::Not => {
            emit_truth(code, ty)?;
            emit(code, Instr::Not)
        }
    }
}

/// The instruction of an operation.
pub fn operation_instr(operation: Operation) -> Instr
    ensures { result ≡ instr_of operation }
{
    match operation {
        Operation::IntegerAdd => Instr::IAdd,
        Operation::IntegerSubtract => Instr::ISub,
        Operation::IntegerMultiply => Instr::IMul,
        Operation::DecimalAdd => Instr::DAdd,
        Operation::DecimalSubtract => Instr::DSub,
        Operation::DecimalMultiply => Instr::DMul,
        Operation::DecimalDivide => Instr::DDiv,
        Operation::Concatenate => Instr::Cat,
        Operation::And => Instr::And,
        Operation::Or => Instr::Or,
    }
}

/// An operand of a type, as an operation takes it.
#[tactic(auto, using(crate::proofs::Appended::no_run))]
pub fn emit_operand(code: &mut List<Instr>, operation: Operation, ty: Ty) -> Result<(), OutOfMemory>
    ensures { OnOk result (code.new ≡ with_run (operand_code operation ty) code.old) }
{
    match operation {
        Operation::And => emit_truth(code, ty),
        Operation::Or => emit_truth(code, ty),
        Operation::IntegerAdd => Ok(()),
        Operation::IntegerSubtract => Ok(()),
        Operation::IntegerMultiply => Ok(()),
        Operation::DecimalAdd => Ok(()),
        Operation::DecimalSubtract => Ok(()),
        Operation::DecimalMultiply => Ok(()),
        Operation::DecimalDivide => Ok(()),
        Operation::Concatenate => Ok(()),
    }
}

// A value that is widened, where it is.
#[tactic(auto, using(crate::proofs::Appended::no_run, crate::proofs::Appended::one_run))]
fn emit_widening(code: &mut List<Instr>, widens: bool) -> Result<(), OutOfMemory>
    ensures { OnOk result (code.new ≡ with_run (widening_code widens) code.old) }
{
    if widens {
        emit(code, Instr::IToD)
    } else {
        Ok(())
    }
}

// The type of a value that is widened, where it is.
fn widened_type(widens: bool, ty: Ty) -> Ty
    ensures { result ≡ type_widened widens ty }
{
    if widens {
        Ty::Decimal { p: 19, s: 0 }
    } else {
        ty
    }
}

/// The left operand of a link, of a type.
#[tactic(auto, using(crate::proofs::Appended::left_run))]
pub fn emit_left_operand(
    code: &mut List<Instr>,
    widens: bool,
    operation: Operation,
    ty: Ty,
) -> Result<(), OutOfMemory>
    ensures { OnOk result (code.new ≡ with_run (left_operand_code widens operation ty) code.old) }
{
    emit_widening(code, widens)?;
    emit_operand(code, operation, widened_type(widens, ty))
}

/// The instruction of a comparison of values of a type.
pub fn comparison_instr(ty: Ty, comparison: Comparison) -> Instr
    ensures { result ≡ comparing (class_of ty) comparison }
{
    match ty {
        Ty::BigInt => Instr::ICmp(comparison),
        Ty::Decimal { .. } => Instr::DCmp(comparison),
        Ty::Char { .. } => Instr::TCmp(comparison),
        Ty::Varchar { .. } => Instr::TCmp(comparison),
    }
}

/// A function of so many arguments.
#[tactic(auto, using(crate::proofs::Appended::no_run, crate::proofs::Appended::one_run))]
pub fn emit_function(
    code: &mut List<Instr>,
    function: Function,
    n: usize,
) -> Result<(), OutOfMemory>
    ensures { OnOk result (code.new ≡ with_run (function_code function n) code.old) }
{
    match function {
        Function::Value(function) => emit(code, Instr::Apply(function)),
        Function::Coalesce => emit(code, Instr::Choose(operands(n)?)),
        Function::Least => emit(code, Instr::Least(operands(n)?)),
        Function::Greatest => emit(code, Instr::Greatest(operands(n)?)),
        Function::Unchanged => Ok(()),
    }
}
