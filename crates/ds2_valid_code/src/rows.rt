//! The types of operands behind each instruction.
ghost use Rattle.std.specs.Prelude.{◌≡◌, ◌∷◌, ◌++◌, Some, None, IfOk, if◌then◌else◌, slice_get};
ghost use Rattle.std.specs.Option.{option_map};
ghost use Rattle.ds2_code.specs.declared.parts.Constant.{Constant as ConstantModel};
ghost use Rattle.ds2_value.specs.declared.ty.Ty.TheVariants.{BigInt};
ghost use Rattle.ds2_code.specs.OperandTypes.{types_of_parameters, types_of_locals, when_there, return_types, result_types, end_types, type_of_parameter, types_behind, without_result, with_only_result};
ghost use Rattle.ds2_code.specs.ValidCode.{stage_parameters};
ghost use Rattle.ds2_valid_code.specs.CodeScan.{owner_role};

use crate::layout::slot_type;
use crate::owner::CodeOwner;
use crate::results::{
    ScaleRule, applied, both_texts, call, choice, choice_of_numbers, conversion, decimals,
    drop_one, line, load, nothing, null, only, operation, same_decimal, store,
};
use crate::stack::TypeStack;
use ds2_base::OutOfMemory;
use ds2_code::{Constant, HashPart, Instr, MethodPart, OutputPart, ProgramParts};
use ds2_value::{OperandClass, TEXT_CHARACTERS, Ty};

fn constant_type(constants: &[Constant], k: u32) -> Option<Ty>
    ensures { result ≡ option_map (λ (c : ConstantModel). c.ty) (slice_get constants.now k) }
{
    match constants.get(k as usize) {
        None => None,
        Some(constant) => Some(constant.ty),
    }
}

fn method_local_type(method: &MethodPart, n: usize) -> Option<Ty>
    ensures { result ≡ slice_get (types_of_parameters method.now.parameters ++ method.now.locals) n }
{
    let parameters = method.parameters.len();
    if n < parameters {
        method.parameters.get(n).map(|parameter| parameter.ty)
    } else {
        method.locals.get(n - parameters).copied()
    }
}

fn local_type(methods: &[MethodPart], owner: CodeOwner, n: u32) -> Option<Ty>
    ensures { result ≡ slice_get (types_of_locals (owner_role methods.now owner)) n }
{
    match owner {
        CodeOwner::Unit => None,
        CodeOwner::Method(k) => match methods.get(k as usize) {
            None => None,
            Some(method) => method_local_type(method, n as usize),
        },
    }
}

// The type of a parameter of the thread program that a program reads from.
fn parameter_type(stages: &[ProgramParts], j: u32) -> Option<Ty>
    ensures { result ≡ type_of_parameter (stage_parameters (slice_get stages.now 0)) j }
{
    match stages {
        [] => None,
        [stage, ..] => match stage.parameters.get(j as usize) {
            None => None,
            Some(n) => slot_type(stage.slots.as_slice(), *n),
        },
    }
}

fn names_output(types: &TypeStack, outputs: &[OutputPart], o: u32) -> bool
    ensures { when_there (slice_get outputs.now o) (Some types.now) ≡ (if result then Some types.now else None) }
{
    match outputs.get(o as usize) {
        None => false,
        Some(_) => true,
    }
}

fn hash_call(types: &mut TypeStack, hashes: &[HashPart], h: u32) -> Result<bool, OutOfMemory>
    ensures { IfOk result (λ ok. when_there (slice_get hashes.now h) (Some (BigInt ∷ types.old)) ≡ (if ok then Some types.new else None)) }
{
    match hashes.get(h as usize) {
        None => Ok(false),
        Some(_) => {
            types.push(Ty::BigInt)?;
            Ok(true)
        }
    }
}

fn iterator_call(types: &mut TypeStack, iterators: &[u32], i: u32) -> Result<bool, OutOfMemory>
    ensures { IfOk result (λ ok. when_there (slice_get iterators.now i) (Some (BigInt ∷ types.old)) ≡ (if ok then Some types.new else None)) }
{
    match iterators.get(i as usize) {
        None => Ok(false),
        Some(_) => {
            types.push(Ty::BigInt)?;
            Ok(true)
        }
    }
}

fn return_from(types: &TypeStack, method: &MethodPart) -> bool
    ensures { without_result method.now.returns types.now ≡ (if result then Some types.now else None) }
{
    match method.returns {
        None => nothing(types),
        Some(_) => false,
    }
}

fn return_alone(types: &TypeStack, methods: &[MethodPart], owner: CodeOwner) -> bool
    ensures { return_types (owner_role methods.now owner) types.now ≡ (if result then Some types.now else None) }
{
    match owner {
        CodeOwner::Unit => false,
        CodeOwner::Method(k) => match methods.get(k as usize) {
            None => false,
            Some(method) => return_from(types, method),
        },
    }
}

fn result_from(types: &mut TypeStack, method: &MethodPart) -> bool
    ensures { with_only_result method.now.returns types.old ≡ (if result then Some types.new else None) }
{
    match method.returns {
        None => false,
        Some(ty) => only(types, ty),
    }
}

fn return_result(types: &mut TypeStack, methods: &[MethodPart], owner: CodeOwner) -> bool
    ensures { result_types (owner_role methods.now owner) types.old ≡ (if result then Some types.new else None) }
{
    match owner {
        CodeOwner::Unit => false,
        CodeOwner::Method(k) => match methods.get(k as usize) {
            None => false,
            Some(method) => result_from(types, method),
        },
    }
}

fn unit_end(types: &TypeStack, methods: &[MethodPart], owner: CodeOwner) -> bool
    ensures { end_types (owner_role methods.now owner) types.now ≡ (if result then Some types.now else None) }
{
    match owner {
        CodeOwner::Unit => nothing(types),
        CodeOwner::Method(k) => match methods.get(k as usize) {
            None => nothing(types),
            Some(_) => false,
        },
    }
}

// A whole number.
const WHOLE: OperandClass = OperandClass::OneType(Ty::BigInt);

/// Whether the operands suffice for an instruction; the types are then those behind it.
pub(crate) fn types_behind(
    types: &mut TypeStack,
    owner: CodeOwner,
    instr: Instr,
    code: &ProgramParts,
    stages: &[ProgramParts],
) -> Result<bool, OutOfMemory>
    ensures { IfOk result (λ ok. types_behind code.now (stage_parameters (slice_get stages.now 0)) (owner_role code.now.methods owner) instr types.old ≡ (if ok then Some types.new else None)) }
{
    match instr {
        Instr::Const(k) => load(types, constant_type(code.constants.as_slice(), k)),
        Instr::Null(ty) => null(types, ty),
        Instr::GLoad(n) => load(types, slot_type(code.slots.as_slice(), n)),
        Instr::GStore(n) => Ok(store(types, slot_type(code.slots.as_slice(), n))),
        Instr::LLoad(n) => load(types, local_type(code.methods.as_slice(), owner, n)),
        Instr::LStore(n) => Ok(store(types, local_type(code.methods.as_slice(), owner, n))),
        Instr::DropTop => Ok(drop_one(types, OperandClass::AnyType)),
        Instr::IToD => operation(types, &[WHOLE], Ty::Decimal { p: 19, s: 0 }),
        Instr::Rescale(p, s) => conversion(types, OperandClass::AnyDecimal, Ty::Decimal { p, s }),
        Instr::Pad(n) => conversion(types, OperandClass::AnyText, Ty::Char { n }),
        Instr::Cut(n) => conversion(types, OperandClass::AnyText, Ty::Varchar { n }),
        Instr::IAdd | Instr::ISub | Instr::IMul | Instr::ICmp(_) | Instr::And | Instr::Or =>
            operation(types, &[WHOLE, WHOLE], Ty::BigInt),
        Instr::INeg | Instr::Not | Instr::ITruth => operation(types, &[WHOLE], Ty::BigInt),
        Instr::DAdd | Instr::DSub => decimals(types, ScaleRule::Greater),
        Instr::DMul => decimals(types, ScaleRule::Sum),
        Instr::DDiv => decimals(types, ScaleRule::Quotient),
        Instr::DNeg => same_decimal(types),
        Instr::DCmp(_) => operation(
            types,
            &[OperandClass::AnyDecimal, OperandClass::AnyDecimal],
            Ty::BigInt,
        ),
        Instr::TCmp(_) => operation(
            types,
            &[OperandClass::AnyText, OperandClass::AnyText],
            Ty::BigInt,
        ),
        Instr::DTruth => operation(types, &[OperandClass::AnyDecimal], Ty::BigInt),
        Instr::Apply(function) => applied(types, function),
        Instr::Choose(n) => choice(types, 1, n),
        Instr::Least(n) | Instr::Greatest(n) => choice_of_numbers(types, n),
        Instr::Cat => both_texts(types),
        Instr::Tick(_) | Instr::NoWhen => Ok(true),
        Instr::Jump(_) => Ok(nothing(types)),
        Instr::JFalse(_) | Instr::JTrue(_) => Ok(only(types, Ty::BigInt)),
        Instr::Call(m) => call(types, code.methods.as_slice(), m),
        Instr::Ret => Ok(return_alone(types, code.methods.as_slice(), owner)),
        Instr::RetV => Ok(return_result(types, code.methods.as_slice(), owner)),
        Instr::Output(o) => Ok(names_output(types, code.outputs.as_slice(), o)),
        Instr::Show => operation(
            types,
            &[OperandClass::AnyType],
            Ty::Varchar { n: TEXT_CHARACTERS },
        ),
        Instr::Put(n) => Ok(line(types, n)),
        Instr::HCall(h, _) => hash_call(types, code.hashes.as_slice(), h),
        Instr::ICall(i, _) => iterator_call(types, code.iterators.as_slice(), i),
        Instr::SetParm(j) => Ok(store(types, parameter_type(stages, j))),
        Instr::End => Ok(unit_end(types, code.methods.as_slice(), owner)),
    }
}
