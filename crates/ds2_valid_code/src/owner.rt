//! Whose code an instruction is.
ghost use Rattle.std.specs.Prelude.{◌≡◌, ◌<◌, ◌^◌, ◌++◌, length, ℕ, Vec, Some, None, OnOk, IfOk, if◌then◌else◌};
ghost use Rattle.std.specs.declared.alloc.Global.{Global as Heap};
ghost use Rattle.ds2_code.specs.OperandTypes.{signature_of};
ghost use Rattle.ds2_valid_code.specs.CodeScan.{method_points, same_owner};
ghost use Rattle.ds2_valid_code.specs.SignatureCodes.{type_code, parameter_code, list_code, returns_code, signature_code, same_code, number_of_code, found_or};

use ds2_base::{List, OutOfMemory};
use ds2_code::{MethodPart, ParameterPart};
use ds2_value::Ty;
use std::alloc::Global;
use std::collections::BTreeMap;

/// Whose code an instruction is: a unit's, or a method's, by the number of the first method with an equal signature.
#[derive(Clone, Copy, PartialEq, Eq)]
pub(crate) enum CodeOwner {
    Unit,
    Method(u32),
}

/// Where code may be entered, and whose it is.
#[derive(Clone, Copy, PartialEq, Eq)]
pub(crate) struct EntryPoint {
    pub(crate) at: u32,
    pub(crate) owner: CodeOwner,
}

pub(crate) fn same_owner(a: CodeOwner, b: CodeOwner) -> bool
    ensures { result ≡ same_owner a b }
{
    match (a, b) {
        (CodeOwner::Unit, CodeOwner::Unit) => true,
        (CodeOwner::Unit, CodeOwner::Method(_)) => false,
        (CodeOwner::Method(_), CodeOwner::Unit) => false,
        (CodeOwner::Method(j), CodeOwner::Method(k)) => j == k,
    }
}

fn push_type(code: &mut List<u16>, ty: Ty) -> Result<(), OutOfMemory>
    ensures { OnOk result (code.new ≡ code.old ++ type_code ty) }
{
    match ty {
        Ty::BigInt => code.append(&[1]),
        Ty::Decimal { p, s } => code.append(&[2, p as u16, s as u16]),
        Ty::Char { n } => code.append(&[3, n]),
        Ty::Varchar { n } => code.append(&[4, n]),
    }
}

fn push_parameter(code: &mut List<u16>, parameter: ParameterPart) -> Result<(), OutOfMemory>
    ensures { OnOk result (code.new ≡ code.old ++ parameter_code parameter) }
{
    code.append(&[if parameter.is_in_out { 2 } else { 1 }])?;
    push_type(code, parameter.ty)
}

fn push_parameters(code: &mut List<u16>, parameters: &[ParameterPart]) -> Result<(), OutOfMemory>
    ensures { OnOk result (code.new ≡ code.old ++ list_code parameter_code parameters.now) }
{
    'parameters: for parameter in parameters {
        push_parameter(code, *parameter)?;
    }
    code.append(&[0])
}

fn push_types(code: &mut List<u16>, types: &[Ty]) -> Result<(), OutOfMemory>
    ensures { OnOk result (code.new ≡ code.old ++ list_code type_code types.now) }
{
    'types: for ty in types {
        push_type(code, *ty)?;
    }
    code.append(&[0])
}

fn push_returns(code: &mut List<u16>, returns: Option<Ty>) -> Result<(), OutOfMemory>
    ensures { OnOk result (code.new ≡ code.old ++ returns_code returns) }
{
    match returns {
        None => code.append(&[0]),
        Some(ty) => push_type(code, ty),
    }
}

// The numbers that spell a method's signature.
fn signature_code(alloc: Global, method: &MethodPart) -> Result<List<u16>, OutOfMemory>
    ensures { IfOk result (λ code. code ≡ signature_code (signature_of method.now)) }
{
    let mut code = List::new(alloc);
    push_parameters(&mut code, method.parameters.as_slice())?;
    push_types(&mut code, method.locals.as_slice())?;
    push_returns(&mut code, method.returns)?;
    Ok(code)
}

// The number of a signature; where it has none yet, it gets the next one.
fn number_of(
    numbers: &mut BTreeMap<Vec<u16>, u32>,
    signature: Vec<u16>,
    next: u32,
) -> Result<u32, OutOfMemory>
    ensures number { IfOk result (λ number. Some number ≡ found_or (number_of_code numbers.old signature.items) (Some next)) }
    ensures numbers { OnOk result ((other : Vec ℕ Heap) → number_of_code numbers.new other.items ≡ found_or (number_of_code numbers.old other.items) (if same_code signature.items other.items then Some next else None)) }
{
    if let Some(number) = numbers.get(&signature) {
        return Ok(*number);
    }
    numbers.insert(signature, next)?;
    Ok(next)
}

/// Where each method begins, and whose code it is.
pub(crate) fn method_points(
    alloc: Global,
    methods: &[MethodPart],
) -> Result<Vec<EntryPoint>, OutOfMemory>
    requires { length methods.now < 2 ^ 32 }
    ensures { IfOk result (λ points. points.items ≡ method_points methods.now methods.now) }
{
    let mut numbers: BTreeMap<Vec<u16>, u32> = BTreeMap::new(alloc);
    let mut points: Vec<EntryPoint> = Vec::new(alloc);
    let mut next: u32 = 0;
    'methods: for method in methods {
        let signature = signature_code(alloc, method)?.into_vec();
        let number = number_of(&mut numbers, signature, next)?;
        points.push(EntryPoint {
            at: method.entry,
            owner: CodeOwner::Method(number),
        })?;
        next += 1;
    }
    Ok(points)
}
