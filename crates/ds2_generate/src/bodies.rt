//! The code of the bodies of a program.
ghost use Rattle.std.specs.Prelude.{◌≡◌, ◌∷◌, [], ◌++◌, List as Items, length, map, flat_map, IfOk, OnOk};
ghost use Rattle.ds2_meaning.specs.declared.globals.Variable.{Variable as VariableModel};
ghost use Rattle.ds2_meaning.specs.View.{init_tree, instance_tree, system_tree, typed_method};
ghost use Rattle.ds2_gen.specs.BodyCode.{OfSystem, code_of_body};
ghost use Rattle.ds2_gen.specs.MethodCode.{method_code, parameter_part};
ghost use Rattle.ds2_program_code.specs.KeptTypes.{all_types_kept};
ghost use Rattle.ds2_program_code.specs.CodeMethods.{CodeMethod, methods_at};
ghost use Rattle.ds2_program_code.specs.ProgramCode.{system_numbers, method_numbers, method_part};
ghost use Rattle.ds2_numbering.specs.BodyTrees.{numbers_of_body};
ghost use Rattle.ds2_numbering.specs.FrameNumbers.{body_in, frame_numbers};
ghost use Rattle.ds2_numbering.specs.SoughtLocations.{home_of_name};
ghost use Rattle.ds2_generate.specs.UnitBodies.{IsLaidOut, tree_of_unit, with_declared, with_method_parts, instance_code_methods};

use crate::slots::add_variable_types;
use crate::unit::Unit;
use ds2_base::{List, OutOfMemory};
use ds2_body_survey::add_kept_types;
use ds2_code::{Instr, MethodPart, ParameterPart};
use ds2_meaning::{Instance, Method, Parameter, Statement, SystemMethod, Variable};
use ds2_numbering::{BodyNumbers, Frame, HomeName, MethodTable, VariableTable};
use ds2_statement_emitter::{emit_method, emit_system};
use ds2_value::Ty;
use std::alloc::Global;

/// A number of an instruction; want of memory where it has more than 32 bits.
pub fn number(n: usize) -> Result<u32, OutOfMemory>
    ensures { IfOk result (λ k. k ≡ n) }
{
    match u32::try_from(n) {
        Ok(k) => Ok(k),
        Err(_) => Err(OutOfMemory),
    }
}

// What the code of a body of a program finds fixed.
fn names_of<'p, 't, 'f>(unit: &Unit<'p, 't>, frame: Frame<'p, 'f>) -> BodyNumbers<'p, 't, 'f>
    ensures numbers { numbers_of_body result ≡ frame_numbers unit.now.slots.now unit.now.constants.now (tree_of_unit unit.now) frame.entry }
    ensures frame { result.frame ≡ frame.entry }
{
    BodyNumbers {
        alloc: unit.alloc,
        program: unit.program,
        parameters: unit.parameters,
        slots: unit.slots,
        constants: unit.constants,
        frame,
    }
}

// A system method by its parts.
#[derive(Clone, Copy)]
struct SystemParts<'p> {
    locals: &'p [Variable],
    instances: &'p [Instance],
    body: &'p [Statement],
}

// Adds the code of a system method, whose own slots begin at a number.
fn emit_body<'p>(
    unit: &Unit<'p, '_>,
    code: &mut List<Instr>,
    first: u32,
    parts: SystemParts<'p>,
    written: &[u32],
) -> Result<(), OutOfMemory>
    requires { IsLaidOut unit.now }
    ensures { let tree = body_in parts.entry.locals.now parts.entry.instances.now parts.entry.body.now in OnOk result (code.new ≡ code.old ++ code_of_body (length code.old) (OfSystem (system_numbers (tree_of_unit unit.now) first tree) tree written.now)) }
{
    let SystemParts {
        locals,
        instances,
        body,
    } = parts;
    let table = VariableTable::new(unit.alloc, locals)?;
    let frame = Frame::System {
        first,
        locals: &table,
        instances,
        body,
    };
    let names = names_of(unit, frame);
    emit_system(&names, code, locals, instances, body, written)
}

/// Adds the code of a system method whose own slots begin at a number, with the constructors of instances before its statements, and a row
/// to each of these outputs at its end.
pub fn emit_system_method<'p>(
    unit: &Unit<'p, '_>,
    code: &mut List<Instr>,
    first: u32,
    instances: &'p [Instance],
    method: &'p Option<SystemMethod>,
    written: &[u32],
) -> Result<(), OutOfMemory>
    requires { IsLaidOut unit.now }
    ensures { let tree = init_tree instances.now (system_tree method.now) in OnOk result (code.new ≡ code.old ++ code_of_body (length code.old) (OfSystem (system_numbers (tree_of_unit unit.now) first tree) tree written.now)) }
{
    match method {
        None => {
            let locals: &'p [Variable] = &[];
            let body: &'p [Statement] = &[];
            let parts = SystemParts {
                locals,
                instances,
                body,
            };
            emit_body(unit, code, first, parts, written)
        }
        Some(method) => {
            let locals = method.locals.as_slice();
            let body = method.body.as_slice();
            let parts = SystemParts {
                locals,
                instances,
                body,
            };
            emit_body(unit, code, first, parts, written)
        }
    }
}

// The parameters of a method.
fn parameter_parts(
    alloc: Global,
    parameters: &[Parameter],
) -> Result<List<ParameterPart>, OutOfMemory>
    ensures { IfOk result (λ parts. parts ≡ map parameter_part parameters.now) }
{
    let mut parts = List::new(alloc);
    'parameters: for parameter in parameters {
        parts.push(ParameterPart {
            ty: parameter.ty,
            is_in_out: parameter.is_in_out,
        })?;
    }
    Ok(parts)
}

// The types of the locals of a method, and behind them those of the values that its code keeps.
fn local_types(alloc: Global, method: &Method) -> Result<List<Ty>, OutOfMemory>
    ensures { IfOk result (λ types. types ≡ map (λ (v : VariableModel). v.ty) method.now.locals ++ all_types_kept (typed_method method.now).body) }
{
    let mut types = List::new(alloc);
    add_variable_types(&mut types, method.locals.as_slice())?;
    add_kept_types(&mut types, method.body.as_slice())?;
    Ok(types)
}

// The part of a method whose code begins at a number.
fn part_of_method(alloc: Global, entry: u32, method: &Method) -> Result<MethodPart, OutOfMemory>
    ensures { IfOk result (λ part. part ≡ method_part entry (typed_method method.now)) }
{
    Ok(MethodPart {
        entry,
        parameters: parameter_parts(alloc, method.parameters.as_slice())?,
        locals: local_types(alloc, method)?,
        returns: method.returns,
    })
}

// Adds the code of a declared method of a home, and its part.
fn emit_declared<'p>(
    unit: &Unit<'p, '_>,
    code: &mut List<Instr>,
    parts: &mut List<MethodPart>,
    home: HomeName<'p>,
    method: &'p Method,
) -> Result<(), OutOfMemory>
    requires { IsLaidOut unit.now }
    ensures code { let m : CodeMethod = record { home = home_of_name home.entry; method = typed_method method.now } in OnOk result (code.new ≡ code.old ++ method_code (method_numbers (tree_of_unit unit.now) m) (length code.old) m.method) }
    ensures parts { OnOk result (parts.new ≡ parts.old ++ method_part (length code.old) (typed_method method.now) ∷ []) }
{
    let entry = number(code.len())?;
    let table = MethodTable::new(unit.alloc, method)?;
    let frame = Frame::Declared {
        home,
        method: &table,
    };
    let names = names_of(unit, frame);
    emit_method(&names, code, method)?;
    parts.push(part_of_method(unit.alloc, entry, method)?)
}

/// Adds the code of the declared methods of a home and their parts, so that what follows makes those of the whole.
#[tactic(auto, using(crate::proofs::UnitLemmas::method_emitted, crate::proofs::UnitLemmas::part_emitted))]
pub fn emit_declared_methods<'p>(
    unit: &Unit<'p, '_>,
    code: &mut List<Instr>,
    parts: &mut List<MethodPart>,
    home: HomeName<'p>,
    methods: &'p [Method],
) -> Result<(), OutOfMemory>
    requires { IsLaidOut unit.now }
    ensures code { (rest : Items CodeMethod) → OnOk result (with_declared (tree_of_unit unit.now) rest code.new ≡ with_declared (tree_of_unit unit.now) (methods_at (home_of_name home.entry) (map typed_method methods.now) ++ rest) code.old) }
    ensures parts { (rest : Items CodeMethod) → OnOk result (with_method_parts (tree_of_unit unit.now) (length code.new) rest parts.new ≡ with_method_parts (tree_of_unit unit.now) (length code.old) (methods_at (home_of_name home.entry) (map typed_method methods.now) ++ rest) parts.old) }
{
    'methods: for method in methods {
        emit_declared(unit, code, parts, home, method)?;
    }
    Ok(())
}

/// Adds the code of the declared methods of instances and their parts, so that what follows makes those of the whole.
pub fn emit_instance_methods<'p>(
    unit: &Unit<'p, '_>,
    code: &mut List<Instr>,
    parts: &mut List<MethodPart>,
    instances: &'p [Instance],
) -> Result<(), OutOfMemory>
    requires { IsLaidOut unit.now }
    ensures code { (rest : Items CodeMethod) → OnOk result (with_declared (tree_of_unit unit.now) rest code.new ≡ with_declared (tree_of_unit unit.now) (flat_map instance_code_methods (map instance_tree instances.now) ++ rest) code.old) }
    ensures parts { (rest : Items CodeMethod) → OnOk result (with_method_parts (tree_of_unit unit.now) (length code.new) rest parts.new ≡ with_method_parts (tree_of_unit unit.now) (length code.old) (flat_map instance_code_methods (map instance_tree instances.now) ++ rest) parts.old) }
{
    'instances: for instance in instances {
        let methods = instance.package.get().methods.as_slice();
        emit_declared_methods(
            unit,
            code,
            parts,
            HomeName::Instance(&instance.name),
            methods,
        )?;
    }
    Ok(())
}
