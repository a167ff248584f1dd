//! Variables, parameters and locals with their types.
ghost use Rattle.std.specs.Prelude.{◌≡◌, ◌++◌, IfOk, OnOk, map};
ghost use Rattle.ds2_elaboration.specs.SourceTypes.{spelled_type, declared_variables, elaborated_parameter, variables_in_method};
ghost use Rattle.ds2_names.specs.SourceUnit.{variable_declarations};
ghost use Rattle.ds2_tree.specs.UnitViews.{method_tree, global_tree};
ghost use Rattle.ds2_declared_types.specs.Joins.{variable_named, variables_declared_in, variable_of_parameter};

use crate::names::name;
use crate::spelled::spelled_type;
use ds2_base::{List, OutOfMemory};
use ds2_meaning::{Parameter as TypedParameter, Variable};
use ds2_token::Token;
use ds2_tree::{Declaration, GlobalItem, Method, Parameter, VariableDeclaration};
use ds2_value::Ty;
use std::alloc::Global;

/// The variable that a token names, of this type.
fn variable(alloc: Global, ty: Ty, token: &Token) -> Result<Variable, OutOfMemory>
    ensures { IfOk result (λ v. v ≡ variable_named ty token.now) }
{
    let name = name(alloc, token)?;
    Ok(Variable { name, ty })
}

/// Adds the variables that tokens name, of one type.
fn push_variables(
    alloc: Global,
    variables: &mut List<Variable>,
    ty: Ty,
    tokens: &[Token],
) -> Result<(), OutOfMemory>
    ensures { OnOk result (variables.new ≡ variables.old ++ map (variable_named ty) tokens.now) }
{
    'tokens: for token in tokens {
        let v = variable(alloc, ty, token)?;
        variables.push(v)?;
    }
    Ok(())
}

/// Adds the variables of a declaration.
fn push_declaration(
    alloc: Global,
    variables: &mut List<Variable>,
    v: &VariableDeclaration,
) -> Result<(), OutOfMemory>
    ensures { OnOk result (variables.new ≡ variables.old ++ map (variable_named (spelled_type v.now.ty)) v.now.names) }
{
    let ty = spelled_type(&v.ty)?;
    push_variables(alloc, variables, ty, v.names.as_slice())
}

/// Adds the variables of declarations.
fn push_declarations(
    alloc: Global,
    variables: &mut List<Variable>,
    declarations: &[VariableDeclaration],
) -> Result<(), OutOfMemory>
    ensures { OnOk result (variables.new ≡ variables.old ++ declared_variables declarations.now) }
{
    'declarations: for v in declarations {
        push_declaration(alloc, variables, v)?;
    }
    Ok(())
}

/// The variables of declarations, with their types.
pub fn declared_variables(
    alloc: Global,
    declarations: &[VariableDeclaration],
) -> Result<List<Variable>, OutOfMemory>
    ensures { IfOk result (λ variables. variables ≡ declared_variables declarations.now) }
{
    let mut variables: List<Variable> = List::new(alloc);
    push_declarations(alloc, &mut variables, declarations)?;
    Ok(variables)
}

/// Adds the variables that a part of a unit declares.
fn push_declared_in(
    alloc: Global,
    variables: &mut List<Variable>,
    global: &GlobalItem,
) -> Result<(), OutOfMemory>
    ensures { OnOk result (variables.new ≡ variables.old ++ variables_declared_in (global_tree global.now)) }
{
    match global {
        GlobalItem::Declaration(declaration) => match declaration {
            Declaration::Variables(v) => push_declaration(alloc, variables, v),
            Declaration::Instance { .. } => Ok(()),
            Declaration::Hash { .. } => Ok(()),
            Declaration::Hiter { .. } => Ok(()),
            Declaration::Thread { .. } => Ok(()),
        },
        GlobalItem::Listed { .. } => Ok(()),
        GlobalItem::Method(_) => Ok(()),
    }
}

/// The variables that a unit declares, with their types.
pub fn program_variables(
    alloc: Global,
    globals: &[GlobalItem],
) -> Result<List<Variable>, OutOfMemory>
    ensures { IfOk result (λ variables. variables ≡ declared_variables (variable_declarations (map global_tree globals.now))) }
{
    let mut variables: List<Variable> = List::new(alloc);
    'globals: for global in globals {
        push_declared_in(alloc, &mut variables, global)?;
    }
    Ok(variables)
}

/// A parameter of a method, with its type.
fn parameter(alloc: Global, p: &Parameter) -> Result<TypedParameter, OutOfMemory>
    ensures { IfOk result (λ made. made ≡ elaborated_parameter p.now) }
{
    let ty = spelled_type(&p.ty)?;
    let name = name(alloc, &p.name)?;
    Ok(TypedParameter {
        name,
        ty,
        is_in_out: p.in_out.is_some(),
    })
}

/// The parameters of a method, with their types.
pub fn parameters(
    alloc: Global,
    parameters: &[Parameter],
) -> Result<List<TypedParameter>, OutOfMemory>
    ensures { IfOk result (λ made. made ≡ map elaborated_parameter parameters.now) }
{
    let mut made: List<TypedParameter> = List::new(alloc);
    'parameters: for p in parameters {
        let own = parameter(alloc, p)?;
        made.push(own)?;
    }
    Ok(made)
}

/// A parameter as a variable.
fn parameter_variable(alloc: Global, p: &Parameter) -> Result<Variable, OutOfMemory>
    ensures { IfOk result (λ v. v ≡ variable_of_parameter p.now) }
{
    let ty = spelled_type(&p.ty)?;
    variable(alloc, ty, &p.name)
}

/// The parameters of a thread program or of a method as variables, with their types.
pub fn parameter_variables(
    alloc: Global,
    parameters: &[Parameter],
) -> Result<List<Variable>, OutOfMemory>
    ensures { IfOk result (λ variables. variables ≡ map variable_of_parameter parameters.now) }
{
    let mut variables: List<Variable> = List::new(alloc);
    'parameters: for p in parameters {
        let v = parameter_variable(alloc, p)?;
        variables.push(v)?;
    }
    Ok(variables)
}

/// The parameters and locals of a method, with their types.
pub fn variables_in_method(alloc: Global, m: &Method) -> Result<List<Variable>, OutOfMemory>
    ensures { IfOk result (λ variables. variables ≡ variables_in_method (method_tree m.now)) }
{
    let mut variables = parameter_variables(alloc, m.parameters.list.as_slice())?;
    push_declarations(alloc, &mut variables, m.locals.as_slice())?;
    Ok(variables)
}
