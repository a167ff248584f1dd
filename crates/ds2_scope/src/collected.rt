//! What a data program gives names to.
ghost use Rattle.std.specs.Prelude.{◌≡◌, ◌++◌, IfOk, OnOk, map};
ghost use Rattle.ds2_tree.specs.UnitViews.{method_tree, global_tree};
ghost use Rattle.ds2_names.specs.NameRules.{renamings_in};
ghost use Rattle.ds2_names.specs.SourceUnit.{declared_names, variable_declarations, source_methods, local_names};
ghost use Rattle.ds2_scope.specs.Collected.{declared_in, methods_in, method_name, parameter_name, output_table_name, old_name};

use crate::names::{placed_name, push_names};
use ds2_base::{List, OutOfMemory};
use ds2_names::PlacedName;
use ds2_tree::{
    Declaration, GlobalItem, Method, OutputOption, OutputTable, Parameter, Renaming,
    VariableDeclaration,
};
use std::alloc::Global;

// Adds the names of variables that a part of a unit declares.
fn push_declared_in(
    alloc: Global,
    names: &mut List<PlacedName>,
    global: &GlobalItem,
) -> Result<(), OutOfMemory>
    ensures { OnOk result (names.new ≡ names.old ++ declared_in (global_tree global.now)) }
{
    match global {
        GlobalItem::Declaration(declaration) => match declaration {
            Declaration::Variables(v) => push_names(alloc, names, v.names.as_slice()),
            Declaration::Instance { .. } => Ok(()),
            Declaration::Hash { .. } => Ok(()),
            Declaration::Hiter { .. } => Ok(()),
            Declaration::Thread { .. } => Ok(()),
        },
        GlobalItem::Listed { .. } => Ok(()),
        GlobalItem::Method(_) => Ok(()),
    }
}

/// The names of variables that a unit declares.
pub fn declared_names(
    alloc: Global,
    globals: &[GlobalItem],
) -> Result<List<PlacedName>, OutOfMemory>
    ensures { IfOk result (λ names. names ≡ declared_names (variable_declarations (map global_tree globals.now))) }
{
    let mut names: List<PlacedName> = List::new(alloc);
    'globals: for global in globals {
        push_declared_in(alloc, &mut names, global)?;
    }
    Ok(names)
}

// Adds the name of a method, where a part of a unit is one.
fn push_method_in(
    alloc: Global,
    names: &mut List<PlacedName>,
    global: &GlobalItem,
) -> Result<(), OutOfMemory>
    ensures { OnOk result (names.new ≡ names.old ++ map method_name (methods_in (global_tree global.now))) }
{
    match global {
        GlobalItem::Method(m) => names.push(placed_name(alloc, &m.name)?),
        GlobalItem::Listed { .. } => Ok(()),
        GlobalItem::Declaration(_) => Ok(()),
    }
}

/// The names of the methods of a unit.
pub fn method_names(alloc: Global, globals: &[GlobalItem]) -> Result<List<PlacedName>, OutOfMemory>
    ensures { IfOk result (λ names. names ≡ map method_name (source_methods (map global_tree globals.now))) }
{
    let mut names: List<PlacedName> = List::new(alloc);
    'globals: for global in globals {
        push_method_in(alloc, &mut names, global)?;
    }
    Ok(names)
}

// Adds the names that declarations of locals give.
fn push_locals(
    alloc: Global,
    names: &mut List<PlacedName>,
    declarations: &[VariableDeclaration],
) -> Result<(), OutOfMemory>
    ensures { OnOk result (names.new ≡ names.old ++ declared_names declarations.now) }
{
    'declarations: for v in declarations {
        push_names(alloc, names, v.names.as_slice())?;
    }
    Ok(())
}

/// The names of parameters.
pub fn parameter_names(
    alloc: Global,
    parameters: &[Parameter],
) -> Result<List<PlacedName>, OutOfMemory>
    ensures { IfOk result (λ names. names ≡ map parameter_name parameters.now) }
{
    let mut names: List<PlacedName> = List::new(alloc);
    'parameters: for p in parameters {
        names.push(placed_name(alloc, &p.name)?)?;
    }
    Ok(names)
}

/// The parameters and locals of a method.
pub fn local_names(alloc: Global, m: &Method) -> Result<List<PlacedName>, OutOfMemory>
    ensures { IfOk result (λ names. names ≡ local_names (method_tree m.now)) }
{
    let mut names = parameter_names(alloc, m.parameters.list.as_slice())?;
    push_locals(alloc, &mut names, m.locals.as_slice())?;
    Ok(names)
}

/// The names of outputs.
pub fn output_names(alloc: Global, outputs: &[OutputTable]) -> Result<List<PlacedName>, OutOfMemory>
    ensures { IfOk result (λ names. names ≡ map output_table_name outputs.now) }
{
    let mut names: List<PlacedName> = List::new(alloc);
    'outputs: for o in outputs {
        names.push(placed_name(alloc, &o.table)?)?;
    }
    Ok(names)
}

// The old names of renamings.
fn old_names(alloc: Global, renamings: &[Renaming]) -> Result<List<PlacedName>, OutOfMemory>
    ensures { IfOk result (λ names. names ≡ map old_name renamings.now) }
{
    let mut names: List<PlacedName> = List::new(alloc);
    'renamings: for r in renamings {
        names.push(placed_name(alloc, &r.old)?)?;
    }
    Ok(names)
}

/// The old names of the renamings in an option.
pub fn renamed_names(alloc: Global, option: &OutputOption) -> Result<List<PlacedName>, OutOfMemory>
    ensures { IfOk result (λ names. names ≡ map old_name (renamings_in option.now)) }
{
    match option {
        OutputOption::Rename { renamings, .. } => old_names(alloc, renamings.as_slice()),
        OutputOption::Listed { .. } => Ok(List::new(alloc)),
        OutputOption::Overwrite { .. } => Ok(List::new(alloc)),
    }
}
