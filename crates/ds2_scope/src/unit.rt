//! A unit of a source, of whatever kind: a package, a thread program or a data program.
ghost use Rattle.std.specs.Prelude.{◌≡◌};
ghost use Rattle.ds2_names.specs.SourceUnit.{unit_of_package, unit_of_thread, unit_of_data, parameters_listed};
ghost use Rattle.ds2_scope.specs.CodeUnits.{unit_source};
ghost use Rattle.ds2_tree.specs.UnitViews.{package_tree, thread_tree, data_tree};

use ds2_token::Token;
use ds2_tree::{DataProgram, GlobalItem, OutputTable, Package, Parameter, Parameters, Thread};

/// The kinds of units.
#[derive(Clone, Copy)]
pub enum UnitKind {
    Package,
    Thread,
    Data,
}

/// A unit of a source as it stands there.
#[derive(Clone, Copy)]
pub struct Unit<'t> {
    pub kind: UnitKind,
    /// The name of a package or of a thread program.
    pub name: Option<&'t Token>,
    /// The parameters of a thread program.
    pub parameters: &'t [Parameter],
    /// The outputs of a data program.
    pub outputs: &'t [OutputTable],
    pub globals: &'t [GlobalItem],
}

// The parameters behind the name of a thread program, where there are some.
fn parameters_listed(parameters: &Option<Parameters>) -> &[Parameter]
    ensures { result.now ≡ parameters_listed parameters.now }
{
    match parameters {
        None => &[],
        Some(parameters) => parameters.list.as_slice(),
    }
}

/// A package as a unit.
pub fn unit_of_package(unit: &Package) -> Unit<'_>
    ensures { unit_source result ≡ unit_of_package (package_tree unit.now) }
{
    Unit {
        kind: UnitKind::Package,
        name: Some(&unit.name),
        parameters: &[],
        outputs: &[],
        globals: unit.globals.as_slice(),
    }
}

/// A thread program as a unit.
pub fn unit_of_thread(thread: &Thread) -> Unit<'_>
    ensures { unit_source result ≡ unit_of_thread (thread_tree thread.now) }
{
    Unit {
        kind: UnitKind::Thread,
        name: Some(&thread.name),
        parameters: parameters_listed(&thread.parameters),
        outputs: &[],
        globals: thread.globals.as_slice(),
    }
}

/// A data program as a unit.
pub fn unit_of_data(program: &DataProgram) -> Unit<'_>
    ensures { unit_source result ≡ unit_of_data (data_tree program.now) }
{
    Unit {
        kind: UnitKind::Data,
        name: None,
        parameters: &[],
        outputs: program.outputs.as_slice(),
        globals: program.globals.as_slice(),
    }
}
