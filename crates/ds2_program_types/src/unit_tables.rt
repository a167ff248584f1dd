//! The tables in which the statements of a unit's methods look up names.
ghost use Rattle.std.specs.Prelude.{◌≡◌, IfOk, not};
ghost use Rattle.ds2_elaboration.specs.SourceTypes.{parameter_variables, unjoined_columns, vector_variables};
ghost use Rattle.ds2_elaboration.specs.UnitsBefore.{UnitsBefore};
ghost use Rattle.ds2_declared_types.specs.TypesKnown.{TellsTypes};
ghost use Rattle.ds2_names.specs.SourceUnit.{is_package, names_alone};
ghost use Rattle.ds2_program_types.specs.UnitScopes.{AreUnitTables};
ghost use Rattle.ds2_program_types.specs.UnitsAtHand.{IsAtHand, columns_at_hand, names_at_hand, source_at_hand};
ghost use Rattle.ds2_scope.specs.CodeUnits.{unit_kind};
ghost use Rattle.ds2_type_tables.specs.Bys.{HasBys};
ghost use Rattle.ds2_type_tables.specs.Globals.{HasGlobals};

use crate::at_hand::UnitAtHand;
use crate::output_numbers::unit_numbers;
use ds2_base::{List, OutOfMemory};
use ds2_declared_types::KnownTypes;
use ds2_declared_types::columns::{columns_over, unjoined_over};
use ds2_declared_types::names::names_alone;
use ds2_declared_types::variables::{parameter_variables, program_variables};
use ds2_meaning::Variable;
use ds2_reference_types::scopes::{KnownBys, KnownMethods, KnownNames, KnownObjects};
use ds2_scope::{UnitKind, UnitNames};
use ds2_simple_statement_types::method_scope::OutputNumbers;
use ds2_type_tables::bys::bys;
use ds2_type_tables::globals::globals;
use ds2_type_tables::methods::methods;
use ds2_type_tables::objects::objects;
use std::alloc::Global;

/// What the names of a unit stand for in each of its methods, but for parameters and locals.
#[derive(Drop)]
pub struct UnitTables {
    pub globals: KnownNames,
    pub bys: KnownBys,
    pub methods: KnownMethods,
    /// The objects that a method may call something on.
    pub objects: KnownObjects,
    /// Those that `init` may.
    pub init_objects: KnownObjects,
    pub outputs: OutputNumbers,
    /// How many outputs there are.
    pub output_count: u32,
}

/// The declared variables and the columns of a unit, in the order of the vector.
pub fn vector_variables(
    alloc: Global,
    unit: UnitAtHand<'_, '_>,
) -> Result<List<Variable>, OutOfMemory>
    ensures { (before : UnitsBefore) → IsAtHand before unit.entry → IfOk result (λ variables. variables ≡ vector_variables (columns_at_hand unit.entry) before (source_at_hand unit.entry)) }
{
    let mut variables = program_variables(alloc, unit.unit.globals)?;
    let more = columns_over(alloc, unit.from, unit.columns)?;
    variables.append_list(more)?;
    Ok(variables)
}

/// The table of the variables of a unit: declared variables, columns, parameters of a thread program and `in=` flags.
fn unit_globals(alloc: Global, unit: UnitAtHand<'_, '_>) -> Result<KnownNames, OutOfMemory>
    ensures { (before : UnitsBefore) → IsAtHand before unit.entry
        → IfOk result (λ t. HasGlobals t (unjoined_columns (columns_at_hand unit.entry) before (source_at_hand unit.entry)) (vector_variables (columns_at_hand unit.entry) before (source_at_hand unit.entry)) (parameter_variables (source_at_hand unit.entry)) (names_alone (names_at_hand before unit.entry).flags)) }
{
    let unjoined = unjoined_over(alloc, unit.from, unit.columns)?;
    let variables = vector_variables(alloc, unit)?;
    let parameters = parameter_variables(alloc, unit.unit.parameters)?;
    let flags = names_alone(alloc, unit.names.flags.as_slice())?;
    globals(
        alloc,
        variables.as_slice(),
        unjoined.as_slice(),
        parameters.as_slice(),
        flags.as_slice(),
    )
}

/// The table of the BY variables of a unit.
fn unit_bys(alloc: Global, names: &UnitNames) -> Result<KnownBys, OutOfMemory>
    ensures { IfOk result (λ t. HasBys t (names_alone names.now.bys)) }
{
    let by_names = names_alone(alloc, names.bys.as_slice())?;
    bys(alloc, by_names.as_slice())
}

/// Whether a unit is a program, which has system methods.
fn is_program(kind: UnitKind) -> bool
    ensures { result ≡ not (is_package (unit_kind kind)) }
{
    match kind {
        UnitKind::Package => false,
        UnitKind::Thread => true,
        UnitKind::Data => true,
    }
}

/// The tables of a unit, behind packages and thread programs that are known.
pub fn unit_tables(
    alloc: Global,
    known: &KnownTypes<'_>,
    unit: UnitAtHand<'_, '_>,
) -> Result<UnitTables, OutOfMemory>
    ensures { (before : UnitsBefore) → TellsTypes known.now before → IsAtHand before unit.entry
        → IfOk result (λ t. AreUnitTables (columns_at_hand unit.entry) before (source_at_hand unit.entry) t) }
{
    let globals = unit_globals(alloc, unit)?;
    let bys = unit_bys(alloc, unit.names)?;
    let methods = methods(alloc, unit.unit.kind, unit.unit.globals)?;
    let made = unit_numbers(alloc, unit.unit)?;
    let called = objects(alloc, known, unit.instances, false)?;
    let in_init = is_program(unit.unit.kind);
    let called_in_init = objects(alloc, known, unit.instances, in_init)?;
    Ok(UnitTables {
        globals,
        bys,
        methods,
        objects: called,
        init_objects: called_in_init,
        outputs: made.numbers,
        output_count: made.count,
    })
}
