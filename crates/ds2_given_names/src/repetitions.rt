//! DuplicateName, at the later name, and NoColumns, at the output or the thread program.
ghost use Rattle.std.specs.Prelude.{◌≡◌, ◌++◌, IfOk, OnOk, List as Items, option_copied};
ghost use Rattle.ds2_names.specs.NameRules.{duplicate_unit, later_places};
ghost use Rattle.ds2_names.specs.SourceUnit.{TableColumns, KnownUnit, source_instances, names_of_unit};
ghost use Rattle.ds2_scope.specs.Earliest.{earliest};
ghost use Rattle.ds2_scope.specs.CodeUnits.{unit_source, instances_in_source};
ghost use Rattle.ds2_scope.specs.UnitNames.{NamesAre};
ghost use Rattle.ds2_scope.specs.UnitsKnown.{KnowsUnits};
ghost use Rattle.ds2_given_names.specs.Repetitions.{globals_listed, repeated_parts, BreaksNames};

use crate::listed::statement_lists;
use crate::numbers::bad_number;
use crate::output_rules::{in_outputs, in_thread};
use crate::too_many::too_many;
use ds2_base::{List, OutOfMemory, Place};
use ds2_names::PlacedName;
use ds2_scope::{
    Instance, KnownUnits, Unit, UnitNames, earlier_of, earliest_later, place_unless,
    repeated_local, repeated_method, repeated_renaming, spelled_name,
};
use ds2_token::Token;
use std::alloc::Global;

/// The earliest places at which a unit breaks the rules on the names that it gives, None where it does not.
#[derive(Clone, Copy)]
pub struct BrokenNames {
    /// A name that was given before.
    pub duplicate_name: Option<Place>,
    /// A name beyond a limit of a unit.
    pub too_many_names: Option<Place>,
    /// A number of a type, or of threads, outside its bounds.
    pub bad_number: Option<Place>,
    /// An output, or a thread program, without a column.
    pub no_columns: Option<Place>,
}

// Adds names once more.
fn push_copies(
    alloc: Global,
    all: &mut List<PlacedName>,
    names: &[PlacedName],
) -> Result<(), OutOfMemory>
    ensures { OnOk result (all.new ≡ all.old ++ names.now) }
{
    'names: for n in names {
        let name = List::from_slice(alloc, n.name.as_slice())?;
        all.push(PlacedName {
            name,
            place: n.place,
        })?;
    }
    Ok(())
}

// The place of a unit's name that a unit before it has; a data program has no name of its own.
fn repeated_unit(
    alloc: Global,
    known: &KnownUnits,
    name: Option<&Token>,
) -> Result<Option<Place>, OutOfMemory>
    ensures { IfOk result (λ place. (units : Items KnownUnit) → KnowsUnits known.now units → place ≡ earliest (duplicate_unit units (option_copied name.entry))) }
{
    match name {
        None => Ok(None),
        Some(name) => {
            let spelled = spelled_name(alloc, name)?;
            Ok(place_unless(!known.has_name(&spelled), name.place))
        }
    }
}

// The earliest of the later globals of two of one name.
fn repeated_global(alloc: Global, names: &UnitNames) -> Result<Option<Place>, OutOfMemory>
    ensures { IfOk result (λ place. place ≡ earliest (later_places (globals_listed names.now))) }
{
    let mut all: List<PlacedName> = List::new(alloc);
    push_copies(alloc, &mut all, names.variables.as_slice())?;
    push_copies(alloc, &mut all, names.parameters.as_slice())?;
    push_copies(alloc, &mut all, names.flags.as_slice())?;
    push_copies(alloc, &mut all, names.instances.as_slice())?;
    earliest_later(alloc, all.as_slice())
}

// The earliest name that was given before, the unit's own and columns of outputs aside.
fn repeated_name(
    alloc: Global,
    names: &UnitNames,
    unit: Unit<'_>,
) -> Result<Option<Place>, OutOfMemory>
    ensures { IfOk result (λ place. place ≡ earliest (repeated_parts names.now (unit_source unit.entry))) }
{
    let global = repeated_global(alloc, names)?;
    let by = earliest_later(alloc, names.bys.as_slice())?;
    let method = repeated_method(alloc, unit.globals)?;
    let local = repeated_local(alloc, unit.globals)?;
    let output = earliest_later(alloc, names.outputs.as_slice())?;
    let renaming = repeated_renaming(alloc, unit.outputs)?;
    let first = earlier_of(global, earlier_of(by, method));
    Ok(earlier_of(first, earlier_of(local, earlier_of(output, renaming))))
}

/// The earliest places at which a unit with these instances gives a name twice or too many names, gives a number outside its bounds, or has
/// no column, over any tables and behind the units that are known. The names are those that `names_of_unit` gives.
pub fn broken_names(
    alloc: Global,
    known: &KnownUnits,
    names: &UnitNames,
    instances: &[Instance<'_>],
    unit: Unit<'_>,
) -> Result<BrokenNames, OutOfMemory>
    requires { instances_in_source instances.now ≡ source_instances (unit_source unit).globals }
    ensures { IfOk result (λ b. (tables : TableColumns) (units : Items KnownUnit) → KnowsUnits known.now units → NamesAre names.now (names_of_unit tables units (unit_source unit.entry)) → BreaksNames (names_of_unit tables units (unit_source unit.entry)) b) }
{
    let statements = statement_lists(alloc, unit.globals)?;
    let own = repeated_unit(alloc, known, unit.name)?;
    let repeated = repeated_name(alloc, names, unit)?;
    let outputs = in_outputs(alloc, names, &statements, unit.outputs)?;
    let thread = in_thread(alloc, names, &statements, unit)?;
    let too_many_names = too_many(alloc, names, instances, unit)?;
    Ok(BrokenNames {
        duplicate_name: earlier_of(earlier_of(own, repeated), outputs.clash),
        too_many_names,
        bad_number: bad_number(unit),
        no_columns: earlier_of(outputs.empty, thread),
    })
}
