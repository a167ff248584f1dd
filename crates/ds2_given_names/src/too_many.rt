//! TooManyNames in a unit: globals, parameters and locals, outputs, tables, BY variables, instances, key and data variables.
ghost use Rattle.std.specs.Prelude.{◌≡◌, ◌++◌, IfOk, OnOk, List as Items, map};
ghost use Rattle.ds2_tree.specs.UnitViews.{global_tree};
ghost use Rattle.ds2_names.specs.NameRules.{from_each};
ghost use Rattle.ds2_names.specs.SourceUnit.{TableColumns, KnownUnit, source_instances, source_methods, tables_of_reading, names_of_unit};
ghost use Rattle.ds2_names.specs.UnitRules.{beyond, places_of, too_many_variables, too_many_names};
ghost use Rattle.ds2_scope.specs.Collected.{methods_in};
ghost use Rattle.ds2_scope.specs.CodeUnits.{unit_source, instance_sort, instances_in_source};
ghost use Rattle.ds2_scope.specs.Earliest.{earliest};
ghost use Rattle.ds2_scope.specs.UnitNames.{NamesAre, reading_in_unit};
ghost use Rattle.ds2_given_names.specs.TooMany.{input_place, real_place, global_places, too_many_locals, too_many_in_instance, places_bracketed};

use crate::limits::earliest_beyond;
use ds2_base::{List, OutOfMemory, Place};
use ds2_names::PlacedName;
use ds2_scope::{
    Instance, InstanceSort, Unit, UnitNames, earlier_of, local_names, reading_of_unit,
    spelled_name, tables_of,
};
use ds2_tree::{BracketedName, GlobalItem, Input, OutputTable};
use std::alloc::Global;

// The earliest of places beyond so many.
fn beyond(limit: usize, places: List<Place>) -> Option<Place>
    ensures { result ≡ earliest (beyond limit places) }
{
    let mut places = places.into_vec();
    earliest_beyond(limit, places.as_mut_slice())
}

// Adds the places of names.
fn push_places(places: &mut List<Place>, names: &[PlacedName]) -> Result<(), OutOfMemory>
    ensures { OnOk result (places.new ≡ places.old ++ places_of names.now) }
{
    'names: for n in names {
        places.push(n.place)?;
    }
    Ok(())
}

// The earliest of names beyond so many.
fn beyond_names(
    alloc: Global,
    limit: usize,
    names: &[PlacedName],
) -> Result<Option<Place>, OutOfMemory>
    ensures { IfOk result (λ place. place ≡ earliest (beyond limit (places_of names.now))) }
{
    let mut places: List<Place> = List::new(alloc);
    push_places(&mut places, names)?;
    Ok(beyond(limit, places))
}

// The first global beyond 1,000, of which each BY variable has two flags.
fn beyond_globals(alloc: Global, names: &UnitNames) -> Result<Option<Place>, OutOfMemory>
    ensures { IfOk result (λ place. place ≡ earliest (beyond 1000 (global_places names.now))) }
{
    let mut places: List<Place> = List::new(alloc);
    push_places(&mut places, names.variables.as_slice())?;
    push_places(&mut places, names.parameters.as_slice())?;
    push_places(&mut places, names.flags.as_slice())?;
    push_places(&mut places, names.instances.as_slice())?;
    push_places(&mut places, names.bys.as_slice())?;
    push_places(&mut places, names.bys.as_slice())?;
    Ok(beyond(1000, places))
}

// The first parameter or local of a method beyond 1,000, where a part of a unit is one.
fn beyond_locals_in(alloc: Global, global: &GlobalItem) -> Result<Option<Place>, OutOfMemory>
    ensures { IfOk result (λ place. place ≡ earliest (from_each too_many_locals (methods_in (global_tree global.now)))) }
{
    match global {
        GlobalItem::Method(m) => {
            let names = local_names(alloc, m)?;
            beyond_names(alloc, 1000, names.as_slice())
        }
        GlobalItem::Listed { .. } => Ok(None),
        GlobalItem::Declaration(_) => Ok(None),
    }
}

// The earliest one of all methods.
fn beyond_locals(alloc: Global, globals: &[GlobalItem]) -> Result<Option<Place>, OutOfMemory>
    ensures { IfOk result (λ place. place ≡ earliest (from_each too_many_locals (source_methods (map global_tree globals.now)))) }
{
    let mut found: Option<Place> = None;
    'globals: for global in globals {
        found = earlier_of(found, beyond_locals_in(alloc, global)?);
    }
    Ok(found)
}

// Adds the place of an output, unless it is `_null_`.
fn push_output(alloc: Global, places: &mut List<Place>, o: &OutputTable) -> Result<(), OutOfMemory>
    ensures { OnOk result (places.new ≡ places.old ++ real_place o.now) }
{
    let name = spelled_name(alloc, &o.table)?;
    if name.as_slice() == b"_null_".as_slice() {
        Ok(())
    } else {
        places.push(o.table.place)
    }
}

// The first output beyond 16; `_null_` is none.
fn beyond_outputs(alloc: Global, outputs: &[OutputTable]) -> Result<Option<Place>, OutOfMemory>
    ensures { IfOk result (λ place. place ≡ earliest (beyond 16 (from_each real_place outputs.now))) }
{
    let mut places: List<Place> = List::new(alloc);
    'outputs: for o in outputs {
        push_output(alloc, &mut places, o)?;
    }
    Ok(beyond(16, places))
}

// The first table of a reading statement beyond 16.
fn beyond_inputs(alloc: Global, inputs: &[Input]) -> Result<Option<Place>, OutOfMemory>
    ensures { IfOk result (λ place. place ≡ earliest (beyond 16 (map input_place inputs.now))) }
{
    let mut places: List<Place> = List::new(alloc);
    'inputs: for input in inputs {
        places.push(input.table.place)?;
    }
    Ok(beyond(16, places))
}

// The first instance beyond 64.
fn beyond_instances(alloc: Global, names: &UnitNames) -> Result<Option<Place>, OutOfMemory>
    ensures { IfOk result (λ place. place ≡ earliest (beyond 64 (places_of names.now.instances))) }
{
    let place = beyond_names(alloc, 64, names.instances.as_slice())?;
    Ok(place)
}

// The first of names between brackets beyond 64.
fn beyond_variables(alloc: Global, names: &[BracketedName]) -> Result<Option<Place>, OutOfMemory>
    ensures { IfOk result (λ place. place ≡ earliest (beyond 64 (places_bracketed names.now))) }
{
    let mut places: List<Place> = List::new(alloc);
    'names: for n in names {
        places.push(n.name.place)?;
    }
    Ok(beyond(64, places))
}

// The first key or data variable of a hash object beyond 64.
fn beyond_in_instance(alloc: Global, sort: InstanceSort<'_>) -> Result<Option<Place>, OutOfMemory>
    ensures { IfOk result (λ place. place ≡ earliest (too_many_variables (instance_sort sort.entry))) }
{
    match sort {
        InstanceSort::Package { .. } => Ok(None),
        InstanceSort::Hash { keys, items, .. } => {
            let keys = beyond_variables(alloc, keys)?;
            let items = beyond_variables(alloc, items)?;
            Ok(earlier_of(keys, items))
        }
        InstanceSort::Iterator(_) => Ok(None),
        InstanceSort::Thread(_) => Ok(None),
    }
}

// The earliest one of all instances.
fn beyond_in_instances(
    alloc: Global,
    instances: &[Instance<'_>],
) -> Result<Option<Place>, OutOfMemory>
    ensures { IfOk result (λ place. place ≡ earliest (from_each too_many_in_instance (instances_in_source instances.now))) }
{
    let mut found: Option<Place> = None;
    'instances: for instance in instances {
        found = earlier_of(found, beyond_in_instance(alloc, instance.sort)?);
    }
    Ok(found)
}

// The first table of the reading statement of a unit beyond 16.
fn beyond_tables(alloc: Global, unit: Unit<'_>) -> Result<Option<Place>, OutOfMemory>
    ensures { IfOk result (λ place. place ≡ earliest (beyond 16 (map input_place (tables_of_reading (reading_in_unit (unit_source unit.entry)))))) }
{
    let reading = reading_of_unit(alloc, unit)?;
    let place = beyond_inputs(alloc, tables_of(reading))?;
    Ok(place)
}

/// The earliest name of a unit beyond a limit.
pub(crate) fn too_many(
    alloc: Global,
    names: &UnitNames,
    instances: &[Instance<'_>],
    unit: Unit<'_>,
) -> Result<Option<Place>, OutOfMemory>
    requires { instances_in_source instances.now ≡ source_instances (unit_source unit).globals }
    ensures { IfOk result (λ place. (tables : TableColumns) (known : Items KnownUnit) → NamesAre names.now (names_of_unit tables known (unit_source unit.entry)) → place ≡ earliest (too_many_names (names_of_unit tables known (unit_source unit.entry)))) }
{
    let globals = beyond_globals(alloc, names)?;
    let locals = beyond_locals(alloc, unit.globals)?;
    let outputs = beyond_outputs(alloc, unit.outputs)?;
    let inputs = beyond_tables(alloc, unit)?;
    let bys = beyond_names(alloc, 16, names.bys.as_slice())?;
    let objects = beyond_instances(alloc, names)?;
    let variables = beyond_in_instances(alloc, instances)?;
    let first = earlier_of(globals, locals);
    let second = earlier_of(outputs, earlier_of(inputs, bys));
    Ok(earlier_of(earlier_of(first, second), earlier_of(objects, variables)))
}
