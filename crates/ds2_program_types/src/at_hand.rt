//! A unit with its names, and what its reading statement reads.
ghost use Rattle.std.specs.Prelude.{◌≡◌, IfOk, List as Items, drop, option_copied};
ghost use Rattle.std.specs.Option.{option_map};
ghost use Rattle.ds2_elaboration.specs.SourceTypes.{unit_names};
ghost use Rattle.ds2_elaboration.specs.UnitsBefore.{UnitsBefore};
ghost use Rattle.ds2_declared_types.specs.TypesKnown.{TellsTypes};
ghost use Rattle.ds2_names.specs.SourceUnit.{KnownUnit, columns_stored, names_of_unit};
ghost use Rattle.ds2_program_types.specs.UnitsAtHand.{IsAtHand, IsReadingOf};
ghost use Rattle.ds2_scope.specs.CodeUnits.{unit_source};
ghost use Rattle.ds2_scope.specs.UnitNames.{NamesAre};
ghost use Rattle.ds2_scope.specs.UnitsKnown.{KnowsUnits};
ghost use Rattle.ds2_token.specs.declared.token.Token.{Token as TokenOf};

use ds2_base::{List, OutOfMemory, Place};
use ds2_declared_types::columns::ReadFrom;
use ds2_declared_types::input_types::{InputTypes, types_of_columns, types_of_inputs};
use ds2_declared_types::variables::program_variables;
use ds2_declared_types::{KnownTypes, stage_behind, stage_columns};
use ds2_meaning::{Shared, TypedThread};
use ds2_names::{NamedSchema, PlacedName};
use ds2_scope::{
    Instance, KnownUnits, NameTable, Unit, UnitNames, instances_of, names_of_unit, reading_of_unit,
    stage_of, tables_of,
};
use ds2_token::Token;
use ds2_tree::Reading;
use ds2_value::{Column, Ty};
use std::alloc::Global;

/// What a unit declares and reads.
#[derive(Drop)]
pub struct UnitReading<'t, 'k> {
    pub instances: List<Instance<'t>>,
    /// Its reading statement, which a package has not.
    pub reading: Option<&'t Reading>,
    /// The tables of that statement, with the types of their columns.
    pub inputs: List<InputTypes>,
    /// The thread program that it reads from.
    pub stage: Option<&'k Shared<TypedThread>>,
    /// The columns of that one's rows.
    pub rows: List<Column>,
    /// The types of these by their names.
    pub row_types: NameTable<Ty>,
    /// How many variables it declares.
    pub declared: usize,
}

/// A unit with what it gives names to and what it reads.
#[derive(Clone, Copy)]
pub struct UnitAtHand<'a, 't> {
    pub unit: Unit<'t>,
    pub names: &'a UnitNames,
    /// The columns of its reading statement that it does not declare.
    pub columns: &'a [PlacedName],
    pub instances: &'a [Instance<'t>],
    /// What its reading statement reads from.
    pub from: ReadFrom<'a>,
}

/// What a unit gives names to, over tables and behind the units that are known.
pub fn unit_names(
    alloc: Global,
    tables: &[NamedSchema],
    known: &KnownUnits,
    unit: Unit<'_>,
) -> Result<UnitNames, OutOfMemory>
    ensures { IfOk result (λ n. (units : Items KnownUnit) → KnowsUnits known.now units → NamesAre n (names_of_unit (columns_stored tables.now) units (unit_source unit.entry))) }
{
    let instances = instances_of(alloc, unit.globals)?;
    let names = names_of_unit(alloc, tables, known, instances.as_slice(), unit)?;
    Ok(names)
}

/// What a unit declares and reads, over tables and behind packages and thread programs that are known.
pub fn unit_reading<'t, 'k>(
    alloc: Global,
    tables: &[NamedSchema],
    known: &'k KnownTypes<'_>,
    unit: Unit<'t>,
) -> Result<UnitReading<'t, 'k>, OutOfMemory>
    ensures { IfOk result (λ r. (before : UnitsBefore) → TellsTypes known.now before → IsReadingOf (columns_stored tables.now) before (unit_source unit.entry) r) }
{
    let instances = instances_of(alloc, unit.globals)?;
    let reading = reading_of_unit(alloc, unit)?;
    let inputs = types_of_inputs(alloc, tables, tables_of(reading))?;
    let stage = stage_behind(alloc, known, instances.as_slice(), stage_of(reading))?;
    let rows = stage_columns(alloc, stage)?;
    let row_types = types_of_columns(alloc, rows.as_slice())?;
    let variables = program_variables(alloc, unit.globals)?;
    Ok(UnitReading {
        instances,
        reading,
        inputs,
        stage,
        rows,
        row_types,
        declared: variables.len(),
    })
}

/// The place of the instance behind `set from`.
fn stage_place(stage: Option<&Token>) -> Option<Place>
    ensures { result ≡ option_map (λ (t : TokenOf). t.place) (option_copied stage.entry) }
{
    match stage {
        None => None,
        Some(stage) => Some(stage.place),
    }
}

/// The columns of the reading statement that are not declared: the names of a unit behind those of its declared variables.
fn columns_among(names: &UnitNames, declared: usize) -> &[PlacedName]
    ensures { result.now ≡ drop declared names.now.variables }
{
    let all = names.variables.as_slice();
    if declared <= all.len() {
        all.split_at(declared).1
    } else {
        &[]
    }
}

/// A unit with these names and what it reads, over the tables of the store.
pub fn at_hand<'a, 't>(
    tables: &'a [NamedSchema],
    names: &'a UnitNames,
    unit: Unit<'t>,
    read: &'a UnitReading<'t, '_>,
) -> UnitAtHand<'a, 't>
    ensures unit { unit_source result.unit ≡ unit_source unit.entry }
    ensures tables { result.from.tables.now ≡ tables.now }
    ensures hand { (before : UnitsBefore) → IsReadingOf (columns_stored tables.now) before (unit_source unit.entry) read.now → NamesAre names.now (unit_names (columns_stored tables.now) before (unit_source unit.entry)) → IsAtHand before result }
{
    let inputs = read.inputs.as_slice();
    let stage = stage_place(stage_of(read.reading));
    let columns = columns_among(names, read.declared);
    let instances = read.instances.as_slice();
    let rows = read.rows.as_slice();
    UnitAtHand {
        unit,
        names,
        columns,
        instances,
        from: ReadFrom {
            tables,
            inputs,
            stage,
            rows,
            row_types: &read.row_types,
        },
    }
}
