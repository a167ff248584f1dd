//! TypeClash of columns: for each column of the reading statement the first table at which its types do not fit.
ghost use Rattle.std.specs.Prelude.{◌≡◌, List as Items, IfOk};
ghost use Rattle.ds2_elaboration.specs.SourceTypes.{clashing_tables};
ghost use Rattle.ds2_elaboration.specs.UnitsBefore.{UnitsBefore};
ghost use Rattle.ds2_declared_types.specs.UnitReading.{ReadsAsUnit};
ghost use Rattle.ds2_meaning.specs.declared.globals.Variable.{Variable as VariableOf};
ghost use Rattle.ds2_meaning.specs.declared.refusals.TypeKind.TheVariants.{TypeClash as ClashKind};
ghost use Rattle.ds2_names.specs.NameRules.{from_each};
ghost use Rattle.ds2_names.specs.Refusals.{broken_at};
ghost use Rattle.ds2_names.specs.SourceUnit.{columns_stored, PlacedName as PlacedOf, UnitSource};
ghost use Rattle.ds2_types.specs.Judgements.{first_type_refusal};
ghost use Rattle.ds2_program_types.specs.MethodRules.{column_rules};
ghost use Rattle.ds2_program_types.specs.UnitsAtHand.{IsAtHand, columns_at_hand, source_at_hand};
ghost use Rattle.ds2_type_tables.specs.Tables.{HasLocals};

use crate::at_hand::UnitAtHand;
use ds2_base::{Bytes, List, OutOfMemory, Refusal};
use ds2_declared_types::columns::{ReadFrom, clash_over};
use ds2_declared_types::variables::program_variables;
use ds2_meaning::{TypeKind, Variable};
use ds2_names::PlacedName;
use ds2_reference_types::scopes::KnownNames;
use ds2_type_tables::locals::locals;
use ds2_types::refusals::{lesser, refusal};
use ds2_unit_parts::declared::declared_type;
use std::alloc::Global;

/// What a column of this name breaks.
fn clash_of(from: ReadFrom<'_>, declared: &KnownNames, name: &Bytes) -> Option<Refusal<TypeKind>>
    ensures { (before : UnitsBefore) (u : UnitSource) (variables : Items VariableOf) → ReadsAsUnit before u from.entry → HasLocals declared.now variables
        → result ≡ first_type_refusal (column_rules (columns_stored from.entry.tables.now) before u variables name.now) }
{
    let own = declared_type(declared, name);
    match clash_over(from, own, name) {
        None => None,
        Some(place) => Some(refusal(TypeKind::TypeClash, place)),
    }
}

/// The rule that is given of those that the columns of declared variables break.
fn of_declared(
    alloc: Global,
    from: ReadFrom<'_>,
    declared: &KnownNames,
    variables: &[Variable],
) -> Result<Option<Refusal<TypeKind>>, OutOfMemory>
    ensures { (before : UnitsBefore) (u : UnitSource) (all : Items VariableOf) → ReadsAsUnit before u from.entry → HasLocals declared.now all
        → IfOk result (λ r. r ≡ first_type_refusal (from_each (λ (v : VariableOf). column_rules (columns_stored from.entry.tables.now) before u all v.name) variables.now)) }
{
    let mut found: Option<Refusal<TypeKind>> = None;
    'variables: for v in variables {
        let name = List::from_slice(alloc, v.name.as_str().as_bytes())?;
        let own = clash_of(from, declared, &name);
        found = lesser(found, own);
    }
    Ok(found)
}

/// The rule that is given of those that columns break which are not declared.
fn of_undeclared(
    from: ReadFrom<'_>,
    declared: &KnownNames,
    columns: &[PlacedName],
) -> Option<Refusal<TypeKind>>
    ensures { (before : UnitsBefore) (u : UnitSource) (all : Items VariableOf) → ReadsAsUnit before u from.entry → HasLocals declared.now all
        → result ≡ first_type_refusal (from_each (λ (n : PlacedOf). column_rules (columns_stored from.entry.tables.now) before u all n.name) columns.now) }
{
    let mut found: Option<Refusal<TypeKind>> = None;
    'columns: for n in columns {
        let own = clash_of(from, declared, &n.name);
        found = lesser(found, own);
    }
    found
}

/// The rule that is given of those that the columns of a unit break, those of declared variables and the others.
pub fn of_columns(
    alloc: Global,
    unit: UnitAtHand<'_, '_>,
) -> Result<Option<Refusal<TypeKind>>, OutOfMemory>
    ensures { (before : UnitsBefore) → IsAtHand before unit.entry
        → IfOk result (λ r. r ≡ first_type_refusal (broken_at ClashKind (clashing_tables (columns_at_hand unit.entry) before (source_at_hand unit.entry)))) }
{
    let declared = program_variables(alloc, unit.unit.globals)?;
    let variables = declared.as_slice();
    let known = locals(alloc, variables)?;
    let first = of_declared(alloc, unit.from, &known, variables)?;
    let second = of_undeclared(unit.from, &known, unit.columns);
    Ok(lesser(first, second))
}
