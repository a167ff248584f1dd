//! What a package becomes: its variables, hash objects, iterators and methods.
ghost use Rattle.std.specs.Prelude.{◌≡◌, IfOk};
ghost use Rattle.ds2_elaboration.specs.ProgramTypes.{broken_type_rules, scope_of_declarations};
ghost use Rattle.ds2_elaboration.specs.SourceTypes.{unit_names};
ghost use Rattle.ds2_elaboration.specs.UnitsBefore.{UnitsBefore};
ghost use Rattle.ds2_instance_types.specs.TypedInstanceLists.{AreInstancesOf};
ghost use Rattle.ds2_declared_types.specs.TypesKnown.{TellsTypes};
ghost use Rattle.ds2_names.specs.SourceUnit.{TableColumns, source_methods, unit_of_package};
ghost use Rattle.ds2_program_types.specs.PackageMethods.{AreInstancesAndCalled, AreTyped};
ghost use Rattle.ds2_program_types.specs.TypedPrograms.{IsTypedPackage};
ghost use Rattle.ds2_program_types.specs.UnitsAtHand.{IsAtHand, columns_at_hand, source_at_hand};
ghost use Rattle.ds2_tree.specs.UnitViews.{package_tree};
ghost use Rattle.ds2_types.specs.Judgements.{IsOutcome};

use crate::at_hand::UnitAtHand;
use crate::instances::ruled_instances;
use crate::package_methods::package_methods;
use crate::unit_tables::unit_tables;
use ds2_base::{List, OutOfMemory, Refusal};
use ds2_declared_types::KnownTypes;
use ds2_declared_types::names::name;
use ds2_declared_types::variables::program_variables;
use ds2_instance_types::TypedInstances;
use ds2_meaning::{MentionedTable, Method as TypedMethod, TypeKind, TypedPackage};
use ds2_simple_statement_types::parts::{Both, of_both};
use ds2_tree::Package;
use std::alloc::Global;

/// The instances and the methods of a package, or the one of the rules of types that it breaks that is given.
fn typed_parts(
    alloc: Global,
    made: &[MentionedTable],
    known: &KnownTypes<'_>,
    unit: UnitAtHand<'_, '_>,
) -> Result<Result<Both<TypedInstances, List<TypedMethod>>, Refusal<TypeKind>>, OutOfMemory>
    ensures { (before : UnitsBefore) → TellsTypes known.now before → before.names.made ≡ made.now → IsAtHand before unit.entry
        → IfOk result (IsOutcome (AreInstancesAndCalled (columns_at_hand unit.entry) before (source_at_hand unit.entry)) (broken_type_rules (columns_at_hand unit.entry) before (source_at_hand unit.entry))) }
{
    let scope = unit_tables(alloc, known, unit)?;
    let instances = ruled_instances(alloc, made, known, unit, &scope)?;
    let methods = package_methods(alloc, &scope, unit.unit.globals)?;
    Ok(of_both(instances, methods))
}

/// A package of typed instances and methods.
fn package_of(
    alloc: Global,
    source: &Package,
    typed: TypedInstances,
    methods: List<TypedMethod>,
) -> Result<TypedPackage, OutOfMemory>
    ensures { (tables : TableColumns) (before : UnitsBefore) → AreInstancesOf tables before (scope_of_declarations tables before (unit_of_package (package_tree source.now))) (unit_names tables before (unit_of_package (package_tree source.now))).instances typed
        → AreTyped tables before (unit_of_package (package_tree source.now)) (source_methods (package_tree source.now).globals) methods → IfOk result (IsTypedPackage tables before source.now) }
{
    let variables = program_variables(alloc, source.globals.as_slice())?;
    let name = name(alloc, &source.name)?;
    let TypedInstances {
        instances: _instances,
        hashes,
        iterators,
        threads: _threads,
    } = typed;
    Ok(TypedPackage {
        name,
        variables,
        hashes,
        iterators,
        methods,
    })
}

/// What a package becomes behind other units: a typed package, or the refusal of its types.
pub fn typed_package(
    alloc: Global,
    made: &[MentionedTable],
    known: &KnownTypes<'_>,
    unit: UnitAtHand<'_, '_>,
    source: &Package,
) -> Result<Result<TypedPackage, Refusal<TypeKind>>, OutOfMemory>
    ensures { (before : UnitsBefore) → TellsTypes known.now before → before.names.made ≡ made.now → IsAtHand before unit.entry → source_at_hand unit.entry ≡ unit_of_package (package_tree source.now)
        → IfOk result (IsOutcome (IsTypedPackage (columns_at_hand unit.entry) before source.now) (broken_type_rules (columns_at_hand unit.entry) before (unit_of_package (package_tree source.now)))) }
{
    let typed = typed_parts(alloc, made, known, unit)?;
    match typed {
        Err(refusal) => Ok(Err(refusal)),
        Ok(both) => {
            let own = package_of(alloc, source, both.first, both.second)?;
            Ok(Ok(own))
        }
    }
}
