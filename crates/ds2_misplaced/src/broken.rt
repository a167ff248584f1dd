//! What the declarations of instances break of the rules of names.
ghost use Rattle.std.specs.Prelude.{◌≡◌, IfOk};
ghost use Rattle.ds2_calls.specs.UnitsCalls.{HasCalls};
ghost use Rattle.ds2_misplaced.specs.InstanceRules.{unknown_of, wrong_of, not_variable_of, BreaksInstances};
ghost use Rattle.ds2_misplaced.specs.InstanceTables.{tests_in_tables};
ghost use Rattle.ds2_names.specs.NameRules.{from_each};
ghost use Rattle.ds2_names.specs.SourceUnit.{columns_stored, SourceNames};
ghost use Rattle.ds2_scope.specs.CodeUnits.{instances_in_source};
ghost use Rattle.ds2_scope.specs.Earliest.{earliest};
ghost use Rattle.ds2_scope.specs.UnitNames.{NamesAre};

use crate::rules::{not_variable_in, unknown_in, wrong_in};
use crate::tables::{InstanceScope, global_tables, scope_over};
use ds2_base::{OutOfMemory, Place};
use ds2_calls::Calls;
use ds2_names::NamedSchema;
use ds2_scope::{Instance, UnitNames, earlier_of};
use std::alloc::Global;

/// The earliest places at which declarations of instances break the rules of names, None where they do not.
#[derive(Clone, Copy)]
pub struct BrokenInstances {
    /// A package, a thread program, a variable, a column of a table or a hash object that is not there.
    pub unknown_name: Option<Place>,
    /// Another number of constants than the constructor has parameters.
    pub wrong_count: Option<Place>,
    /// A key variable that is an instance, a data variable that may not be set, a constant for an in_out parameter.
    pub not_variable: Option<Place>,
}

// The earliest name that is not there.
fn unknown_name(
    alloc: Global,
    scope: InstanceScope<'_, '_, '_>,
    tables: &[NamedSchema],
    instances: &[Instance<'_>],
) -> Result<Option<Place>, OutOfMemory>
    ensures { IfOk result (λ place. place ≡ earliest (from_each (unknown_of (columns_stored tables.now) (tests_in_tables scope.entry)) (instances_in_source instances.now))) }
{
    let mut found: Option<Place> = None;
    'instances: for instance in instances {
        found = earlier_of(found, unknown_in(alloc, scope, tables, instance.sort)?);
    }
    Ok(found)
}

// The earliest instance whose constructor takes another number of constants.
fn wrong_count(
    alloc: Global,
    scope: InstanceScope<'_, '_, '_>,
    instances: &[Instance<'_>],
) -> Result<Option<Place>, OutOfMemory>
    ensures { IfOk result (λ place. place ≡ earliest (from_each (wrong_of (tests_in_tables scope.entry)) (instances_in_source instances.now))) }
{
    let mut found: Option<Place> = None;
    'instances: for instance in instances {
        let place = instance.name.place;
        found = earlier_of(found, wrong_in(alloc, scope, place, instance.sort)?);
    }
    Ok(found)
}

// The earliest place of what is no variable.
fn not_variable(
    alloc: Global,
    scope: InstanceScope<'_, '_, '_>,
    instances: &[Instance<'_>],
) -> Result<Option<Place>, OutOfMemory>
    ensures { IfOk result (λ place. place ≡ earliest (from_each (not_variable_of (tests_in_tables scope.entry)) (instances_in_source instances.now))) }
{
    let mut found: Option<Place> = None;
    'instances: for instance in instances {
        found = earlier_of(found, not_variable_in(alloc, scope, instance.sort)?);
    }
    Ok(found)
}

/// The earliest places at which the declarations of these instances break the rules of names, in a unit with these names and calls.
pub fn broken_instances(
    alloc: Global,
    tables: &[NamedSchema],
    calls: &Calls<'_, '_>,
    names: &UnitNames,
    instances: &[Instance<'_>],
) -> Result<BrokenInstances, OutOfMemory>
    ensures { IfOk result (λ b. (all : SourceNames) → NamesAre names.now all → HasCalls calls.now all → instances_in_source instances.now ≡ all.instances → BreaksInstances (columns_stored tables.now) all b) }
{
    let globals = global_tables(alloc, names)?;
    let scope = scope_over(&globals, calls);
    let unknown = unknown_name(alloc, scope, tables, instances)?;
    let wrong = wrong_count(alloc, scope, instances)?;
    let unsettable = not_variable(alloc, scope, instances)?;
    Ok(BrokenInstances {
        unknown_name: unknown,
        wrong_count: wrong,
        not_variable: unsettable,
    })
}
