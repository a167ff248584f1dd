//! The objects of a unit.
ghost use Rattle.std.specs.Prelude.{◌≡◌, ◌++◌, ◌∷◌, [], List as Items, IfOk, OnOk, filter, map};
ghost use Rattle.ds2_elaboration.specs.ExpressionTypes.{InstanceCalls, ObjectInScope, ParameterCalls};
ghost use Rattle.ds2_elaboration.specs.ProgramTypes.{calls_of_sort, may_call_on, object_of_instance};
ghost use Rattle.ds2_elaboration.specs.UnitsBefore.{UnitsBefore};
ghost use Rattle.ds2_reference_types.specs.Scopes.{value_parameter, AreKnownCalls, IsKnownObject};
ghost use Rattle.ds2_declared_types.specs.TypesKnown.{parameters_named, sources_named, TellsTypes};
ghost use Rattle.ds2_names.specs.SourceUnit.{SourceInstance, spelled_name};
ghost use Rattle.ds2_scope.specs.CodeUnits.{instance_sort, instances_in_source, source_instance};
ghost use Rattle.ds2_type_tables.specs.Objects.{objects_called, HasObjects};

use crate::methods::methods;
use ds2_base::{List, OutOfMemory};
use ds2_declared_types::KnownTypes;
use ds2_declared_types::names::name;
use ds2_meaning::{Parameter, Variable};
use ds2_reference_types::scopes::{KnownCalls, KnownObject, KnownObjects};
use ds2_scope::{Instance, InstanceSort, UnitKind, spelled_name};
use ds2_token::Token;
use std::alloc::Global;
use std::collections::HashMap;

/// What can be called on an instance of the package of a name: all of its methods.
fn package_calls(
    alloc: Global,
    known: &KnownTypes<'_>,
    name: &Token,
) -> Result<KnownCalls, OutOfMemory>
    ensures { (before : UnitsBefore) → TellsTypes known.now before → IfOk result (λ k. AreKnownCalls k (InstanceCalls (sources_named before.packages (spelled_name name.now)))) }
{
    let spelled = spelled_name(alloc, name)?;
    let globals = known.source_named(spelled.as_slice());
    let table = methods(alloc, UnitKind::Package, globals)?;
    Ok(KnownCalls::Methods(table))
}

/// A parameter of a thread program as one that is given a value.
fn value_parameter(alloc: Global, v: &Variable) -> Result<Parameter, OutOfMemory>
    ensures { IfOk result (λ p. p ≡ value_parameter v.now) }
{
    Ok(Parameter {
        name: v.name.copy(alloc)?,
        ty: v.ty,
        is_in_out: false,
    })
}

/// Parameters of a thread program as parameters that are given values.
fn value_parameters(alloc: Global, variables: &[Variable]) -> Result<List<Parameter>, OutOfMemory>
    ensures { IfOk result (λ parameters. parameters ≡ map value_parameter variables.now) }
{
    let mut parameters: List<Parameter> = List::new(alloc);
    'variables: for v in variables {
        let own = value_parameter(alloc, v)?;
        parameters.push(own)?;
    }
    Ok(parameters)
}

/// What can be called on an instance of the thread program of a name: `setparms` with its parameters.
fn thread_calls(
    alloc: Global,
    known: &KnownTypes<'_>,
    name: &Token,
) -> Result<KnownCalls, OutOfMemory>
    ensures { (before : UnitsBefore) → TellsTypes known.now before → IfOk result (λ k. AreKnownCalls k (ParameterCalls (parameters_named before.threads (spelled_name name.now)))) }
{
    let spelled = spelled_name(alloc, name)?;
    let variables = known.parameters_named(spelled.as_slice());
    let parameters = value_parameters(alloc, variables)?;
    Ok(KnownCalls::Parameters(parameters))
}

/// What can be called on an instance.
fn calls_of_sort(
    alloc: Global,
    known: &KnownTypes<'_>,
    sort: InstanceSort<'_>,
) -> Result<KnownCalls, OutOfMemory>
    ensures { (before : UnitsBefore) → TellsTypes known.now before → IfOk result (λ k. AreKnownCalls k (calls_of_sort before (instance_sort sort.entry))) }
{
    match sort {
        InstanceSort::Package { package, .. } => package_calls(alloc, known, package),
        InstanceSort::Hash { .. } => Ok(KnownCalls::Hash),
        InstanceSort::Iterator(_) => Ok(KnownCalls::Iterator),
        InstanceSort::Thread(thread) => thread_calls(alloc, known, thread),
    }
}

/// An instance with what can be called on it.
fn known_object(
    alloc: Global,
    known: &KnownTypes<'_>,
    instance: &Instance<'_>,
) -> Result<KnownObject, OutOfMemory>
    ensures { (before : UnitsBefore) → TellsTypes known.now before
        → IfOk result (λ k. IsKnownObject (spelled_name instance.now.name.now) k (calls_of_sort before (instance_sort instance.now.sort))) }
{
    let calls = calls_of_sort(alloc, known, instance.sort)?;
    let own = name(alloc, instance.name)?;
    Ok(KnownObject { name: own, calls })
}

/// Adds an instance, unless the table has one of its name.
fn note(
    alloc: Global,
    objects: &mut KnownObjects,
    known: &KnownTypes<'_>,
    instance: &Instance<'_>,
) -> Result<(), OutOfMemory>
    ensures { (before : UnitsBefore) (others : Items ObjectInScope) → TellsTypes known.now before → HasObjects objects.old others
        → OnOk result (HasObjects objects.new (others ++ object_of_instance before (source_instance instance.now) ∷ [])) }
{
    let key = spelled_name(alloc, instance.name)?;
    let listed = objects.contains_key(&key);
    if listed {
        return Ok(());
    }
    let object = known_object(alloc, known, instance)?;
    objects.insert(key, object)?;
    Ok(())
}

/// Whether a method may call something on an instance: `init` on each, another one on those that are none of a thread program.
fn may_call_on(in_init: bool, sort: InstanceSort<'_>) -> bool
    ensures { result ≡ may_call_on in_init (instance_sort sort.entry) }
{
    match sort {
        InstanceSort::Package { .. } => true,
        InstanceSort::Hash { .. } => true,
        InstanceSort::Iterator(_) => true,
        InstanceSort::Thread(_) => in_init,
    }
}

/// Adds an instance, where a method may call something on it and unless the table has one of its name.
fn note_if_called(
    alloc: Global,
    objects: &mut KnownObjects,
    known: &KnownTypes<'_>,
    in_init: bool,
    instance: &Instance<'_>,
) -> Result<(), OutOfMemory>
    ensures { (before : UnitsBefore) (others : Items ObjectInScope) → TellsTypes known.now before → HasObjects objects.old others
        → OnOk result (HasObjects objects.new (others ++ objects_called before in_init (source_instance instance.now ∷ []))) }
{
    let calls = may_call_on(in_init, instance.sort);
    if calls {
        note(alloc, objects, known, instance)
    } else {
        Ok(())
    }
}

/// The table of the instances of a unit on which a method, `init` or another one, may call something; of one name the first counts.
pub fn objects(
    alloc: Global,
    known: &KnownTypes<'_>,
    instances: &[Instance<'_>],
    in_init: bool,
) -> Result<KnownObjects, OutOfMemory>
    ensures { (before : UnitsBefore) → TellsTypes known.now before
        → IfOk result (λ table. HasObjects table (map (object_of_instance before) (filter (λ (i : SourceInstance). may_call_on in_init i.sort) (instances_in_source instances.now)))) }
{
    let mut table: KnownObjects = HashMap::new(alloc);
    'instances: for instance in instances {
        note_if_called(alloc, &mut table, known, in_init, instance)?;
    }
    Ok(table)
}
