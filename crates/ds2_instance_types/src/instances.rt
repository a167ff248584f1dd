//! The instances of a unit, typed.
ghost use Rattle.std.specs.Prelude.{◌≡◌, ◌++◌, ◌∷◌, [], List as Items, IfOk, OnOk};
ghost use Rattle.ds2_elaboration.specs.ExpressionTypes.{TypeScope};
ghost use Rattle.ds2_elaboration.specs.ProgramTypes.{instance_refusals};
ghost use Rattle.ds2_elaboration.specs.UnitsBefore.{UnitsBefore};
ghost use Rattle.ds2_elaboration.specs.Typings.{TypeRefusals};
ghost use Rattle.ds2_instance_types.specs.Declarations.{IsDeclared};
ghost use Rattle.ds2_instance_types.specs.FurtherInstances.{instances_and};
ghost use Rattle.ds2_instance_types.specs.TypedInstanceLists.{instances_rules, AreDeclared, AreInstancesOf, IsGrownBy};
ghost use Rattle.ds2_declared_types.specs.TypesKnown.{TellsTypes};
ghost use Rattle.ds2_names.specs.NameRules.{from_each};
ghost use Rattle.ds2_names.specs.SourceUnit.{SourceInstance, TableColumns, columns_stored};
ghost use Rattle.ds2_scope.specs.CodeUnits.{instances_in_source};
ghost use Rattle.ds2_type_tables.specs.Globals.{HasGlobals};
ghost use Rattle.ds2_types.specs.Judgements.{IsOutcome};

use crate::declarations::{DeclarationOutcome, InstanceContext, TypedDeclaration, declared};
use ds2_base::{List, OutOfMemory, Refusal};
use ds2_declared_types::KnownTypes;
use ds2_meaning::{
    DeclaredHash, DeclaredIterator, Instance as TypedInstance, MentionedTable, ThreadInstance,
    TypeKind,
};
use ds2_names::NamedSchema;
use ds2_reference_types::scopes::KnownNames;
use ds2_scope::Instance;
use ds2_types::refusals::first_of_both;
use std::alloc::Global;

/// The instances of a unit, each kind in order.
#[derive(Drop)]
pub struct TypedInstances {
    /// The instances of packages, with the calls of their constructors.
    pub instances: List<TypedInstance>,
    pub hashes: List<DeclaredHash>,
    pub iterators: List<DeclaredIterator>,
    pub threads: List<ThreadInstance>,
}

/// The instances of a unit, or the one of the rules of types that they break that is given.
pub type InstancesOutcome = Result<TypedInstances, Refusal<TypeKind>>;

/// No instance.
fn no_instances(alloc: Global) -> TypedInstances
    ensures { (tables : TableColumns) (before : UnitsBefore) (scope : TypeScope) → AreDeclared tables before scope [] result }
{
    TypedInstances {
        instances: List::new(alloc),
        hashes: List::new(alloc),
        iterators: List::new(alloc),
        threads: List::new(alloc),
    }
}

/// Adds what a declaration becomes.
fn add(all: &mut TypedInstances, d: TypedDeclaration) -> Result<(), OutOfMemory>
    ensures { OnOk result (IsGrownBy all.old d all.new) }
{
    match d {
        TypedDeclaration::Nothing => Ok(()),
        TypedDeclaration::Package(own) => all.instances.push(own),
        TypedDeclaration::Hash(own) => all.hashes.push(own),
        TypedDeclaration::Iterator(own) => all.iterators.push(own),
        TypedDeclaration::Thread(own) => all.threads.push(own),
    }
}

/// Instances with what one more declaration becomes.
fn with_declaration(
    mut all: TypedInstances,
    d: TypedDeclaration,
) -> Result<TypedInstances, OutOfMemory>
    ensures { (tables : TableColumns) (before : UnitsBefore) (scope : TypeScope) (done : Items SourceInstance) (i : SourceInstance) → AreDeclared tables before scope done all → IsDeclared tables before scope i d
        → IfOk result (AreDeclared tables before scope (done ++ i ∷ [])) }
{
    add(&mut all, d)?;
    Ok(all)
}

/// Instances, and what one more declaration becomes.
#[derive(Drop)]
pub struct FurtherInstance {
    pub all: TypedInstances,
    pub own: TypedDeclaration,
}

/// What stands of instances and of one more declaration.
fn instances_and(
    all: InstancesOutcome,
    d: DeclarationOutcome,
) -> Result<FurtherInstance, Refusal<TypeKind>>
    ensures { result ≡ instances_and all d }
{
    match all {
        Ok(all) => match d {
            Ok(own) => Ok(FurtherInstance { all, own }),
            Err(refusal) => Err(refusal),
        },
        Err(refusal) => match d {
            Ok(_) => Err(refusal),
            Err(other) => Err(first_of_both(refusal, Some(other))),
        },
    }
}

/// What stands of instances with one more declaration.
fn further(all: InstancesOutcome, d: DeclarationOutcome) -> Result<InstancesOutcome, OutOfMemory>
    ensures { (tables : TableColumns) (before : UnitsBefore) (scope : TypeScope) (done : Items SourceInstance) (i : SourceInstance) (xs ys : TypeRefusals) → IsOutcome (AreDeclared tables before scope done) xs all
        → IsOutcome (IsDeclared tables before scope i) ys d → IfOk result (IsOutcome (AreDeclared tables before scope (done ++ i ∷ [])) (xs ++ ys)) }
{
    match instances_and(all, d) {
        Err(refusal) => Ok(Err(refusal)),
        Ok(parts) => {
            let more = with_declaration(parts.all, parts.own)?;
            Ok(Ok(more))
        }
    }
}

/// The instances of a unit, one after the other.
fn declared_instances(
    alloc: Global,
    context: InstanceContext<'_, '_>,
    instances: &[Instance<'_>],
) -> Result<InstancesOutcome, OutOfMemory>
    ensures { (before : UnitsBefore) (scope : TypeScope) → TellsTypes context.entry.known.now before → before.names.made ≡ context.entry.made.now
        → HasGlobals context.entry.globals.now scope.unjoined scope.variables scope.parameters scope.flags
        → IfOk result (IsOutcome (AreDeclared (columns_stored context.entry.tables.now) before scope (instances_in_source instances.now)) (instances_rules (columns_stored context.entry.tables.now) before scope (instances_in_source instances.now))) }
{
    let mut all: InstancesOutcome = Ok(no_instances(alloc));
    'instances: for instance in instances {
        let own = declared(alloc, context, instance)?;
        all = further(all, own)?;
    }
    Ok(all)
}

/// The instances of a unit with these globals, over the tables of the store, behind data programs that make these tables and behind
/// packages and thread programs that are known; or the one of the rules of types that they break that is given.
pub fn typed_instances(
    alloc: Global,
    tables: &[NamedSchema],
    made: &[MentionedTable],
    known: &KnownTypes<'_>,
    globals: &KnownNames,
    instances: &[Instance<'_>],
) -> Result<InstancesOutcome, OutOfMemory>
    ensures { (before : UnitsBefore) (scope : TypeScope) → TellsTypes known.now before → before.names.made ≡ made.now → HasGlobals globals.now scope.unjoined scope.variables scope.parameters scope.flags
        → IfOk result (IsOutcome (AreInstancesOf (columns_stored tables.now) before scope (instances_in_source instances.now)) (from_each (λ (i : SourceInstance). instance_refusals (columns_stored tables.now) before scope i i.sort) (instances_in_source instances.now))) }
{
    let context = InstanceContext {
        tables,
        made,
        known,
        globals,
    };
    let outcome = declared_instances(alloc, context, instances)?;
    Ok(outcome)
}
