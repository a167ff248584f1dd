//! The declaration of one instance, typed.
ghost use Rattle.std.specs.Prelude.{◌≡◌, IfOk, option_copied};
ghost use Rattle.ds2_elaboration.specs.ExpressionTypes.{TypeScope};
ghost use Rattle.ds2_elaboration.specs.ProgramTypes.{construction_refusals, instance_refusals, loaded_refusals};
ghost use Rattle.ds2_elaboration.specs.UnitsBefore.{UnitsBefore, package_types};
ghost use Rattle.ds2_instance_types.specs.Declarations.{declared_of_sort, package_declared, IsDeclared};
ghost use Rattle.ds2_instance_types.specs.HashDeclarations.{hash_declared, hash_sort, hash_variables_of};
ghost use Rattle.ds2_declared_types.specs.TypesKnown.{TellsTypes};
ghost use Rattle.ds2_names.specs.SourceUnit.{AnyPackage, AnyThread, HashIterator, TableColumns, columns_stored, spelled_name};
ghost use Rattle.ds2_scope.specs.CodeUnits.{source_instance};
ghost use Rattle.ds2_type_tables.specs.Globals.{HasGlobals};
ghost use Rattle.ds2_types.specs.Judgements.{IsOutcome};

use crate::constructors::{PackageOutcome, package_instance};
use crate::hashes::{HashDeclaration, hash_clash, hash_object, text_name};
use crate::variables::variables_copy;
use ds2_base::{OutOfMemory, Refusal};
use ds2_declared_types::names::name;
use ds2_declared_types::{KnownTypes, parameters_of};
use ds2_meaning::{
    DeclaredHash, DeclaredIterator, Instance as TypedInstance, MentionedTable, ThreadInstance,
    TypeKind,
};
use ds2_names::NamedSchema;
use ds2_reference_types::scopes::KnownNames;
use ds2_scope::{Instance, InstanceSort, spelled_name};
use ds2_token::Token;
use ds2_tree::Constant;
use std::alloc::Global;

/// What a declaration of an instance becomes.
#[derive(Drop)]
pub enum TypedDeclaration {
    /// Nothing: its package or thread program is not there, which the rules of names refuse.
    Nothing,
    Package(TypedInstance),
    Hash(DeclaredHash),
    Iterator(DeclaredIterator),
    Thread(ThreadInstance),
}

/// What a declaration of an instance becomes, or the one of the rules of types that it breaks that is given.
pub type DeclarationOutcome = Result<TypedDeclaration, Refusal<TypeKind>>;

/// What a declaration reads of the unit and of what stands before it.
#[derive(Clone, Copy)]
pub struct InstanceContext<'a, 's> {
    /// The tables that there are, with their columns.
    pub tables: &'a [NamedSchema],
    /// Those that data programs make.
    pub made: &'a [MentionedTable],
    pub known: &'a KnownTypes<'s>,
    /// The globals of the unit.
    pub globals: &'a KnownNames,
}

/// What stands of an instance of a package as what its declaration becomes.
fn as_package(outcome: PackageOutcome) -> DeclarationOutcome
    ensures { result ≡ package_declared outcome }
{
    match outcome {
        Err(refusal) => Err(refusal),
        Ok(own) => Ok(TypedDeclaration::Package(own)),
    }
}

/// An instance of the package of a name.
fn declared_package(
    alloc: Global,
    known: &KnownTypes<'_>,
    instance: &Instance<'_>,
    named: &Token,
    constants: &[Constant],
) -> Result<DeclarationOutcome, OutOfMemory>
    ensures { (tables : TableColumns) (before : UnitsBefore) (scope : TypeScope) → TellsTypes known.now before
        → IfOk result (IsOutcome (IsDeclared tables before scope (declared_of_sort instance.now (AnyPackage named.now constants.now))) (construction_refusals instance.now.name.now.place constants.now (package_types before.packages (spelled_name named.now)))) }
{
    let spelled = spelled_name(alloc, named)?;
    match known.package_named(spelled.as_slice()) {
        None => Ok(Ok(TypedDeclaration::Nothing)),
        Some(found) => {
            let outcome = package_instance(alloc, instance, found, constants)?;
            Ok(as_package(outcome))
        }
    }
}

/// A hash object of this name.
fn object_of(
    alloc: Global,
    context: InstanceContext<'_, '_>,
    named: &Token,
    hash: HashDeclaration<'_>,
) -> Result<DeclaredHash, OutOfMemory>
    ensures { (scope : TypeScope) → HasGlobals context.entry.globals.now scope.unjoined scope.variables scope.parameters scope.flags
        → IfOk result (λ own. own ≡ hash_declared (columns_stored context.entry.tables.now) context.entry.made.now scope (spelled_name named.now) hash.entry) }
{
    let InstanceContext {
        tables,
        made,
        globals,
        ..
    } = context;
    hash_object(alloc, tables, made, globals, named, hash)
}

/// A hash object.
fn declared_hash(
    alloc: Global,
    context: InstanceContext<'_, '_>,
    instance: &Instance<'_>,
    hash: HashDeclaration<'_>,
) -> Result<DeclarationOutcome, OutOfMemory>
    ensures { (before : UnitsBefore) (scope : TypeScope) → before.names.made ≡ context.entry.made.now → HasGlobals context.entry.globals.now scope.unjoined scope.variables scope.parameters scope.flags
        → IfOk result (IsOutcome (IsDeclared (columns_stored context.entry.tables.now) before scope (declared_of_sort instance.now (hash_sort hash.entry))) (loaded_refusals (columns_stored context.entry.tables.now) scope (hash_variables_of hash.entry) (option_copied hash.entry.table))) }
{
    let clash = hash_clash(alloc, context.tables, context.globals, hash)?;
    match clash {
        Some(refusal) => Ok(Err(refusal)),
        None => {
            let own = object_of(alloc, context, instance.name, hash)?;
            Ok(Ok(TypedDeclaration::Hash(own)))
        }
    }
}

/// An iterator over the hash object that a text names.
fn declared_iterator(
    alloc: Global,
    instance: &Instance<'_>,
    hash: &Token,
) -> Result<TypedDeclaration, OutOfMemory>
    ensures { (tables : TableColumns) (before : UnitsBefore) (scope : TypeScope) → IfOk result (IsDeclared tables before scope (declared_of_sort instance.now (HashIterator hash.now))) }
{
    let own = name(alloc, instance.name)?;
    let over = text_name(alloc, hash)?;
    Ok(TypedDeclaration::Iterator(DeclaredIterator {
        name: own,
        hash: over,
    }))
}

/// An instance of the thread program of a name.
fn declared_thread(
    alloc: Global,
    known: &KnownTypes<'_>,
    instance: &Instance<'_>,
    named: &Token,
) -> Result<TypedDeclaration, OutOfMemory>
    ensures { (tables : TableColumns) (before : UnitsBefore) (scope : TypeScope) → TellsTypes known.now before → IfOk result (IsDeclared tables before scope (declared_of_sort instance.now (AnyThread named.now))) }
{
    let spelled = spelled_name(alloc, named)?;
    match known.thread_named(spelled.as_slice()) {
        None => Ok(TypedDeclaration::Nothing),
        Some(thread) => {
            let own = name(alloc, instance.name)?;
            let parameters = variables_copy(alloc, parameters_of(thread.get()))?;
            Ok(TypedDeclaration::Thread(ThreadInstance {
                name: own,
                parameters,
            }))
        }
    }
}

/// What the declaration of an instance becomes, or the one of the rules of types that it breaks that is given.
pub fn declared(
    alloc: Global,
    context: InstanceContext<'_, '_>,
    instance: &Instance<'_>,
) -> Result<DeclarationOutcome, OutOfMemory>
    ensures { (before : UnitsBefore) (scope : TypeScope) → TellsTypes context.entry.known.now before → before.names.made ≡ context.entry.made.now
        → HasGlobals context.entry.globals.now scope.unjoined scope.variables scope.parameters scope.flags
        → IfOk result (IsOutcome (IsDeclared (columns_stored context.entry.tables.now) before scope (source_instance instance.now)) (instance_refusals (columns_stored context.entry.tables.now) before scope (source_instance instance.now) (source_instance instance.now).sort)) }
{
    match instance.sort {
        InstanceSort::Package { package, arguments } => {
            let known = context.known;
            let outcome = declared_package(alloc, known, instance, package, arguments)?;
            Ok(outcome)
        }
        InstanceSort::Hash { keys, items, table } => {
            let hash = HashDeclaration { keys, items, table };
            let outcome = declared_hash(alloc, context, instance, hash)?;
            Ok(outcome)
        }
        InstanceSort::Iterator(hash) => {
            let iterator = declared_iterator(alloc, instance, hash)?;
            Ok(Ok(iterator))
        }
        InstanceSort::Thread(named) => {
            let thread = declared_thread(alloc, context.known, instance, named)?;
            Ok(Ok(thread))
        }
    }
}
