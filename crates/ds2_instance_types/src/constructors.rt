//! Instances of packages, with the calls of their constructors.
ghost use Rattle.std.specs.Prelude.{◌≡◌, IfOk, map, option_copied};
ghost use Rattle.std.specs.Option.{option_map};
ghost use Rattle.ds2_elaboration.specs.ProgramTypes.{arguments_of_constructor, constructor_of};
ghost use Rattle.ds2_reference_types.specs.Passing.{AreAllPassed};
ghost use Rattle.ds2_instance_types.specs.PackageInstances.{construction_of, construction_with, instance_of_types, IsInstanceOf};
ghost use Rattle.ds2_declared_types.specs.TypesKnown.{kept_types};
ghost use Rattle.ds2_meaning.specs.IsTyped.{method_number};
ghost use Rattle.ds2_meaning.specs.TypedExpression.{NoArgument};
ghost use Rattle.ds2_meaning.specs.View.{argument_tree, in_a_row, instance_tree, typed_method};
ghost use Rattle.ds2_names.specs.SourceUnit.{source_methods, spelled_name};
ghost use Rattle.ds2_names.specs.Uses.{method_named};
ghost use Rattle.ds2_tree.specs.UnitViews.{global_tree, method_tree};
ghost use Rattle.ds2_types.specs.Judgements.{IsOutcome};

use crate::constants::passed_constants;
use ds2_base::{List, OutOfMemory, Place, Refusal};
use ds2_declared_types::KnownPackage;
use ds2_declared_types::names::name;
use ds2_declared_types::variables::parameters;
use ds2_meaning::{Argument, Instance as TypedInstance, Method as TypedMethod, TypeKind};
use ds2_reference_types::passing::PassedArguments;
use ds2_scope::{Instance, one_more, spelled_name};
use ds2_tree::{Constant, GlobalItem, Method};
use std::alloc::Global;

/// An instance of a package, or the one of the rules that its constants break that is given.
pub type PackageOutcome = Result<TypedInstance, Refusal<TypeKind>>;

/// The first method of a name that a unit declares.
fn method_named<'g>(
    alloc: Global,
    globals: &'g [GlobalItem],
    name: &[u8],
) -> Result<Option<&'g Method>, OutOfMemory>
    ensures { IfOk result (λ m. option_map method_tree (option_copied m) ≡ method_named (source_methods (map global_tree globals.now)) name.now) }
{
    'globals: for global in globals {
        if let GlobalItem::Method(m) = global {
            let own = spelled_name(alloc, &m.name)?;
            if own.as_slice() == name {
                return Ok(Some(m));
            }
        }
    }
    Ok(None)
}

/// The constants as arguments of the constructor of a package, for an instance whose name stands at this place; none where the package
/// has no constructor.
fn constructor_arguments(
    alloc: Global,
    found: &KnownPackage<'_>,
    place: Place,
    constants: &[Constant],
) -> Result<PassedArguments, OutOfMemory>
    ensures { IfOk result (AreAllPassed (arguments_of_constructor place constants.now (constructor_of (kept_types found.now)))) }
{
    let own = found.typed.get().name.as_str().as_bytes();
    let globals = found.source.globals.as_slice();
    let constructor = method_named(alloc, globals, own)?;
    match constructor {
        None => Ok(Ok(List::new(alloc))),
        Some(m) => {
            let listed = parameters(alloc, m.parameters.list.as_slice())?;
            let passed = passed_constants(alloc, constants, place, listed.as_slice())?;
            Ok(passed)
        }
    }
}

/// The number of the first of these methods that has a name.
fn method_number(methods: &[TypedMethod], name: &[u8]) -> Result<Option<u32>, OutOfMemory>
    ensures { IfOk result (λ n. n ≡ method_number 0 (map typed_method methods.now) name.now) }
{
    let mut number: u32 = 0;
    'methods: for m in methods {
        if m.name.as_str().as_bytes() == name {
            return Ok(Some(number));
        }
        number = one_more(number)?;
    }
    Ok(None)
}

/// The number of the constructor of a package: its method of its own name.
fn constructor_number(found: &KnownPackage<'_>) -> Result<Option<u32>, OutOfMemory>
    ensures { IfOk result (λ n. n ≡ method_number 0 (kept_types found.now).methods (kept_types found.now).name) }
{
    let own = found.typed.get().name.as_str().as_bytes();
    let number = method_number(found.typed.get().methods.as_slice(), own)?;
    Ok(number)
}

/// An instance of a package with these arguments for its constructor.
fn constructed(
    alloc: Global,
    instance: &Instance<'_>,
    found: &KnownPackage<'_>,
    arguments: List<Argument>,
) -> Result<TypedInstance, OutOfMemory>
    ensures tree { IfOk result (λ own. instance_tree own ≡ instance_of_types (spelled_name instance.now.name.now) (kept_types found.now)) }
    ensures construction { IfOk result (λ own. construction_of own ≡ construction_with instance.now.keyword.now.place (spelled_name instance.now.name.now) (kept_types found.now) (in_a_row (map argument_tree arguments) NoArgument)) }
{
    let constructor = constructor_number(found)?;
    let own = name(alloc, instance.name)?;
    let package = found.typed.share()?;
    Ok(TypedInstance {
        place: instance.keyword.place,
        name: own,
        package,
        constructor,
        arguments,
    })
}

/// An instance of a package with its constants, or the one of the rules that they break that is given.
pub fn package_instance(
    alloc: Global,
    instance: &Instance<'_>,
    found: &KnownPackage<'_>,
    constants: &[Constant],
) -> Result<PackageOutcome, OutOfMemory>
    ensures { IfOk result (IsOutcome (IsInstanceOf instance.now constants.now (kept_types found.now)) (arguments_of_constructor instance.now.name.now.place constants.now (constructor_of (kept_types found.now))).refusals) }
{
    let passed = constructor_arguments(alloc, found, instance.name.place, constants)?;
    match passed {
        Err(refusal) => Ok(Err(refusal)),
        Ok(arguments) => {
            let own = constructed(alloc, instance, found, arguments)?;
            Ok(Ok(own))
        }
    }
}
