//! Calls on objects as statements.
ghost use Rattle.std.specs.Prelude.{◌≡◌, List as Items, Some, map};
ghost use Rattle.ds2_elaboration.specs.ExpressionTypes.{TypeScope, ObjectCalls, elaborated_arguments, object_in_scope};
ghost use Rattle.ds2_elaboration.specs.StatementTypes.{instance_call_refusals, instance_call_node, object_call_refusals, object_call_node};
ghost use Rattle.ds2_elaboration.specs.Typings.{TypeRefusals};
ghost use Rattle.ds2_reference_types.specs.Scopes.{AreKnownMethods, IsKnownObject};
ghost use Rattle.ds2_meaning.specs.TypedStatement as typed;
ghost use Rattle.ds2_meaning.specs.View.{parameter_tree, typed_statement};
ghost use Rattle.ds2_names.specs.SourceUnit.{spelled_name};
ghost use Rattle.ds2_names.specs.Uses.{method_named};
ghost use Rattle.ds2_tree.specs.ExpressionViews.{arguments_of};
ghost use Rattle.ds2_tree.specs.Globals.{Method};
ghost use Rattle.ds2_simple_statement_types.specs.MethodScopes.{IsMethodScope};
ghost use Rattle.ds2_simple_statement_types.specs.StatementOutcomes.{AreTypedAs, StandsAs};

use crate::calls::{evaluated, invoked};
use crate::method_scope::MethodScope;
use crate::outcomes::{StatementOutcome, boxed};
use crate::settings::{SettingsOutcome, settings};
use ds2_base::{List, Name, OutOfMemory, Place};
use ds2_expression_walk::walk::{KnownInstance, passed_arguments};
use ds2_meaning::{ParameterSetting, Statement};
use ds2_reference_types::names::{nameless, spelled_name};
use ds2_reference_types::objects::{hash_call, iterator_call};
use ds2_reference_types::scopes::{KnownCalls, KnownObject, method_among};
use ds2_token::Token;
use ds2_tree::Argument;
use std::alloc::Global;

/// A call of a method of an instance of a package; it need not return a value.
fn instance_call(
    alloc: Global,
    scope: &MethodScope<'_>,
    instance: KnownInstance<'_>,
    object: &Token,
    name: &Token,
    arguments: &[Argument],
) -> Result<StatementOutcome, OutOfMemory>
    ensures { (types : TypeScope) (sources : Items Method) → IsMethodScope types scope.now → AreKnownMethods sources instance.entry.methods.now → instance.entry.name.now ≡ spelled_name object.now
        → StandsAs (instance_call_refusals types object.now name.now sources (elaborated_arguments types (arguments_of arguments.now)) (method_named sources (spelled_name name.now)))
        (instance_call_node types object.now.place object.now name.now sources (elaborated_arguments types (arguments_of arguments.now)) (method_named sources (spelled_name name.now))) result }
{
    let spelled = spelled_name(alloc, name)?;
    match method_among(instance.methods, &spelled) {
        None => evaluated(alloc, object.place, nameless(object.place).outcome),
        Some(method) => {
            let parameters = method.parameters.as_slice();
            let passed = passed_arguments(alloc, &scope.names, arguments, name.place, parameters)?;
            let own = Some(instance.name);
            invoked(alloc, object.place, own, method.number, passed)
        }
    }
}

/// The tree of `setparms`.
fn set_node(place: Place, instance: Name, values: List<ParameterSetting>) -> Statement
    ensures { typed_statement result ≡ typed.SetParameters place instance (map parameter_tree values) }
{
    Statement::SetParameters {
        place,
        instance,
        values,
    }
}

/// `setparms` with its values.
fn set(
    alloc: Global,
    place: Place,
    instance: &Name,
    values: SettingsOutcome,
) -> Result<StatementOutcome, OutOfMemory>
    ensures { (refusals : TypeRefusals) (all : Items typed.ParameterValue) → AreTypedAs parameter_tree refusals all values
        → StandsAs refusals (typed.SetParameters place instance.now all) result }
{
    match values {
        Err(refusal) => Ok(Err(refusal)),
        Ok(values) => {
            let own = instance.copy(alloc)?;
            let made = boxed(alloc, set_node(place, own, values))?;
            Ok(Ok(made))
        }
    }
}

/// A call on an object that is known.
fn known_call(
    alloc: Global,
    scope: &MethodScope<'_>,
    known: &KnownObject,
    object: &Token,
    name: &Token,
    arguments: &[Argument],
) -> Result<StatementOutcome, OutOfMemory>
    ensures { (types : TypeScope) (calls : ObjectCalls) → IsMethodScope types scope.now → IsKnownObject (spelled_name object.now) known.now calls
        → StandsAs (object_call_refusals types object.now name.now (elaborated_arguments types (arguments_of arguments.now)) (Some calls))
        (object_call_node types object.now.place object.now name.now (elaborated_arguments types (arguments_of arguments.now)) (Some calls)) result }
{
    match &known.calls {
        KnownCalls::Methods(methods) => {
            let instance = KnownInstance {
                name: &known.name,
                methods,
            };
            instance_call(alloc, scope, instance, object, name, arguments)
        }
        KnownCalls::Hash => {
            let x = hash_call(alloc, &known.name, object, name)?;
            evaluated(alloc, object.place, x.outcome)
        }
        KnownCalls::Iterator => {
            let x = iterator_call(alloc, &known.name, object, name)?;
            evaluated(alloc, object.place, x.outcome)
        }
        KnownCalls::Parameters(parameters) => {
            let all = parameters.as_slice();
            let values = settings(alloc, &scope.names, arguments, name.place, all)?;
            set(alloc, object.place, &known.name, values)
        }
    }
}

/// A call on an object as a statement.
pub fn object_call(
    alloc: Global,
    scope: &MethodScope<'_>,
    object: &Token,
    name: &Token,
    arguments: &[Argument],
) -> Result<StatementOutcome, OutOfMemory>
    ensures { (types : TypeScope) → IsMethodScope types scope.now
        → StandsAs (object_call_refusals types object.now name.now (elaborated_arguments types (arguments_of arguments.now)) (object_in_scope types (spelled_name object.now)))
        (object_call_node types object.now.place object.now name.now (elaborated_arguments types (arguments_of arguments.now)) (object_in_scope types (spelled_name object.now))) result }
{
    let spelled = spelled_name(alloc, object)?;
    match scope.names.object(&spelled) {
        None => evaluated(alloc, object.place, nameless(object.place).outcome),
        Some(known) => known_call(alloc, scope, known, object, name, arguments),
    }
}
