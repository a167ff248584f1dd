//! Calls as statements.
ghost use Rattle.std.specs.Prelude.{◌≡◌, map};
ghost use Rattle.std.specs.Option.{option_copied};
ghost use Rattle.ds2_elaboration.specs.ExpressionTypes.{TypeScope, ElaboratedArguments, elaborated_arguments};
ghost use Rattle.ds2_elaboration.specs.StatementTypes.{call_refusals, call_node};
ghost use Rattle.ds2_elaboration.specs.Typings.{TypeRefusals};
ghost use Rattle.ds2_meaning.specs.TypedExpression.{TypedExpression, NoArgument};
ghost use Rattle.ds2_meaning.specs.TypedStatement as typed;
ghost use Rattle.ds2_meaning.specs.View.{in_a_row, argument_tree, call_tree, typed_statement};
ghost use Rattle.ds2_names.specs.Uses.{callee_place};
ghost use Rattle.ds2_tree.specs.ExpressionViews.{arguments_of};
ghost use Rattle.ds2_tree.specs.declared.expressions.Callee.TheVariants as callee;
ghost use Rattle.ds2_types.specs.Judgements.{node_tree};
ghost use Rattle.ds2_reference_types.specs.Passing.{AreAllPassed};
ghost use Rattle.ds2_simple_statement_types.specs.MethodScopes.{IsMethodScope};
ghost use Rattle.ds2_simple_statement_types.specs.StatementOutcomes.{IsNodeAs, StandsAs};

use crate::method_scope::MethodScope;
use crate::object_calls::object_call;
use crate::outcomes::{StatementOutcome, boxed};
use ds2_base::{List, Name, OutOfMemory, Place};
use ds2_expression_walk::named_functions::{function, null_call};
use ds2_expression_walk::walk::{judged_arguments, passed_arguments};
use ds2_meaning::{Argument as TypedArgument, Call, Statement};
use ds2_reference_types::names::spelled_name;
use ds2_reference_types::passing::{PassedArguments, copied};
use ds2_token::Token;
use ds2_tree::{Argument, Callee};
use ds2_types::judgement::{Node, Outcome};
use std::alloc::Global;

/// A call of the method of this number, of an instance or of the unit itself.
fn method_call(instance: Option<Name>, number: u32, arguments: List<TypedArgument>) -> Call
    ensures { call_tree result ≡ record { instance = instance; method = number; arguments = in_a_row (map argument_tree arguments) NoArgument } }
{
    Call {
        instance,
        method: number,
        arguments,
    }
}

/// The tree of a call of the method of this number, whose result is dropped.
fn invoke_node(
    place: Place,
    instance: Option<Name>,
    number: u32,
    arguments: List<TypedArgument>,
) -> Statement
    ensures { typed_statement result ≡ typed.Invoke place instance number (in_a_row (map argument_tree arguments) NoArgument) }
{
    let call = method_call(instance, number, arguments);
    Statement::Invoke { place, call }
}

/// The tree of an expression whose value is dropped.
fn evaluate_node(place: Place, value: Node) -> Statement
    ensures { typed_statement result ≡ typed.Evaluate place (node_tree value) }
{
    Statement::Evaluate {
        place,
        value: Box::into_inner(value.tree),
    }
}

/// A call of the method of this number, of an instance or of the unit itself, with its arguments.
pub fn invoked(
    alloc: Global,
    place: Place,
    instance: Option<&Name>,
    number: u32,
    arguments: PassedArguments,
) -> Result<StatementOutcome, OutOfMemory>
    ensures { (a : ElaboratedArguments) → AreAllPassed a arguments → StandsAs a.refusals (typed.Invoke place (option_copied instance.entry) number a.arguments) result }
{
    match arguments {
        Err(refusal) => Ok(Err(refusal)),
        Ok(arguments) => {
            let own = copied(alloc, instance)?;
            let made = boxed(alloc, invoke_node(place, own, number, arguments))?;
            Ok(Ok(made))
        }
    }
}

/// An expression whose value is dropped.
pub fn evaluated(
    alloc: Global,
    place: Place,
    outcome: Outcome,
) -> Result<StatementOutcome, OutOfMemory>
    ensures { (refusals : TypeRefusals) (node : TypedExpression) → IsNodeAs refusals node outcome → StandsAs refusals (typed.Evaluate place node) result }
{
    match outcome {
        Err(refusal) => Ok(Err(refusal)),
        Ok(value) => {
            let made = boxed(alloc, evaluate_node(place, value))?;
            Ok(Ok(made))
        }
    }
}

/// A call of a name as a statement: of the unit's method, which need not return a value, or of a function.
fn named_call(
    alloc: Global,
    scope: &MethodScope<'_>,
    name: &Token,
    arguments: &[Argument],
) -> Result<StatementOutcome, OutOfMemory>
    ensures { (types : TypeScope) → IsMethodScope types scope.now
        → StandsAs (call_refusals types (callee.Function name.now) (elaborated_arguments types (arguments_of arguments.now)))
        (call_node types name.now.place (callee.Function name.now) (elaborated_arguments types (arguments_of arguments.now))) result }
{
    let spelled = spelled_name(alloc, name)?;
    match scope.names.method(&spelled) {
        None => {
            let judged = judged_arguments(alloc, &scope.names, arguments)?;
            let x = function(alloc, name, judged)?;
            evaluated(alloc, name.place, x.outcome)
        }
        Some(method) => {
            let parameters = method.parameters.as_slice();
            let passed = passed_arguments(alloc, &scope.names, arguments, name.place, parameters)?;
            invoked(alloc, name.place, None, method.number, passed)
        }
    }
}

/// `null(..)` as a statement.
fn null_test(
    alloc: Global,
    scope: &MethodScope<'_>,
    keyword: &Token,
    arguments: &[Argument],
) -> Result<StatementOutcome, OutOfMemory>
    ensures { (types : TypeScope) → IsMethodScope types scope.now
        → StandsAs (call_refusals types (callee.Null keyword.now) (elaborated_arguments types (arguments_of arguments.now)))
        (call_node types keyword.now.place (callee.Null keyword.now) (elaborated_arguments types (arguments_of arguments.now))) result }
{
    let judged = judged_arguments(alloc, &scope.names, arguments)?;
    let x = null_call(alloc, keyword.place, judged)?;
    evaluated(alloc, keyword.place, x.outcome)
}

/// A call as a statement, at the place of its first token.
pub fn call(
    alloc: Global,
    scope: &MethodScope<'_>,
    callee: &Callee,
    arguments: &[Argument],
) -> Result<StatementOutcome, OutOfMemory>
    ensures { (types : TypeScope) → IsMethodScope types scope.now
        → StandsAs (call_refusals types callee.now (elaborated_arguments types (arguments_of arguments.now)))
        (call_node types (callee_place callee.now) callee.now (elaborated_arguments types (arguments_of arguments.now))) result }
{
    match callee {
        Callee::Function(name) => named_call(alloc, scope, name, arguments),
        Callee::Null(keyword) => null_test(alloc, scope, keyword, arguments),
        Callee::Method { object, method, .. } => {
            object_call(alloc, scope, object, method, arguments)
        }
    }
}
