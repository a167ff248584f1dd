//! Expressions: what is known of their types, and their typed trees or the rules that they break.
ghost use Rattle.std.specs.Prelude.{◌≡◌, ◌++◌, ◌∷◌, [], true, false, List as Items, IfOk, Some, map};
ghost use Rattle.ds2_base.specs.declared.place.Place.{Place as PlaceOf};
ghost use Rattle.ds2_elaboration.specs.ExpressionTypes.{TypeScope, ObjectCalls, is_truth_chain, arguments_for, values_for, object_in_scope, elaborated_named_call, elaborated_instance_call, elaborated_object_call, elaborated_call, elaborated_truth_chain, elaborated_value_chain, elaborated_chain, elaborated, elaborated_operands, elaborated_arguments};
ghost use Rattle.ds2_elaboration.specs.Typings.{TypeRefusals, ElaboratedExpression, clash_unless, form_of_operands, truth_refusals};
ghost use Rattle.ds2_meaning.specs.IsTyped.{expression_type};
ghost use Rattle.ds2_meaning.specs.TypedExpression as typed;
ghost use Rattle.ds2_meaning.specs.declared.globals.Variable.{Variable};
ghost use Rattle.ds2_names.specs.SourceUnit.{spelled_name};
ghost use Rattle.ds2_names.specs.Uses.{method_named};
ghost use Rattle.ds2_tree.specs.Globals.{Method};
ghost use Rattle.ds2_meaning.specs.View.{Part};
ghost use Rattle.ds2_tree.specs.ExpressionViews.{expression_tree, operands_of, arguments_of};
ghost use Rattle.ds2_types.specs.Judgements.{IsOutcome, IsJudged, Judges};
ghost use Rattle.ds2_value.specs.declared.ty.Ty.TheVariants.{BigInt};
ghost use Rattle.ds2_expression_types.specs.Arguments.{AreJudged};
ghost use Rattle.ds2_reference_types.specs.ArgumentTrees.{argument_in};
ghost use Rattle.ds2_expression_types.specs.Growth.{IsGrownChain, IsGrowth};
ghost use Rattle.ds2_reference_types.specs.Passing.{ArePassed, AreAllPassed, passed_part, passed_refusals};
ghost use Rattle.ds2_reference_types.specs.Scopes.{AreKnownMethods, IsKnownObject, IsScopeOf, value_parameter};

use crate::named_functions::{function, null_call};
use crate::places::first_place;
use ds2_base::{List, Name, OutOfMemory, Place};
use ds2_expression_types::constants::{constant_value, null_value};
use ds2_expression_types::growth::{
    GrownOutcome, Growth, finished, finished_truth, grow, grow_truth, seed, seed_truth,
};
use ds2_meaning::Parameter;
use ds2_reference_types::names::{nameless, spelled_name};
use ds2_reference_types::objects::{hash_call, iterator_call};
use ds2_reference_types::parameters::{first_parameter, further_parameters, have_arguments};
use ds2_reference_types::passing::{
    PassedArguments, counted_arguments, pass, result_of, without_result,
};
use ds2_reference_types::scopes::{KnownCalls, KnownMethods, KnownObject, Scope, method_among};
use ds2_reference_types::settable::lent_variable;
use ds2_reference_types::variables::{member_value, variable};
use ds2_token::Token;
use ds2_tree::{Argument, Callee, ChainKind, Expression, Operand};
use ds2_types::judgement::Judgement;
use ds2_types::operators::{comparison, negation, sign};
use std::alloc::Global;

/// The further operands of a chain of numbers or texts.
#[cycle(judge)]
fn value_chain(
    alloc: Global,
    scope: &Scope<'_>,
    rest: &[Operand],
    kind: ChainKind,
    begun: Growth,
) -> Result<Judgement, OutOfMemory>
    ensures { (types : TypeScope) (e : ElaboratedExpression) → IsScopeOf types scope.now → IsGrowth e.node [] (expression_type e.node) e.refusals e.typing begun
        → Judges (elaborated_value_chain kind e (elaborated_operands types (operands_of rest.now))) result }
{
    let mut growth = begun;
    'operands: for operand in rest {
        let x = judge(alloc, scope, &operand.value)?;
        growth = grow(alloc, kind, &operand.operator, growth, x)?;
    }
    finished(alloc, growth)
}

/// The further operands of a chain of `and` or `or`.
#[cycle(judge)]
fn truth_chain(
    alloc: Global,
    scope: &Scope<'_>,
    rest: &[Operand],
    kind: ChainKind,
    begun: GrownOutcome,
) -> Result<Judgement, OutOfMemory>
    ensures { (types : TypeScope) (e : ElaboratedExpression) (place : PlaceOf) → IsScopeOf types scope.now → is_truth_chain kind ≡ true → IsOutcome (IsGrownChain e.node [] BigInt) (truth_refusals place e) begun
        → Judges (elaborated_truth_chain kind place e (elaborated_operands types (operands_of rest.now))) result }
{
    let mut grown = begun;
    'operands: for operand in rest {
        let x = judge(alloc, scope, &operand.value)?;
        let place = first_place(&operand.value);
        grown = grow_truth(alloc, kind, &operand.operator, place, grown, x)?;
    }
    finished_truth(alloc, grown)
}

/// A chain, whose first operand stands at this place.
#[cycle(judge)]
fn chain(
    alloc: Global,
    scope: &Scope<'_>,
    rest: &[Operand],
    kind: ChainKind,
    place: Place,
    first: Judgement,
) -> Result<Judgement, OutOfMemory>
    ensures { (types : TypeScope) (e : ElaboratedExpression) → IsScopeOf types scope.now → IsJudged e first → Judges (elaborated_chain kind place e (elaborated_operands types (operands_of rest.now))) result }
{
    match kind {
        ChainKind::And => truth_chain(alloc, scope, rest, kind, seed_truth(alloc, place, first)),
        ChainKind::Or => truth_chain(alloc, scope, rest, kind, seed_truth(alloc, place, first)),
        ChainKind::Concatenation => value_chain(alloc, scope, rest, kind, seed(alloc, first)),
        ChainKind::Sum => value_chain(alloc, scope, rest, kind, seed(alloc, first)),
        ChainKind::Product => value_chain(alloc, scope, rest, kind, seed(alloc, first)),
    }
}

/// What becomes of arguments, in order.
#[cycle(judge)]
pub fn judged_arguments(
    alloc: Global,
    scope: &Scope<'_>,
    arguments: &[Argument],
) -> Result<List<Judgement>, OutOfMemory>
    ensures { (types : TypeScope) → IsScopeOf types scope.now → IfOk result (AreJudged (elaborated_arguments types (arguments_of arguments.now))) }
{
    let mut judged = List::new(alloc);
    'arguments: for argument in arguments {
        let x = judge(alloc, scope, &argument.value)?;
        judged.push(x)?;
    }
    Ok(judged)
}

/// Arguments for parameters, with one more behind them.
#[cycle(judge)]
fn passed_argument(
    alloc: Global,
    scope: &Scope<'_>,
    argument: &Argument,
    p: &Parameter,
    before: PassedArguments,
) -> Result<PassedArguments, OutOfMemory>
    ensures { (types : TypeScope) (refusals : TypeRefusals) (parts : Items (Part typed.TypedArguments)) → IsScopeOf types scope.now → ArePassed refusals parts before
        → IfOk result (ArePassed (refusals ++ passed_refusals p.now (argument_in types argument.now)) (parts ++ passed_part p.now (argument_in types argument.now) ∷ [])) }
{
    let variable = lent_variable(alloc, scope, p.is_in_out, &argument.value)?;
    let x = judge(alloc, scope, &argument.value)?;
    pass(alloc, p, first_place(&argument.value), variable, x, before)
}

/// Arguments for the parameters of a method whose name stands at this place, in order; another number of them than of
/// parameters is TypeClash at the name.
#[cycle(judge)]
pub fn passed_arguments(
    alloc: Global,
    scope: &Scope<'_>,
    arguments: &[Argument],
    name: Place,
    parameters: &[Parameter],
) -> Result<PassedArguments, OutOfMemory>
    ensures { (types : TypeScope) → IsScopeOf types scope.now → IfOk result (AreAllPassed (arguments_for name parameters.now (elaborated_arguments types (arguments_of arguments.now)))) }
{
    let mut so_far: PassedArguments = Ok(List::new(alloc));
    let mut left = parameters;
    'arguments: for argument in arguments {
        match first_parameter(left) {
            None => return Ok(counted_arguments(false, name, so_far)),
            Some(p) => {
                so_far = passed_argument(alloc, scope, argument, p, so_far)?;
                left = further_parameters(left);
            }
        }
    }
    Ok(counted_arguments(have_arguments(left), name, so_far))
}

/// A call of a name: of the unit's method, else of a function.
#[cycle(judge)]
fn named_call(
    alloc: Global,
    scope: &Scope<'_>,
    name: &Token,
    arguments: &[Argument],
) -> Result<Judgement, OutOfMemory>
    ensures { (types : TypeScope) → IsScopeOf types scope.now → Judges (elaborated_named_call types name.now (elaborated_arguments types (arguments_of arguments.now))) result }
{
    let spelled = spelled_name(alloc, name)?;
    match scope.method(&spelled) {
        None => {
            let judged = judged_arguments(alloc, scope, arguments)?;
            function(alloc, name, judged)
        }
        Some(method) => {
            let parameters = method.parameters.as_slice();
            let passed = passed_arguments(alloc, scope, arguments, name.place, parameters)?;
            result_of(alloc, name.place, None, method, passed)
        }
    }
}

/// An instance of a package, by its name, with the methods of its package.
#[derive(Clone, Copy)]
pub struct KnownInstance<'k> {
    pub name: &'k Name,
    pub methods: &'k KnownMethods,
}

/// A call of a method of an instance of a package.
#[cycle(judge)]
fn instance_call(
    alloc: Global,
    scope: &Scope<'_>,
    instance: KnownInstance<'_>,
    object: &Token,
    name: &Token,
    arguments: &[Argument],
) -> Result<Judgement, OutOfMemory>
    ensures { (types : TypeScope) (sources : Items Method) → IsScopeOf types scope.now → AreKnownMethods sources instance.entry.methods.now → instance.entry.name.now ≡ spelled_name object.now
        → Judges (elaborated_instance_call object.now name.now sources (elaborated_arguments types (arguments_of arguments.now)) (method_named sources (spelled_name name.now))) result }
{
    let spelled = spelled_name(alloc, name)?;
    match method_among(instance.methods, &spelled) {
        None => Ok(nameless(object.place)),
        Some(method) => {
            let parameters = method.parameters.as_slice();
            let passed = passed_arguments(alloc, scope, arguments, name.place, parameters)?;
            result_of(alloc, name.place, Some(instance.name), method, passed)
        }
    }
}

/// `setparms` of an instance of a thread program with these parameters: it returns nothing, so it is TypeClash at its name.
#[cycle(judge)]
fn setting(
    alloc: Global,
    scope: &Scope<'_>,
    parameters: &[Parameter],
    name: &Token,
    arguments: &[Argument],
) -> Result<Judgement, OutOfMemory>
    ensures { (types : TypeScope) (variables : Items Variable) (node : typed.TypedExpression) → IsScopeOf types scope.now → parameters.now ≡ map value_parameter variables
        → Judges (form_of_operands ((values_for name.now.place variables (elaborated_arguments types (arguments_of arguments.now))).refusals ++ clash_unless false name.now.place) node) result }
{
    let passed = passed_arguments(alloc, scope, arguments, name.place, parameters)?;
    Ok(without_result(name.place, passed))
}

/// A call on an object that is known.
#[cycle(judge)]
fn known_call(
    alloc: Global,
    scope: &Scope<'_>,
    known: &KnownObject,
    object: &Token,
    name: &Token,
    arguments: &[Argument],
) -> Result<Judgement, OutOfMemory>
    ensures { (types : TypeScope) (calls : ObjectCalls) → IsScopeOf types scope.now → IsKnownObject (spelled_name object.now) known.now calls
        → Judges (elaborated_object_call object.now name.now (elaborated_arguments types (arguments_of arguments.now)) (Some calls)) result }
{
    match &known.calls {
        KnownCalls::Methods(methods) => {
            let instance = KnownInstance {
                name: &known.name,
                methods,
            };
            instance_call(alloc, scope, instance, object, name, arguments)
        }
        KnownCalls::Hash => hash_call(alloc, &known.name, object, name),
        KnownCalls::Iterator => iterator_call(alloc, &known.name, object, name),
        KnownCalls::Parameters(parameters) => {
            setting(alloc, scope, parameters.as_slice(), name, arguments)
        }
    }
}

/// A call on an object.
#[cycle(judge)]
fn object_call(
    alloc: Global,
    scope: &Scope<'_>,
    object: &Token,
    name: &Token,
    arguments: &[Argument],
) -> Result<Judgement, OutOfMemory>
    ensures { (types : TypeScope) → IsScopeOf types scope.now
        → Judges (elaborated_object_call object.now name.now (elaborated_arguments types (arguments_of arguments.now)) (object_in_scope types (spelled_name object.now))) result }
{
    let spelled = spelled_name(alloc, object)?;
    match scope.object(&spelled) {
        None => Ok(nameless(object.place)),
        Some(known) => known_call(alloc, scope, known, object, name, arguments),
    }
}

/// A call.
#[cycle(judge)]
fn call(
    alloc: Global,
    scope: &Scope<'_>,
    callee: &Callee,
    arguments: &[Argument],
) -> Result<Judgement, OutOfMemory>
    ensures { (types : TypeScope) → IsScopeOf types scope.now → Judges (elaborated_call types callee.now (elaborated_arguments types (arguments_of arguments.now))) result }
{
    match callee {
        Callee::Function(name) => named_call(alloc, scope, name, arguments),
        Callee::Null(keyword) => {
            let judged = judged_arguments(alloc, scope, arguments)?;
            null_call(alloc, keyword.place, judged)
        }
        Callee::Method { object, method, .. } => {
            object_call(alloc, scope, object, method, arguments)
        }
    }
}

/// What becomes of an expression: what is known of its type, and its typed tree or the first of the rules that it breaks.
#[cycle(judge)]
pub fn judge(alloc: Global, scope: &Scope<'_>, e: &Expression) -> Result<Judgement, OutOfMemory>
    ensures { (types : TypeScope) → IsScopeOf types scope.now → Judges (elaborated types (expression_tree e.now)) result }
{
    match e {
        Expression::Constant(token) => constant_value(alloc, token),
        Expression::Null(keyword) => null_value(alloc, keyword.place),
        Expression::Variable(name) => variable(alloc, scope, name),
        Expression::Member { object, member, .. } => member_value(alloc, scope, object, member),
        Expression::Call {
            callee,
            arguments,
            ..
        } => call(alloc, scope, callee, arguments.as_slice()),
        Expression::Parenthesis { inner, .. } => judge(alloc, scope, inner),
        Expression::Sign { operator, operand } => {
            let x = judge(alloc, scope, operand)?;
            sign(alloc, operator, x)
        }
        Expression::Chain { kind, first, rest } => {
            let place = first_place(first);
            let x = judge(alloc, scope, first)?;
            chain(alloc, scope, rest.as_slice(), *kind, place, x)
        }
        Expression::Comparison {
            left,
            operator,
            right,
        } => {
            let a = judge(alloc, scope, left)?;
            let b = judge(alloc, scope, right)?;
            comparison(alloc, operator, a, b)
        }
        Expression::Not { operand, .. } => {
            let place = first_place(operand);
            let x = judge(alloc, scope, operand)?;
            negation(alloc, place, x)
        }
    }
}
