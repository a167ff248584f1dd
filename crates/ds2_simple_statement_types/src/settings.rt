//! `setparms`: values for the parameters of a thread program.
ghost use Rattle.std.specs.Prelude.{◌≡◌, ◌++◌, ◌∷◌, [], List as Items, IfOk, map};
ghost use Rattle.ds2_elaboration.specs.ExpressionTypes.{TypeScope, elaborated_arguments, values_for};
ghost use Rattle.ds2_elaboration.specs.FunctionTypes.{ElaboratedArgument};
ghost use Rattle.ds2_elaboration.specs.Typings.{TypeRefusals, clash_unless};
ghost use Rattle.ds2_reference_types.specs.ArgumentTrees.{argument_in};
ghost use Rattle.ds2_reference_types.specs.Scopes.{IsScopeOf, value_parameter};
ghost use Rattle.ds2_meaning.specs.TypedStatement.{ParameterValue};
ghost use Rattle.ds2_meaning.specs.View.{parameter_tree};
ghost use Rattle.ds2_meaning.specs.declared.globals.Variable.{Variable};
ghost use Rattle.ds2_tree.specs.ExpressionViews.{arguments_of};
ghost use Rattle.ds2_types.specs.Judgements.{first_type_refusal, node_tree, IsJudged, IsOutcome, ruled};
ghost use Rattle.ds2_simple_statement_types.specs.Settings.{setting_of, setting_refusals};
ghost use Rattle.ds2_simple_statement_types.specs.StatementOutcomes.{AreTypedAs};

use crate::parts::with_one;
use ds2_base::{List, OutOfMemory, Place, Refusal};
use ds2_expression_walk::places::first_place;
use ds2_expression_walk::walk::judge;
use ds2_meaning::{Parameter, ParameterSetting, TypeKind};
use ds2_reference_types::parameters::{first_parameter, further_parameters, have_arguments};
use ds2_reference_types::scopes::Scope;
use ds2_tree::Argument;
use ds2_types::assignment::assigned_value;
use ds2_types::judgement::{Judgement, Node};
use ds2_types::refusals::first_of_both;
use ds2_types::rules::clash_unless;
use std::alloc::Global;

/// A value for a parameter, or the first of the rules that are broken in it.
pub type SettingOutcome = Result<ParameterSetting, Refusal<TypeKind>>;

/// Values for parameters, or the first of the rules that are broken in them.
pub type SettingsOutcome = Result<List<ParameterSetting>, Refusal<TypeKind>>;

/// A value for a parameter.
fn setting(alloc: Global, p: &Parameter, node: Node) -> Result<ParameterSetting, OutOfMemory>
    ensures { IfOk result (λ s. parameter_tree s ≡ record { parameter = p.now.name; value = node_tree node }) }
{
    let parameter = p.name.copy(alloc)?;
    Ok(ParameterSetting {
        parameter,
        value: Box::into_inner(node.tree),
    })
}

/// A value for a parameter: it is assigned to the parameter's type.
fn one_setting(
    alloc: Global,
    p: &Parameter,
    place: Place,
    x: Judgement,
) -> Result<SettingOutcome, OutOfMemory>
    ensures { (e : ElaboratedArgument) → e.place ≡ place → IsJudged e.value x → IfOk result (IsOutcome (λ s. parameter_tree s ≡ setting_of p.now e) (setting_refusals p.now e)) }
{
    let outcome = assigned_value(alloc, p.ty, place, x)?;
    match outcome {
        Err(refusal) => Ok(Err(refusal)),
        Ok(node) => {
            let own = setting(alloc, p, node)?;
            Ok(Ok(own))
        }
    }
}

/// Values for parameters, with one more behind them.
fn further_setting(
    alloc: Global,
    scope: &Scope<'_>,
    argument: &Argument,
    p: &Parameter,
    before: SettingsOutcome,
) -> Result<SettingsOutcome, OutOfMemory>
    ensures { (types : TypeScope) (refusals : TypeRefusals) (values : Items ParameterValue) → IsScopeOf types scope.now → AreTypedAs parameter_tree refusals values before
        → IfOk result (AreTypedAs parameter_tree (refusals ++ setting_refusals p.now (argument_in types argument.now)) (values ++ setting_of p.now (argument_in types argument.now) ∷ [])) }
{
    let x = judge(alloc, scope, &argument.value)?;
    let one = one_setting(alloc, p, first_place(&argument.value), x)?;
    with_one(before, one)
}

/// Values once it was looked at whether there are as many as parameters, else TypeClash at the word.
fn counted_settings(as_many: bool, name: Place, settings: SettingsOutcome) -> SettingsOutcome
    ensures { result ≡ ruled settings (first_type_refusal (clash_unless as_many name)) }
{
    let clash = clash_unless(as_many, name);
    match settings {
        Ok(settings) => match clash {
            None => Ok(settings),
            Some(refusal) => Err(refusal),
        },
        Err(refusal) => Err(first_of_both(refusal, clash)),
    }
}

/// Values for the parameters of a thread program, in order, behind the word `setparms` at this place; another number of them than of
/// parameters is TypeClash at the word.
pub fn settings(
    alloc: Global,
    scope: &Scope<'_>,
    arguments: &[Argument],
    name: Place,
    parameters: &[Parameter],
) -> Result<SettingsOutcome, OutOfMemory>
    ensures { (types : TypeScope) (variables : Items Variable) → IsScopeOf types scope.now → parameters.now ≡ map value_parameter variables
        → IfOk result (AreTypedAs parameter_tree (values_for name variables (elaborated_arguments types (arguments_of arguments.now))).refusals
        (values_for name variables (elaborated_arguments types (arguments_of arguments.now))).values) }
{
    let mut so_far: SettingsOutcome = Ok(List::new(alloc));
    let mut left = parameters;
    'arguments: for argument in arguments {
        match first_parameter(left) {
            None => return Ok(counted_settings(false, name, so_far)),
            Some(p) => {
                so_far = further_setting(alloc, scope, argument, p, so_far)?;
                left = further_parameters(left);
            }
        }
    }
    Ok(counted_settings(have_arguments(left), name, so_far))
}
