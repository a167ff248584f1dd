//! The constants with which a constructor is called.
ghost use Rattle.std.specs.Prelude.{◌≡◌, ◌++◌, ◌∷◌, [], List as Items, IfOk, unwrap_or};
ghost use Rattle.ds2_elaboration.specs.ExpressionTypes.{arguments_for};
ghost use Rattle.ds2_elaboration.specs.OperatorTypes.{minus_prefix};
ghost use Rattle.ds2_elaboration.specs.ProgramTypes.{constructor_arguments, elaborated_constant, signed_node};
ghost use Rattle.ds2_elaboration.specs.Typings.{TypeRefusals, form_of_operands};
ghost use Rattle.ds2_reference_types.specs.Passing.{ArePassed, AreAllPassed, passed_part, passed_refusals};
ghost use Rattle.ds2_instance_types.specs.ConstantArguments.{constant_argument, negated_node};
ghost use Rattle.ds2_meaning.specs.TypedExpression.{TypedArguments, TypedExpression};
ghost use Rattle.ds2_meaning.specs.View.{Part};
ghost use Rattle.ds2_types.specs.Judgements.{node_tree, IsJudged, Judges};

use ds2_base::{List, OutOfMemory, Place};
use ds2_expression_types::constants::{constant_value, null_value};
use ds2_meaning::{Parameter, Prefix};
use ds2_reference_types::parameters::{first_parameter, further_parameters, have_arguments};
use ds2_reference_types::passing::{PassedArguments, counted_arguments, pass};
use ds2_tree::Constant;
use ds2_types::judgement::{Judgement, Node, Outcome, Typing};
use ds2_types::nodes::prefixed;
use ds2_types::rules::is_integer;
use ds2_value::Ty;
use std::alloc::Global;

/// The operator that `-` before a value of this type is.
fn minus_prefix(ty: Ty) -> Prefix
    ensures { result ≡ minus_prefix ty }
{
    if is_integer(ty) {
        Prefix::IntegerNegate
    } else {
        Prefix::DecimalNegate
    }
}

/// A value behind `-`.
fn negated(alloc: Global, operand: Node) -> Result<Node, OutOfMemory>
    ensures { IfOk result (λ n. node_tree n ≡ negated_node (node_tree operand)) }
{
    let ty = operand.ty;
    let node = prefixed(alloc, minus_prefix(ty), operand, ty)?;
    Ok(node)
}

/// What stands of an expression, whatever is known of its type.
fn outcome_of(x: Judgement) -> Outcome
    ensures { result ≡ x.outcome }
{
    x.outcome
}

/// A number or text behind `-`.
fn negated_constant(alloc: Global, x: Judgement) -> Result<Judgement, OutOfMemory>
    ensures { (node : TypedExpression) → IsJudged (form_of_operands [] node) x → Judges (form_of_operands [] (negated_node node)) result }
{
    match outcome_of(x) {
        Err(refusal) => Ok(Judgement {
            typing: Typing::Unknown,
            outcome: Err(refusal),
        }),
        Ok(operand) => {
            let node = negated(alloc, operand)?;
            Ok(Judgement {
                typing: Typing::Known(node.ty),
                outcome: Ok(node),
            })
        }
    }
}

/// A number or text, behind `-` or not.
fn signed(alloc: Global, minus: Option<Place>, x: Judgement) -> Result<Judgement, OutOfMemory>
    ensures { (node : TypedExpression) → IsJudged (form_of_operands [] node) x → Judges (form_of_operands [] (signed_node minus node)) result }
{
    match minus {
        None => Ok(x),
        Some(_) => negated_constant(alloc, x),
    }
}

/// A constant of a declaration of an instance.
fn judged(alloc: Global, c: &Constant) -> Result<Judgement, OutOfMemory>
    ensures { Judges (elaborated_constant c.now) result }
{
    let null = c.value.is_word("null");
    if null {
        null_value(alloc, c.value.place)
    } else {
        let x = constant_value(alloc, &c.value)?;
        signed(alloc, c.minus, x)
    }
}

/// The place of the first token of a constant.
fn first_place(c: &Constant) -> Place
    ensures { result ≡ unwrap_or c.now.minus c.now.value.place }
{
    match c.minus {
        None => c.value.place,
        Some(place) => place,
    }
}

/// Arguments for parameters, with one constant more behind them.
fn passed_constant(
    alloc: Global,
    c: &Constant,
    p: &Parameter,
    before: PassedArguments,
) -> Result<PassedArguments, OutOfMemory>
    ensures { (refusals : TypeRefusals) (parts : Items (Part TypedArguments)) → ArePassed refusals parts before
        → IfOk result (ArePassed (refusals ++ passed_refusals p.now (constant_argument c.now)) (parts ++ passed_part p.now (constant_argument c.now) ∷ [])) }
{
    let x = judged(alloc, c)?;
    pass(alloc, p, first_place(c), None, x, before)
}

/// Constants for the parameters of a constructor whose instance has its name at this place, in order; another number of them than of
/// parameters is TypeClash at the name.
pub fn passed_constants(
    alloc: Global,
    constants: &[Constant],
    name: Place,
    parameters: &[Parameter],
) -> Result<PassedArguments, OutOfMemory>
    ensures { IfOk result (AreAllPassed (arguments_for name parameters.now (constructor_arguments constants.now))) }
{
    let mut so_far: PassedArguments = Ok(List::new(alloc));
    let mut left = parameters;
    'constants: for c in constants {
        match first_parameter(left) {
            None => return Ok(counted_arguments(false, name, so_far)),
            Some(p) => {
                so_far = passed_constant(alloc, c, p, so_far)?;
                left = further_parameters(left);
            }
        }
    }
    Ok(counted_arguments(have_arguments(left), name, so_far))
}
