//! Arguments of methods: by value, or variables that are handed in and out.
ghost use Rattle.std.specs.Prelude.{◌≡◌, ◌++◌, ◌∷◌, [], false, List as Items, IfOk, Err, Some, None, map, is_some};
ghost use Rattle.std.specs.Option.{option_copied};
ghost use Rattle.ds2_value.specs.Types.{same_ty};
ghost use Rattle.ds2_base.specs.declared.place.Place.{Place as PlaceOf};
ghost use Rattle.ds2_elaboration.specs.ExpressionTypes.{ElaboratedArguments, reference_in, result_of_method};
ghost use Rattle.ds2_elaboration.specs.FunctionTypes.{ElaboratedArgument};
ghost use Rattle.ds2_elaboration.specs.Typings.{TypeRefusals, clash_unless, form_of_operands, where_known};
ghost use Rattle.ds2_meaning.specs.TypedExpression as tree;
ghost use Rattle.ds2_meaning.specs.View.{Part, in_a_row, typed_expression, argument_tree};
ghost use Rattle.ds2_types.specs.Judgements.{first_type_refusal, typing_of, node_tree, IsJudged, Judges, ruled};
ghost use Rattle.ds2_reference_types.specs.FurtherArguments.{arguments_and};
ghost use Rattle.ds2_reference_types.specs.Passing.{part_of_value, part_of_variable, lent_variable, passed_part, passed_refusals, IsByValue, IsLent, IsPassed, ArePassed, AreAllPassed};

use crate::scopes::KnownMethod;
use ds2_base::{List, Name, OutOfMemory, Place, Refusal};
use ds2_meaning::{Argument, Call, Expression, Parameter, Reference, TypeKind};
use ds2_types::assignment::assigned_value;
use ds2_types::judgement::{Judgement, Node, Outcome, Typing};
use ds2_types::refusals::{first_of_both, refusal, ruled};
use ds2_types::rules::{clash_unless, is_one};
use ds2_value::Ty;
use std::alloc::Global;

/// An argument for a parameter, or the first of the rules that are broken in it.
pub type PassedArgument = Result<Argument, Refusal<TypeKind>>;

/// Arguments for parameters, or the first of the rules that are broken in them.
pub type PassedArguments = Result<List<Argument>, Refusal<TypeKind>>;

/// A variable that is handed in and out has exactly the parameter's type, else TypeClash at its place.
fn type_clash(ty: Ty, place: Place, typing: Typing) -> Option<Refusal<TypeKind>>
    ensures { result ≡ first_type_refusal (where_known (typing_of typing) (λ own. clash_unless (same_ty own ty) place)) }
{
    match typing {
        Typing::Known(own) => clash_unless(is_one(own, ty), place),
        Typing::NullAt(_) => None,
        Typing::Unknown => None,
    }
}

/// The rule that is given where a further one is broken.
fn broken(outcome: Outcome, clash: Refusal<TypeKind>) -> Refusal<TypeKind>
    ensures { Err result ≡ ruled outcome (Some clash) }
{
    match outcome {
        Ok(_) => clash,
        Err(refusal) => first_of_both(refusal, Some(clash)),
    }
}

/// What is no variable.
fn unlent(ty: Ty, place: Place, x: Judgement) -> Refusal<TypeKind>
    ensures { (e : ElaboratedArgument) → e.place ≡ place → IsJudged e.value x → is_some (reference_in e.value.node) ≡ false → IsLent ty e (Err result) }
{
    let other = type_clash(ty, place, x.typing);
    first_of_both(
        broken(x.outcome, refusal(TypeKind::TypeClash, place)),
        other,
    )
}

/// A variable.
fn lent(ty: Ty, place: Place, variable: Reference, x: Judgement) -> PassedArgument
    ensures { (e : ElaboratedArgument) → e.place ≡ place → IsJudged e.value x → reference_in e.value.node ≡ Some variable → IsLent ty e result }
{
    let other = type_clash(ty, place, x.typing);
    match ruled(x.outcome, other) {
        Ok(_) => Ok(by_variable(variable)),
        Err(refusal) => Err(refusal),
    }
}

/// A variable for an in_out parameter.
fn by_variable(variable: Reference) -> Argument
    ensures { argument_tree result ≡ part_of_variable (Some variable) }
{
    Argument::InOut(variable)
}

/// An argument that is handed in and out: a variable of exactly the parameter's type.
fn in_out_argument(
    ty: Ty,
    place: Place,
    variable: Option<Reference>,
    x: Judgement,
) -> PassedArgument
    ensures { (e : ElaboratedArgument) → e.place ≡ place → IsJudged e.value x → variable ≡ reference_in e.value.node → IsLent ty e result }
{
    match variable {
        None => Err(unlent(ty, place, x)),
        Some(found) => lent(ty, place, found, x),
    }
}

/// An argument by value: it is assigned to the parameter's type.
fn value_argument(
    alloc: Global,
    ty: Ty,
    place: Place,
    x: Judgement,
) -> Result<PassedArgument, OutOfMemory>
    ensures { (e : ElaboratedArgument) → e.place ≡ place → IsJudged e.value x → IfOk result (IsByValue ty e) }
{
    let outcome = assigned_value(alloc, ty, place, x)?;
    match outcome {
        Ok(node) => Ok(Ok(by_value(node))),
        Err(refusal) => Ok(Err(refusal)),
    }
}

/// A value for a parameter.
fn by_value(node: Node) -> Argument
    ensures { argument_tree result ≡ part_of_value (node_tree node) }
{
    Argument::Value(Box::into_inner(node.tree))
}

/// An argument for a parameter; where the parameter is in_out, the variable that the argument is stands beside it.
fn passed(
    alloc: Global,
    p: &Parameter,
    place: Place,
    variable: Option<Reference>,
    x: Judgement,
) -> Result<PassedArgument, OutOfMemory>
    ensures { (e : ElaboratedArgument) → e.place ≡ place → IsJudged e.value x → variable ≡ lent_variable p.now.is_in_out e.value.node → IfOk result (IsPassed p.now e) }
{
    let in_out = p.is_in_out;
    if in_out {
        Ok(in_out_argument(p.ty, place, variable, x))
    } else {
        value_argument(alloc, p.ty, place, x)
    }
}

/// Arguments, and one behind them.
#[derive(Drop)]
pub struct FurtherArgument {
    pub arguments: List<Argument>,
    pub argument: Argument,
}

/// What stands of arguments and of one behind them.
fn arguments_and(
    arguments: PassedArguments,
    argument: PassedArgument,
) -> Result<FurtherArgument, Refusal<TypeKind>>
    ensures { result ≡ arguments_and arguments argument }
{
    match arguments {
        Ok(arguments) => match argument {
            Ok(argument) => Ok(FurtherArgument {
                arguments,
                argument,
            }),
            Err(refusal) => Err(refusal),
        },
        Err(refusal) => match argument {
            Ok(_) => Err(refusal),
            Err(further) => Err(first_of_both(refusal, Some(further))),
        },
    }
}

/// Arguments with the one behind them.
fn with_argument(further: FurtherArgument) -> Result<List<Argument>, OutOfMemory>
    ensures { IfOk result (λ all. all ≡ further.arguments ++ further.argument ∷ []) }
{
    let FurtherArgument {
        mut arguments,
        argument,
    } = further;
    arguments.push(argument)?;
    Ok(arguments)
}

/// Arguments with one more behind them.
pub fn pass(
    alloc: Global,
    p: &Parameter,
    place: Place,
    variable: Option<Reference>,
    x: Judgement,
    before: PassedArguments,
) -> Result<PassedArguments, OutOfMemory>
    ensures { (refusals : TypeRefusals) (parts : Items (Part tree.TypedArguments)) (e : ElaboratedArgument) → ArePassed refusals parts before → e.place ≡ place → IsJudged e.value x
        → variable ≡ lent_variable p.now.is_in_out e.value.node
        → IfOk result (ArePassed (refusals ++ passed_refusals p.now e) (parts ++ passed_part p.now e ∷ [])) }
{
    let argument = passed(alloc, p, place, variable, x)?;
    match arguments_and(before, argument) {
        Err(refusal) => Ok(Err(refusal)),
        Ok(further) => {
            let all = with_argument(further)?;
            Ok(Ok(all))
        }
    }
}

/// Arguments once it was looked at whether there are as many as parameters, else TypeClash at the method's name.
pub fn counted_arguments(as_many: bool, name: Place, arguments: PassedArguments) -> PassedArguments
    ensures { result ≡ ruled arguments (first_type_refusal (clash_unless as_many name)) }
{
    let clash = clash_unless(as_many, name);
    match arguments {
        Ok(arguments) => match clash {
            None => Ok(arguments),
            Some(refusal) => Err(refusal),
        },
        Err(refusal) => Err(first_of_both(refusal, clash)),
    }
}

/// The name of an instance, where there is one.
pub fn copied(alloc: Global, instance: Option<&Name>) -> Result<Option<Name>, OutOfMemory>
    ensures { IfOk result (λ name. name ≡ option_copied instance.entry) }
{
    match instance {
        None => Ok(None),
        Some(name) => {
            let own = name.copy(alloc)?;
            Ok(Some(own))
        }
    }
}

/// The tree of a call of the method of this number, of an instance or of the unit itself.
fn call_of(instance: Option<Name>, number: u32, arguments: List<Argument>, ty: Ty) -> Expression
    ensures { typed_expression result ≡ tree.Called instance number (in_a_row (map argument_tree arguments) tree.NoArgument) ty }
{
    Expression::Called {
        call: Call {
            instance,
            method: number,
            arguments,
        },
        ty,
    }
}

/// A call of the method of this number, of an instance or of the unit itself.
fn called(
    alloc: Global,
    instance: Option<Name>,
    number: u32,
    arguments: List<Argument>,
    ty: Ty,
) -> Result<Node, OutOfMemory>
    ensures { IfOk result (λ n. node_tree n ≡ tree.Called instance number (in_a_row (map argument_tree arguments) tree.NoArgument) ty) }
{
    let tree = Box::new(alloc, call_of(instance, number, arguments, ty))?;
    Ok(Node { ty, tree })
}

/// The result of a method that returns this type, of an instance or of the unit itself.
fn with_result(
    alloc: Global,
    instance: Option<&Name>,
    number: u32,
    ty: Ty,
    arguments: PassedArguments,
) -> Result<Judgement, OutOfMemory>
    ensures { (name : PlaceOf) (a : ElaboratedArguments) → AreAllPassed a arguments → Judges (result_of_method name (option_copied instance.entry) number a (Some ty)) result }
{
    match arguments {
        Err(refusal) => Ok(Judgement {
            typing: Typing::Known(ty),
            outcome: Err(refusal),
        }),
        Ok(arguments) => {
            let own = copied(alloc, instance)?;
            let node = called(alloc, own, number, arguments, ty)?;
            Ok(Judgement {
                typing: Typing::Known(ty),
                outcome: Ok(node),
            })
        }
    }
}

/// The rule that is given where a further one than those of the arguments is broken.
fn broken_arguments(arguments: PassedArguments, clash: Refusal<TypeKind>) -> Refusal<TypeKind>
    ensures { Err result ≡ ruled arguments (Some clash) }
{
    match arguments {
        Ok(_) => clash,
        Err(refusal) => first_of_both(refusal, Some(clash)),
    }
}

/// What returns nothing, which may not stand in an expression: TypeClash at its name.
pub fn without_result(name: Place, arguments: PassedArguments) -> Judgement
    ensures { (node : tree.TypedExpression) (a : ElaboratedArguments) → AreAllPassed a arguments → IsJudged (form_of_operands (a.refusals ++ clash_unless false name) node) result }
{
    Judgement {
        typing: Typing::Unknown,
        outcome: Err(broken_arguments(arguments, refusal(TypeKind::TypeClash, name))),
    }
}

/// The result of a method, of an instance or of the unit itself, with its arguments.
pub fn result_of(
    alloc: Global,
    name: Place,
    instance: Option<&Name>,
    method: &KnownMethod,
    arguments: PassedArguments,
) -> Result<Judgement, OutOfMemory>
    ensures { (a : ElaboratedArguments) → AreAllPassed a arguments → Judges (result_of_method name (option_copied instance.entry) method.now.number a method.now.returns) result }
{
    match method.returns {
        Some(ty) => with_result(alloc, instance, method.number, ty, arguments),
        None => Ok(without_result(name, arguments)),
    }
}
