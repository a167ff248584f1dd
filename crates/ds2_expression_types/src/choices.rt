//! Functions of several values: in one type, or a text and numbers.
ghost use Rattle.std.specs.Prelude.{◌≡◌, ◌||◌, ◌∷◌, [], List as Items, IfOk, Ok};
ghost use Rattle.std.specs.List.{list_all};
ghost use Rattle.ds2_elaboration.specs.FunctionTypes.{ElaboratedArgument, nodes_in_order, elaborated_coalesce, elaborated_extreme, elaborated_substring, substring_of};
ghost use Rattle.ds2_elaboration.specs.Typings.{TypeRefusals, form_of_operands, is_numeric_type, is_characters};
ghost use Rattle.ds2_meaning.specs.IsTyped.{type_width};
ghost use Rattle.ds2_meaning.specs.TypedExpression as tree;
ghost use Rattle.ds2_expression_types.specs.Arguments.{types_known, AreJudged, AreValues};
ghost use Rattle.ds2_types.specs.Judgements.{node_tree, IsOutcome, IsJudged, Judges, ruled};
ghost use Rattle.ds2_types.specs.declared.judgement.Node.{Node as NodeOf};
ghost use Rattle.ds2_value.specs.declared.ty.Ty.{Ty as TyOf};

use crate::arguments::{TypedValues, are_known_as, are_nulls, common_type, values, with_node};
use ds2_base::{List, OutOfMemory, Place, Refusal};
use ds2_meaning::{Function, TypeKind};
use ds2_types::functions::width;
use ds2_types::judgement::{Judgement, Outcome, Typing};
use ds2_types::nodes::applied;
use ds2_types::refusals::{first_of_both, ruled};
use ds2_types::rules::{ArgumentRule, OperandTest, clash_unless, operand_clash};
use ds2_value::{Ty, ValueFunction};
use std::alloc::Global;

/// What stands of values once a further rule was looked at.
fn ruled_values(values: TypedValues, clash: Option<Refusal<TypeKind>>) -> TypedValues
    ensures { result ≡ ruled values clash }
{
    match values {
        Ok(values) => match clash {
            None => Ok(values),
            Some(refusal) => Err(refusal),
        },
        Err(refusal) => Err(first_of_both(refusal, clash)),
    }
}

/// A function of values, which has this type where no rule is broken in them.
fn of_values(
    alloc: Global,
    function: Function,
    ty: Ty,
    values: TypedValues,
) -> Result<Judgement, OutOfMemory>
    ensures { (refusals : TypeRefusals) (nodes : Items tree.TypedExpression) (wanted : TyOf) → AreValues refusals nodes values → (refusals ≡ [] → ty ≡ wanted)
        → Judges (form_of_operands refusals (tree.Applied function (nodes_in_order nodes) wanted)) result }
{
    match values {
        Err(refusal) => Ok(Judgement {
            typing: Typing::Unknown,
            outcome: Err(refusal),
        }),
        Ok(arguments) => {
            let node = applied(alloc, function, arguments, ty)?;
            Ok(Judgement {
                typing: Typing::Known(node.ty),
                outcome: Ok(node),
            })
        }
    }
}

/// Whether the types that are known of arguments are numbers alone, or texts alone.
fn are_of_one_kind(arguments: &[Judgement]) -> bool
    ensures { result ≡ (list_all is_numeric_type (types_known arguments.now) || list_all is_characters (types_known arguments.now)) }
{
    are_known_as(OperandTest::Number, arguments) || are_known_as(OperandTest::Characters, arguments)
}

/// `coalesce(a, ..)`: numbers or texts, not both, and not nulls alone, in one type.
pub fn coalesce(
    alloc: Global,
    name: Place,
    arguments: List<Judgement>,
) -> Result<Judgement, OutOfMemory>
    ensures { (xs : Items ElaboratedArgument) → AreJudged xs arguments → Judges (elaborated_coalesce name xs) result }
{
    let items = arguments.as_slice();
    let nulls = clash_unless(!are_nulls(items), name);
    let mixed = clash_unless(are_of_one_kind(items), name);
    let ty = common_type(items);
    let all = values(alloc, Some(ty), None, Ok(List::new(alloc)), arguments)?;
    let all = ruled_values(ruled_values(all, nulls), mixed);
    of_values(alloc, Function::Coalesce, ty, all)
}

/// `min(a, b, ..)` and `max(a, b, ..)`: numbers, in one type.
pub fn extreme(
    alloc: Global,
    function: Function,
    name: Place,
    arguments: List<Judgement>,
) -> Result<Judgement, OutOfMemory>
    ensures { (xs : Items ElaboratedArgument) → AreJudged xs arguments → Judges (elaborated_extreme function name xs) result }
{
    let rule = Some(ArgumentRule {
        test: OperandTest::Number,
        name,
    });
    let ty = common_type(arguments.as_slice());
    let all = values(alloc, Some(ty), rule, Ok(List::new(alloc)), arguments)?;
    of_values(alloc, function, ty, all)
}

/// The most characters of a text, where it stands.
fn width_of(text: &Outcome) -> u16
    ensures { (n : NodeOf) → text.now ≡ Ok n → result ≡ type_width n.ty }
{
    match text {
        Ok(node) => width(node.ty),
        Err(_) => 0,
    }
}

/// One value.
fn one_value(alloc: Global, operand: Outcome) -> Result<TypedValues, OutOfMemory>
    ensures { (refusals : TypeRefusals) (node : tree.TypedExpression) → IsOutcome (λ n. node_tree n ≡ node) refusals operand → IfOk result (AreValues refusals (node ∷ [])) }
{
    match operand {
        Err(refusal) => Ok(Err(refusal)),
        Ok(node) => {
            let values = with_node(List::new(alloc), node)?;
            Ok(Ok(values))
        }
    }
}

/// The function that `substr` is with so many numbers behind its text.
fn substring_of(numbers: usize) -> ValueFunction
    ensures { result ≡ substring_of numbers }
{
    if numbers == 1 {
        ValueFunction::SubstringFrom
    } else {
        ValueFunction::Substring
    }
}

/// `substr(t, i)` and `substr(t, i, k)`: a text and BIGINT values; a VARCHAR of as many characters as the text.
pub fn substring(
    alloc: Global,
    name: Place,
    x: Judgement,
    numbers: List<Judgement>,
) -> Result<Judgement, OutOfMemory>
    ensures { (e : ElaboratedArgument) (xs : Items ElaboratedArgument) → IsJudged e.value x → AreJudged xs numbers → Judges (elaborated_substring name e xs) result }
{
    let clash = operand_clash(OperandTest::Characters, name, x.typing);
    let text = ruled(x.outcome, clash);
    let n = width_of(&text);
    let rule = Some(ArgumentRule {
        test: OperandTest::Integer,
        name,
    });
    let function = substring_of(numbers.len());
    let first = one_value(alloc, text)?;
    let all = values(alloc, None, rule, first, numbers)?;
    of_values(alloc, Function::Value(function), Ty::Varchar { n }, all)
}
