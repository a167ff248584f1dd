//! Functions of several arguments.
ghost use Rattle.std.specs.Prelude.{◌≡◌, ◌∷◌, ◌++◌, [], max, List as Items, IfOk, Option, map, fold};
ghost use Rattle.std.specs.List.{list_all};
ghost use Rattle.ds2_types.specs.declared.rules.ArgumentRule.{ArgumentRule as RuleOf};
ghost use Rattle.ds2_elaboration.specs.FunctionTypes.{ElaboratedArgument, common_type};
ghost use Rattle.ds2_elaboration.specs.Typings.{TypeRefusals, ElaboratedExpression};
ghost use Rattle.ds2_meaning.specs.IsTyped.{type_scale, type_width};
ghost use Rattle.ds2_meaning.specs.TypedExpression.{TypedExpression};
ghost use Rattle.ds2_names.specs.NameRules.{from_each};
ghost use Rattle.ds2_expression_types.specs.Arguments.{is_null_judgement, is_known_as, known_type, types_known, AreJudged, argument_rule, value_in, IsRuled, AreValues};
ghost use Rattle.ds2_expression_types.specs.FurtherValues.{values_and};
ghost use Rattle.ds2_types.specs.Judgements.{typing_of, passes, node_tree, unbroken, IsJudged};

use ds2_base::{List, OutOfMemory, Refusal};
use ds2_meaning::{Expression, TypeKind};
use ds2_types::assignment::assigned;
use ds2_types::functions::{scale, width};
use ds2_types::judgement::{Judgement, Node, Outcome, Typing};
use ds2_types::refusals::{first_of_both, ruled};
use ds2_types::rules::{ArgumentRule, OperandTest, operand_clash};
use ds2_value::Ty;
use std::alloc::Global;

/// The typed trees of arguments, or the first of the rules that are broken in them.
pub type TypedValues = Result<List<Expression>, Refusal<TypeKind>>;

/// Whether an argument is the constant null.
fn is_null(x: &Judgement) -> bool
    ensures { result ≡ is_null_judgement x.now }
{
    match x.typing {
        Typing::NullAt(_) => true,
        Typing::Known(_) => false,
        Typing::Unknown => false,
    }
}

/// Whether each argument is the constant null.
pub fn are_nulls(arguments: &[Judgement]) -> bool
    ensures { result ≡ list_all is_null_judgement arguments.now }
{
    arguments.iter().all(|x| is_null(x))
}

/// Whether the type of an argument passes a test, where it is known.
fn is_known_as(test: OperandTest, x: &Judgement) -> bool
    ensures { result ≡ is_known_as test x.now }
{
    match x.typing {
        Typing::Known(ty) => test.passes(ty),
        Typing::NullAt(_) => true,
        Typing::Unknown => true,
    }
}

/// Whether each argument has a type that passes a test, or none that is known.
fn are_each_known_as(test: OperandTest, arguments: &[Judgement]) -> bool
    ensures { result ≡ list_all (is_known_as test) arguments.now }
{
    arguments.iter().all(|x| is_known_as(test, x))
}

/// Whether the types that are known of arguments pass a test.
pub fn are_known_as(test: OperandTest, arguments: &[Judgement]) -> bool
    ensures { result ≡ list_all (passes test) (types_known arguments.now) }
{
    are_each_known_as(test, arguments)
}

/// The greater of a scale and that of a type, where one is known.
fn scale_with(greatest: u8, typing: Typing) -> u8
    ensures { result ≡ fold (λ s ty. max s (type_scale ty)) greatest (known_type (typing_of typing)) }
{
    match typing {
        Typing::Known(ty) => greatest.max(scale(ty)),
        Typing::NullAt(_) => greatest,
        Typing::Unknown => greatest,
    }
}

/// The greater of a length and that of a type, where one is known.
fn width_with(greatest: u16, typing: Typing) -> u16
    ensures { result ≡ fold (λ n ty. max n (type_width ty)) greatest (known_type (typing_of typing)) }
{
    match typing {
        Typing::Known(ty) => greatest.max(width(ty)),
        Typing::NullAt(_) => greatest,
        Typing::Unknown => greatest,
    }
}

/// The greatest scale of the types that are known of arguments.
#[tactic(auto, using(crate::proofs::ArgumentLists::scale_step))]
fn greatest_scale(arguments: &[Judgement]) -> u8
    ensures { result ≡ fold (λ s ty. max s (type_scale ty)) 0 (types_known arguments.now) }
{
    let mut greatest = 0;
    let mut rest = arguments;
    'arguments: while let [x, after @ ..] = rest {
        greatest = scale_with(greatest, x.typing);
        rest = after;
    }
    greatest
}

/// The greatest length of the types that are known of arguments.
#[tactic(auto, using(crate::proofs::ArgumentLists::width_step))]
fn greatest_width(arguments: &[Judgement]) -> u16
    ensures { result ≡ fold (λ n ty. max n (type_width ty)) 0 (types_known arguments.now) }
{
    let mut greatest = 0;
    let mut rest = arguments;
    'arguments: while let [x, after @ ..] = rest {
        greatest = width_with(greatest, x.typing);
        rest = after;
    }
    greatest
}

/// The one type that the arguments are brought to: BIGINT where all are; numbers DECIMAL of 38 digits and the greatest scale;
/// texts VARCHAR of the greatest length.
pub fn common_type(arguments: &[Judgement]) -> Ty
    ensures { result ≡ common_type (types_known arguments.now) }
{
    if are_known_as(OperandTest::Integer, arguments) {
        Ty::BigInt
    } else if are_known_as(OperandTest::Number, arguments) {
        Ty::Decimal {
            p: 38,
            s: greatest_scale(arguments),
        }
    } else {
        Ty::Varchar {
            n: greatest_width(arguments),
        }
    }
}

/// What stands of an argument once its rule was looked at.
fn ruled_argument(rule: Option<ArgumentRule>, x: Judgement) -> Judgement
    ensures { (e : ElaboratedArgument) → IsJudged e.value x → IsRuled rule e result }
{
    match rule {
        None => x,
        Some(rule) => {
            let typing = x.typing;
            let outcome = ruled(x.outcome, operand_clash(rule.test, rule.name, typing));
            Judgement { typing, outcome }
        }
    }
}

/// A value as it is, or in a type.
fn value_in(
    alloc: Global,
    ty: Option<Ty>,
    typing: Typing,
    operand: Node,
) -> Result<Node, OutOfMemory>
    ensures { IfOk result (λ n. node_tree n ≡ value_in ty (unbroken (typing_of typing) (node_tree operand))) }
{
    match ty {
        None => Ok(operand),
        Some(ty) => assigned(alloc, ty, typing, operand),
    }
}

/// Values with one more operand behind them.
#[derive(Drop)]
pub struct FurtherValue {
    pub values: List<Expression>,
    pub operand: Node,
}

/// What stands of values and of one more operand.
fn values_and(values: TypedValues, operand: Outcome) -> Result<FurtherValue, Refusal<TypeKind>>
    ensures { result ≡ values_and values operand }
{
    match values {
        Ok(values) => match operand {
            Ok(operand) => Ok(FurtherValue { values, operand }),
            Err(refusal) => Err(refusal),
        },
        Err(refusal) => match operand {
            Ok(_) => Err(refusal),
            Err(further) => Err(first_of_both(refusal, Some(further))),
        },
    }
}

/// Values with that of a node behind them.
pub fn with_node(mut values: List<Expression>, node: Node) -> Result<List<Expression>, OutOfMemory>
    ensures { IfOk result (λ all. all ≡ values ++ node.tree.value ∷ []) }
{
    values.push(Box::into_inner(node.tree))?;
    Ok(values)
}

/// The values with one more behind them.
fn joined(
    alloc: Global,
    ty: Option<Ty>,
    before: TypedValues,
    x: Judgement,
) -> Result<TypedValues, OutOfMemory>
    ensures { (rule : Option RuleOf) (refusals : TypeRefusals) (nodes : Items TypedExpression) (e : ElaboratedArgument) → AreValues refusals nodes before → IsRuled rule e x
        → IfOk result (λ values. AreValues (refusals ++ argument_rule rule e) (nodes ++ value_in ty e.value ∷ []) values) }
{
    let typing = x.typing;
    match values_and(before, x.outcome) {
        Err(refusal) => Ok(Err(refusal)),
        Ok(further) => {
            let node = value_in(alloc, ty, typing, further.operand)?;
            let values = with_node(further.values, node)?;
            Ok(Ok(values))
        }
    }
}

/// The values of arguments behind others, each as it is or in a type, under a rule on each.
pub fn values(
    alloc: Global,
    ty: Option<Ty>,
    rule: Option<ArgumentRule>,
    before: TypedValues,
    arguments: List<Judgement>,
) -> Result<TypedValues, OutOfMemory>
    ensures { (refusals : TypeRefusals) (nodes : Items TypedExpression) (xs : Items ElaboratedArgument) → AreValues refusals nodes before → AreJudged xs arguments
        → IfOk result (λ values. AreValues (refusals ++ from_each (argument_rule rule) xs) (nodes ++ map (λ x. value_in ty x.value) xs) values) }
{
    let mut all = before;
    'arguments: for x in arguments.into_vec() {
        all = joined(alloc, ty, all, ruled_argument(rule, x))?;
    }
    Ok(all)
}
