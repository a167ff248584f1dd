//! The tests of the `when` parts of a `select`.
ghost use Rattle.std.specs.Prelude.{◌≡◌, ◌||◌, ◌++◌, [], IfOk, map};
ghost use Rattle.std.specs.List.{list_any};
ghost use Rattle.std.specs.Option.{option_map};
ghost use Rattle.ds2_elaboration.specs.ExpressionTypes.{TypeScope, elaborated_arguments};
ghost use Rattle.ds2_elaboration.specs.FunctionTypes.{ElaboratedArgument};
ghost use Rattle.ds2_elaboration.specs.OperatorTypes.{is_known_decimal};
ghost use Rattle.ds2_elaboration.specs.StatementTypes.{argument_nodes, value_test_refusals, selected_node, has_decimal_test};
ghost use Rattle.ds2_elaboration.specs.Typings.{TypeRefusals, Known as KnownAs, null_clash};
ghost use Rattle.ds2_meaning.specs.TypedExpression.{TypedExpression};
ghost use Rattle.ds2_meaning.specs.View.{typed_expression};
ghost use Rattle.ds2_names.specs.NameRules.{from_each};
ghost use Rattle.ds2_tree.specs.ExpressionViews.{arguments_of};
ghost use Rattle.ds2_tree.specs.StatementViews.{selector_tree, whens_of};
ghost use Rattle.ds2_types.specs.Judgements.{first_type_refusal, typing_of, node_tree, IsJudged};
ghost use Rattle.ds2_reference_types.specs.ArgumentTrees.{argument_in};
ghost use Rattle.ds2_reference_types.specs.Scopes.{IsScopeOf};
ghost use Rattle.ds2_simple_statement_types.specs.StatementOutcomes.{AreTypedAs, IsNodeAs};
ghost use Rattle.ds2_statement_types.specs.TestRules.{value_clash, test_rule, IsTestRule};

use crate::conditions::true_or_false;
use ds2_base::{List, OutOfMemory, Place, Refusal};
use ds2_expression_walk::places::first_place;
use ds2_expression_walk::walk::judge;
use ds2_meaning::{Expression, TypeKind};
use ds2_reference_types::scopes::Scope;
use ds2_simple_statement_types::outcomes::unboxed_value;
use ds2_simple_statement_types::parts::with_one;
use ds2_tree::{Argument, Selector, When};
use ds2_types::judgement::{Judgement, Node, Outcome, Typing};
use ds2_types::nodes::widened;
use ds2_types::refusals::{refusal, ruled};
use ds2_types::rules::{are_comparable, clash_unless, is_integer, is_numeric};
use ds2_value::Ty;
use std::alloc::Global;

/// What the tests of a `select` are looked at by: what is known of its value, where it has one, and whether DECIMAL values are
/// compared, so that each BIGINT among them is widened.
#[derive(Clone, Copy, PartialEq, Eq)]
pub struct TestRule {
    pub beside: Option<Typing>,
    pub decimals: bool,
}

/// The tests of a `when` part, or the first of the rules that are broken in them.
pub type TestsOutcome = Result<List<Expression>, Refusal<TypeKind>>;

/// One of both holds.
fn either_holds(a: bool, b: bool) -> bool
    ensures { result ≡ (a || b) }
{
    a || b
}

/// A type is known, and a DECIMAL.
fn is_known_decimal(typing: Typing) -> bool
    ensures { result ≡ is_known_decimal (typing_of typing) }
{
    match typing {
        Typing::Known(ty) => is_numeric(ty) && !is_integer(ty),
        Typing::NullAt(_) => false,
        Typing::Unknown => false,
    }
}

/// A value that is compared with another one: both numbers or both texts, else TypeClash at its place; null may not stand there.
fn beside_clash(selected: Typing, place: Place, own: Typing) -> Option<Refusal<TypeKind>>
    ensures { result ≡ first_type_refusal (value_clash (typing_of selected) place (typing_of own)) }
{
    match selected {
        Typing::Known(a) => known_clash(a, place, own),
        Typing::NullAt(_) => alone_clash(own),
        Typing::Unknown => alone_clash(own),
    }
}

/// A value that is compared with one of this type.
fn known_clash(selected: Ty, place: Place, own: Typing) -> Option<Refusal<TypeKind>>
    ensures { result ≡ first_type_refusal (value_clash (KnownAs selected) place (typing_of own)) }
{
    match own {
        Typing::Known(ty) => clash_unless(are_comparable(selected, ty), place),
        Typing::NullAt(word) => Some(refusal(TypeKind::TypeClash, word)),
        Typing::Unknown => None,
    }
}

/// A value that is compared with one of whose type nothing is known, or null.
fn alone_clash(own: Typing) -> Option<Refusal<TypeKind>>
    ensures { result ≡ first_type_refusal (null_clash (typing_of own) ++ []) }
{
    match own {
        Typing::Known(_) => None,
        Typing::NullAt(word) => Some(refusal(TypeKind::TypeClash, word)),
        Typing::Unknown => None,
    }
}

/// What stands of a test, whose first token stands at this place.
fn ruled_test(beside: Option<Typing>, place: Place, x: Judgement) -> Outcome
    ensures { (e : ElaboratedArgument) → e.place ≡ place → IsJudged e.value x → IsNodeAs (test_rule beside e) e.value.node result }
{
    match beside {
        None => true_or_false(place, x),
        Some(selected) => compared(selected, place, x),
    }
}

/// What stands of a value that is compared with another one.
fn compared(selected: Typing, place: Place, x: Judgement) -> Outcome
    ensures { (e : ElaboratedArgument) → e.place ≡ place → IsJudged e.value x → IsNodeAs (value_test_refusals (typing_of selected) e) e.value.node result }
{
    let clash = beside_clash(selected, place, x.typing);
    ruled(x.outcome, clash)
}

/// A value or a test of a `select`, widened where decimals are compared.
pub fn selected(alloc: Global, decimals: bool, node: Node) -> Result<Node, OutOfMemory>
    ensures { (types : TypeScope) → IfOk result (λ n. node_tree n ≡ selected_node types decimals (node_tree node)) }
{
    if decimals {
        widened(alloc, node)
    } else {
        Ok(node)
    }
}

/// What stands of a test, widened where decimals are compared.
pub fn selected_outcome(
    alloc: Global,
    decimals: bool,
    outcome: Outcome,
) -> Result<Outcome, OutOfMemory>
    ensures { (types : TypeScope) (refusals : TypeRefusals) (node : TypedExpression) → IsNodeAs refusals node outcome
        → IfOk result (IsNodeAs refusals (selected_node types decimals node)) }
{
    match outcome {
        Err(refusal) => Ok(Err(refusal)),
        Ok(node) => {
            let node = selected(alloc, decimals, node)?;
            Ok(Ok(node))
        }
    }
}

/// A test of a `when` part.
fn test(
    alloc: Global,
    scope: &Scope<'_>,
    rule: TestRule,
    a: &Argument,
) -> Result<Outcome, OutOfMemory>
    ensures { (types : TypeScope) → IsScopeOf types scope.now
        → IfOk result (IsNodeAs (test_rule rule.beside (argument_in types a.now)) (selected_node types rule.decimals (argument_in types a.now).value.node)) }
{
    let x = judge(alloc, scope, &a.value)?;
    let outcome = ruled_test(rule.beside, first_place(&a.value), x);
    selected_outcome(alloc, rule.decimals, outcome)
}

/// The tests of a `when` part, in order.
pub fn tests(
    alloc: Global,
    scope: &Scope<'_>,
    rule: TestRule,
    values: &[Argument],
) -> Result<TestsOutcome, OutOfMemory>
    ensures { (types : TypeScope) → IsScopeOf types scope.now
        → IfOk result (AreTypedAs typed_expression (from_each (test_rule rule.beside) (elaborated_arguments types (arguments_of values.now)))
        (map (selected_node types rule.decimals) (argument_nodes (elaborated_arguments types (arguments_of values.now))))) }
{
    let mut all: TestsOutcome = Ok(List::new(alloc));
    'values: for a in values {
        let one = test(alloc, scope, rule, a)?;
        all = with_one(all, unboxed_value(one))?;
    }
    Ok(all)
}

/// Whether one of these tests is a DECIMAL.
fn have_decimal(alloc: Global, scope: &Scope<'_>, values: &[Argument]) -> Result<bool, OutOfMemory>
    ensures { (types : TypeScope) → IsScopeOf types scope.now
        → IfOk result (λ found. found ≡ list_any (λ (x : ElaboratedArgument). is_known_decimal x.value.typing) (elaborated_arguments types (arguments_of values.now))) }
{
    let mut found = false;
    'values: for a in values {
        let x = judge(alloc, scope, &a.value)?;
        found = either_holds(found, is_known_decimal(x.typing));
    }
    Ok(found)
}

/// Whether a test of one of the `when` parts is a DECIMAL.
fn has_decimal_test(alloc: Global, scope: &Scope<'_>, whens: &[When]) -> Result<bool, OutOfMemory>
    ensures { (types : TypeScope) → IsScopeOf types scope.now → IfOk result (λ found. found ≡ has_decimal_test types (whens_of whens.now)) }
{
    let mut found = false;
    'whens: for w in whens {
        let own = have_decimal(alloc, scope, w.values.as_slice())?;
        found = either_holds(found, own);
    }
    Ok(found)
}

/// What the tests of a `select` are looked at by. The value and the tests are typed once more for it, since each test is widened where
/// a later one is a DECIMAL.
pub fn test_rule(
    alloc: Global,
    scope: &Scope<'_>,
    selector: &Option<Selector>,
    whens: &[When],
) -> Result<TestRule, OutOfMemory>
    ensures { (types : TypeScope) → IsScopeOf types scope.now → IfOk result (IsTestRule types (option_map selector_tree selector.now) (whens_of whens.now)) }
{
    match selector {
        None => Ok(TestRule {
            beside: None,
            decimals: false,
        }),
        Some(selector) => {
            let x = judge(alloc, scope, &selector.value)?;
            let tests = has_decimal_test(alloc, scope, whens)?;
            Ok(TestRule {
                beside: Some(x.typing),
                decimals: either_holds(is_known_decimal(x.typing), tests),
            })
        }
    }
}
