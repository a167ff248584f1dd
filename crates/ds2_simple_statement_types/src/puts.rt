//! `put`.
ghost use Rattle.std.specs.Prelude.{◌≡◌, List as Items, IfOk, map};
ghost use Rattle.ds2_elaboration.specs.ExpressionTypes.{TypeScope};
ghost use Rattle.ds2_elaboration.specs.StatementTypes.{item_refusals, item_node};
ghost use Rattle.ds2_elaboration.specs.Typings.{TypeRefusals};
ghost use Rattle.ds2_meaning.specs.TypedExpression.{TypedExpression};
ghost use Rattle.ds2_meaning.specs.TypedStatement as typed;
ghost use Rattle.ds2_meaning.specs.View.{item_tree, typed_statement};
ghost use Rattle.ds2_names.specs.NameRules.{from_each};
ghost use Rattle.ds2_names.specs.SourceUnit.{spelled_name};
ghost use Rattle.ds2_token.specs.Limits.{text_content};
ghost use Rattle.ds2_types.specs.Judgements.{node_tree, IsOutcome};
ghost use Rattle.ds2_reference_types.specs.Scopes.{IsScopeOf};
ghost use Rattle.ds2_simple_statement_types.specs.StatementOutcomes.{AreTypedAs, IsNodeAs, StandsAs};

use crate::outcomes::{StatementOutcome, boxed};
use crate::parts::with_one;
use ds2_base::{List, OutOfMemory, Place, Refusal, Text};
use ds2_meaning::{PutItem as TypedItem, Statement, TypeKind};
use ds2_reference_types::names::spelled_name;
use ds2_reference_types::scopes::Scope;
use ds2_reference_types::variables::{member_value, variable};
use ds2_token::Token;
use ds2_tree::PutItem;
use ds2_types::judgement::{Node, Outcome};
use std::alloc::Global;

/// An item of `put`, or the first of the rules that are broken in it.
type ItemOutcome = Result<TypedItem, Refusal<TypeKind>>;

/// The items of `put`, or the first of the rules that are broken in them.
pub type ItemsOutcome = Result<List<TypedItem>, Refusal<TypeKind>>;

/// The text that a text constant stands for. Bytes that are no text, as no constant has them, are want of memory.
#[tactic(auto, using(crate::proofs::SimpleViews::text_told))]
fn content(alloc: Global, constant: &Token) -> Result<Text, OutOfMemory>
    ensures { IfOk result (λ text. text ≡ text_content constant.now.spelling) }
{
    match constant.text(alloc)? {
        Some(text) => Ok(text),
        None => Err(OutOfMemory),
    }
}

/// The name that a token spells, as a text. Bytes that are no text, as no name has them, are want of memory.
#[tactic(auto, using(crate::proofs::SimpleViews::text_told))]
fn label(alloc: Global, name: &Token) -> Result<Text, OutOfMemory>
    ensures { IfOk result (λ text. text ≡ spelled_name name.now) }
{
    let spelled = spelled_name(alloc, name)?;
    match Text::from_bytes(alloc, spelled)? {
        Some(text) => Ok(text),
        None => Err(OutOfMemory),
    }
}

/// The value of a variable.
fn shown_item(value: Node) -> TypedItem
    ensures { item_tree result ≡ typed.Shown (node_tree value) }
{
    TypedItem::Value(Box::into_inner(value.tree))
}

/// The value of a variable behind its name.
fn named_item(name: Text, value: Node) -> TypedItem
    ensures { item_tree result ≡ typed.Labelled name (node_tree value) }
{
    TypedItem::Named {
        name,
        value: Box::into_inner(value.tree),
    }
}

/// What stands of the value of a variable.
fn shown(outcome: Outcome) -> ItemOutcome
    ensures { (refusals : TypeRefusals) (node : TypedExpression) → IsNodeAs refusals node outcome → IsOutcome (λ i. item_tree i ≡ typed.Shown node) refusals result }
{
    match outcome {
        Err(refusal) => Err(refusal),
        Ok(value) => Ok(shown_item(value)),
    }
}

/// What stands of the value of a variable behind its name.
fn named(name: Text, outcome: Outcome) -> ItemOutcome
    ensures { (refusals : TypeRefusals) (node : TypedExpression) → IsNodeAs refusals node outcome → IsOutcome (λ i. item_tree i ≡ typed.Labelled name node) refusals result }
{
    match outcome {
        Err(refusal) => Err(refusal),
        Ok(value) => Ok(named_item(name, value)),
    }
}

/// An item of `put`: a text as it is, or a variable of any type.
fn item(alloc: Global, scope: &Scope<'_>, item: &PutItem) -> Result<ItemOutcome, OutOfMemory>
    ensures { (types : TypeScope) → IsScopeOf types scope.now → IfOk result (IsOutcome (λ i. item_tree i ≡ item_node types item.now) (item_refusals types item.now)) }
{
    match item {
        PutItem::Text(text) => {
            let constant = content(alloc, text)?;
            Ok(Ok(TypedItem::Constant(constant)))
        }
        PutItem::Variable { name, equals } => match equals {
            None => {
                let x = variable(alloc, scope, name)?;
                Ok(shown(x.outcome))
            }
            Some(_) => {
                let label = label(alloc, name)?;
                let x = variable(alloc, scope, name)?;
                Ok(named(label, x.outcome))
            }
        },
        PutItem::Member { object, member, .. } => {
            let x = member_value(alloc, scope, object, member)?;
            Ok(shown(x.outcome))
        }
    }
}

/// The items of `put`.
pub fn items(
    alloc: Global,
    scope: &Scope<'_>,
    items: &[PutItem],
) -> Result<ItemsOutcome, OutOfMemory>
    ensures { (types : TypeScope) → IsScopeOf types scope.now
        → IfOk result (AreTypedAs item_tree (from_each (item_refusals types) items.now) (map (item_node types) items.now)) }
{
    let mut all: ItemsOutcome = Ok(List::new(alloc));
    'items: for x in items {
        let one = item(alloc, scope, x)?;
        all = with_one(all, one)?;
    }
    Ok(all)
}

/// The tree of `put`.
fn put_node(place: Place, items: List<TypedItem>) -> Statement
    ensures { typed_statement result ≡ typed.Put place (map item_tree items) }
{
    Statement::Put { place, items }
}

/// `put` with its items.
fn put_items(
    alloc: Global,
    place: Place,
    items: ItemsOutcome,
) -> Result<StatementOutcome, OutOfMemory>
    ensures { (refusals : TypeRefusals) (parts : Items typed.Item) → AreTypedAs item_tree refusals parts items → StandsAs refusals (typed.Put place parts) result }
{
    match items {
        Err(refusal) => Ok(Err(refusal)),
        Ok(items) => {
            let made = boxed(alloc, put_node(place, items))?;
            Ok(Ok(made))
        }
    }
}

/// `put ..;`
pub fn put(
    alloc: Global,
    scope: &Scope<'_>,
    place: Place,
    shown: &[PutItem],
) -> Result<StatementOutcome, OutOfMemory>
    ensures { (types : TypeScope) → IsScopeOf types scope.now
        → StandsAs (from_each (item_refusals types) shown.now) (typed.Put place (map (item_node types) shown.now)) result }
{
    let all = items(alloc, scope, shown)?;
    put_items(alloc, place, all)
}
