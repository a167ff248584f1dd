//! The walk of expressions, in order of evaluation.
ghost use Rattle.std.specs.Prelude.{◌∷◌, List as Items, map, OnOk};
ghost use Rattle.std.specs.Option.{option_map};
ghost use Rattle.ds2_locality.specs.Walk.{walk_expression as expression_walk, walk_links as links_walk, walk_expressions as expressions_walk, walk_arguments as arguments_walk, walk_call as call_walk, walk_values as values_walk, walk_items as items_walk, walk_step as step_walk};
ghost use Rattle.ds2_meaning.specs.TypedExpression.{Links, NoLink, TypedArguments, NoArgument};
ghost use Rattle.ds2_meaning.specs.TypedStatement.{Item};
ghost use Rattle.ds2_meaning.specs.View.{in_a_row, all_expressions, typed_expression, call_tree, link_tree, argument_tree, item_tree, parameter_tree};
ghost use Rattle.ds2_recorded_walk.specs.RecordedStatements.{GoesOnBy, LeavesToGoOn};

use crate::record::RecordedWalk;
use crate::walk_reads::{read_variable, walk_hash_call, walk_iterator_call, walk_method_call};
use crate::walk_scope::RecordScope;
use ds2_base::{OutOfMemory, Place};
use ds2_deeds::{MethodName, called_home};
use ds2_meaning::{Argument, Call, Expression, Link, ParameterSetting, PutItem};

// A further operand of a chain, so that what follows makes the walk of the whole.
#[cycle(walk)]
fn walk_link(
    scope: &RecordScope<'_>,
    walk: &mut RecordedWalk,
    link: &Link,
    place: Place,
) -> Result<(), OutOfMemory>
    ensures { (rest : Links) → OnOk result (LeavesToGoOn scope.now walk.old walk.new (λ s. links_walk s rest place) (λ s. links_walk s (link_tree link.now rest) place)) }
{
    walk_expression(scope, walk, &link.operand, place)
}

// The further operands of a chain.
#[cycle(walk)]
fn walk_links(
    scope: &RecordScope<'_>,
    walk: &mut RecordedWalk,
    links: &[Link],
    place: Place,
) -> Result<(), OutOfMemory>
    ensures { OnOk result (GoesOnBy scope.now walk.old walk.new (λ s. links_walk s (in_a_row (map link_tree links.now) NoLink) place)) }
{
    'links: for link in links {
        walk_link(scope, walk, link, place)?;
    }
    Ok(())
}

// Expressions in order.
#[cycle(walk)]
fn walk_expressions(
    scope: &RecordScope<'_>,
    walk: &mut RecordedWalk,
    expressions: &[Expression],
    place: Place,
) -> Result<(), OutOfMemory>
    ensures { OnOk result (GoesOnBy scope.now walk.old walk.new (λ s. expressions_walk s (all_expressions (map typed_expression expressions.now)) place)) }
{
    'expressions: for e in expressions {
        walk_expression(scope, walk, e, place)?;
    }
    Ok(())
}

// An argument, so that what follows makes the walk of the whole.
#[cycle(walk)]
fn walk_argument(
    scope: &RecordScope<'_>,
    walk: &mut RecordedWalk,
    argument: &Argument,
    place: Place,
) -> Result<(), OutOfMemory>
    ensures { (rest : TypedArguments) → OnOk result (LeavesToGoOn scope.now walk.old walk.new (λ s. arguments_walk s rest place) (λ s. arguments_walk s (argument_tree argument.now rest) place)) }
{
    match argument {
        Argument::Value(e) => walk_expression(scope, walk, e, place),
        Argument::InOut(variable) => read_variable(scope, walk, variable, place),
    }
}

/// Arguments in order.
#[cycle(walk)]
pub fn walk_arguments(
    scope: &RecordScope<'_>,
    walk: &mut RecordedWalk,
    arguments: &[Argument],
    place: Place,
) -> Result<(), OutOfMemory>
    ensures { OnOk result (GoesOnBy scope.now walk.old walk.new (λ s. arguments_walk s (in_a_row (map argument_tree arguments.now) NoArgument) place)) }
{
    'arguments: for argument in arguments {
        walk_argument(scope, walk, argument, place)?;
    }
    Ok(())
}

/// A call: its arguments, and then the method.
#[cycle(walk)]
pub fn walk_call(
    scope: &RecordScope<'_>,
    walk: &mut RecordedWalk,
    call: &Call,
    place: Place,
) -> Result<(), OutOfMemory>
    ensures { OnOk result (GoesOnBy scope.now walk.old walk.new (λ s. call_walk s (call_tree call.now).instance (call_tree call.now).method (call_tree call.now).arguments place)) }
{
    walk_arguments(scope, walk, call.arguments.as_slice(), place)?;
    let method = MethodName {
        home: called_home(scope.body.home, &call.instance),
        number: call.method as usize,
    };
    walk_method_call(scope, walk, method, place)
}

/// An expression.
#[cycle(walk)]
pub fn walk_expression(
    scope: &RecordScope<'_>,
    walk: &mut RecordedWalk,
    e: &Expression,
    place: Place,
) -> Result<(), OutOfMemory>
    ensures { OnOk result (GoesOnBy scope.now walk.old walk.new (λ s. expression_walk s (typed_expression e.now) place)) }
{
    match e {
        Expression::Constant { value: _, ty: _ } => Ok(()),
        Expression::Variable { variable, ty: _ } => read_variable(scope, walk, variable, place),
        Expression::Widen { operand } => walk_expression(scope, walk, operand, place),
        Expression::Convert { operand, ty: _ } => walk_expression(scope, walk, operand, place),
        Expression::Prefixed {
            prefix: _,
            operand,
            ty: _,
        } => walk_expression(scope, walk, operand, place),
        Expression::Chain { first, links } => {
            walk_expression(scope, walk, first, place)?;
            walk_links(scope, walk, links.as_slice(), place)
        }
        Expression::Compared {
            comparison: _,
            left,
            right,
        } => {
            walk_expression(scope, walk, left, place)?;
            walk_expression(scope, walk, right, place)
        }
        Expression::Applied {
            function: _,
            arguments,
            ty: _,
        } => walk_expressions(scope, walk, arguments.as_slice(), place),
        Expression::Called { call, ty: _ } => walk_call(scope, walk, call, place),
        Expression::HashCalled { hash, function } => {
            walk_hash_call(scope, walk, hash, *function, place)
        }
        Expression::IteratorCalled {
            iterator,
            function: _,
        } => walk_iterator_call(scope, walk, iterator, place),
    }
}

/// Values for the parameters of a thread program, in order.
pub fn walk_values(
    scope: &RecordScope<'_>,
    walk: &mut RecordedWalk,
    settings: &[ParameterSetting],
    place: Place,
) -> Result<(), OutOfMemory>
    ensures { OnOk result (GoesOnBy scope.now walk.old walk.new (λ s. values_walk s (map parameter_tree settings.now) place)) }
{
    'settings: for setting in settings {
        walk_expression(scope, walk, &setting.value, place)?;
    }
    Ok(())
}

// An item of a line, so that what follows makes the walk of the whole.
fn walk_item(
    scope: &RecordScope<'_>,
    walk: &mut RecordedWalk,
    item: &PutItem,
    place: Place,
) -> Result<(), OutOfMemory>
    ensures { (rest : Items Item) → OnOk result (LeavesToGoOn scope.now walk.old walk.new (λ s. items_walk s rest place) (λ s. items_walk s (item_tree item.now ∷ rest) place)) }
{
    match item {
        PutItem::Constant(_) => Ok(()),
        PutItem::Value(value) => walk_expression(scope, walk, value, place),
        PutItem::Named { name: _, value } => walk_expression(scope, walk, value, place),
    }
}

/// The items of a line, in order.
pub fn walk_items(
    scope: &RecordScope<'_>,
    walk: &mut RecordedWalk,
    items: &[PutItem],
    place: Place,
) -> Result<(), OutOfMemory>
    ensures { OnOk result (GoesOnBy scope.now walk.old walk.new (λ s. items_walk s (map item_tree items.now) place)) }
{
    'items: for item in items {
        walk_item(scope, walk, item, place)?;
    }
    Ok(())
}

/// The step of a counted loop, where there is one.
pub fn walk_step(
    scope: &RecordScope<'_>,
    walk: &mut RecordedWalk,
    step: &Option<Expression>,
    place: Place,
) -> Result<(), OutOfMemory>
    ensures { OnOk result (GoesOnBy scope.now walk.old walk.new (λ s. step_walk s (option_map typed_expression step.now) place)) }
{
    match step {
        None => Ok(()),
        Some(step) => walk_expression(scope, walk, step, place),
    }
}
