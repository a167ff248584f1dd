//! The deeds of expressions.
ghost use Rattle.std.specs.Prelude.{◌≡◌, map, OnOk};
ghost use Rattle.ds2_locality.specs.Deeds.{expression_deeds as deeds_of_expression, link_deeds, expressions_deeds, argument_deeds, call_deeds as deeds_of_call};
ghost use Rattle.ds2_meaning.specs.TypedExpression.{Links, NoLink, TypedArguments, NoArgument};
ghost use Rattle.ds2_meaning.specs.View.{in_a_row, all_expressions, typed_expression, call_tree, link_tree, argument_tree};
ghost use Rattle.ds2_deeds.specs.CodeTrees.{scope_of};
ghost use Rattle.ds2_deeds.specs.NumberedDeeds.{numbers_of, with_deeds};

use crate::deed::{NumberedDeed, add_call, add_set, add_variable};
use crate::methods::{MethodName, called_home};
use crate::numbers::Numbers;
use crate::object_deeds::{add_hash_call, add_iterator_call};
use crate::scope::BodyScope;
use ds2_base::{List, OutOfMemory};
use ds2_meaning::{Argument, Call, Expression, Link};

// Adds those of a further operand of a chain, so that what follows makes those of the whole.
#[cycle(deeds)]
fn add_link_deeds(
    numbers: Numbers<'_>,
    deeds: &mut List<NumberedDeed>,
    scope: &BodyScope<'_>,
    link: &Link,
) -> Result<(), OutOfMemory>
    ensures { (rest : Links) → OnOk result (with_deeds (numbers_of numbers.entry) (link_deeds (scope_of scope.now) rest) deeds.new ≡ with_deeds (numbers_of numbers.entry) (link_deeds (scope_of scope.now) (link_tree link.now rest)) deeds.old) }
{
    add_expression_deeds(numbers, deeds, scope, &link.operand)
}

// Adds those of the further operands of a chain.
#[cycle(deeds)]
fn add_links_deeds(
    numbers: Numbers<'_>,
    deeds: &mut List<NumberedDeed>,
    scope: &BodyScope<'_>,
    links: &[Link],
) -> Result<(), OutOfMemory>
    ensures { OnOk result (deeds.new ≡ with_deeds (numbers_of numbers.entry) (link_deeds (scope_of scope.now) (in_a_row (map link_tree links.now) NoLink)) deeds.old) }
{
    'links: for link in links {
        add_link_deeds(numbers, deeds, scope, link)?;
    }
    Ok(())
}

// Adds those of expressions in order.
#[cycle(deeds)]
pub fn add_expressions_deeds(
    numbers: Numbers<'_>,
    deeds: &mut List<NumberedDeed>,
    scope: &BodyScope<'_>,
    expressions: &[Expression],
) -> Result<(), OutOfMemory>
    ensures { OnOk result (deeds.new ≡ with_deeds (numbers_of numbers.entry) (expressions_deeds (scope_of scope.now) (all_expressions (map typed_expression expressions.now))) deeds.old) }
{
    'expressions: for e in expressions {
        add_expression_deeds(numbers, deeds, scope, e)?;
    }
    Ok(())
}

// Adds those of an argument, so that what follows makes those of the whole.
#[cycle(deeds)]
fn add_argument_deeds(
    numbers: Numbers<'_>,
    deeds: &mut List<NumberedDeed>,
    scope: &BodyScope<'_>,
    argument: &Argument,
) -> Result<(), OutOfMemory>
    ensures { (rest : TypedArguments) → OnOk result (with_deeds (numbers_of numbers.entry) (argument_deeds (scope_of scope.now) rest) deeds.new ≡ with_deeds (numbers_of numbers.entry) (argument_deeds (scope_of scope.now) (argument_tree argument.now rest)) deeds.old) }
{
    match argument {
        Argument::Value(e) => add_expression_deeds(numbers, deeds, scope, e),
        Argument::InOut(variable) => add_set(numbers, deeds, scope.home, variable),
    }
}

// Adds those of arguments in order.
#[cycle(deeds)]
pub fn add_arguments_deeds(
    numbers: Numbers<'_>,
    deeds: &mut List<NumberedDeed>,
    scope: &BodyScope<'_>,
    arguments: &[Argument],
) -> Result<(), OutOfMemory>
    ensures { OnOk result (deeds.new ≡ with_deeds (numbers_of numbers.entry) (argument_deeds (scope_of scope.now) (in_a_row (map argument_tree arguments.now) NoArgument)) deeds.old) }
{
    'arguments: for argument in arguments {
        add_argument_deeds(numbers, deeds, scope, argument)?;
    }
    Ok(())
}

/// Adds those of a call.
#[cycle(deeds)]
pub fn add_call_deeds(
    numbers: Numbers<'_>,
    deeds: &mut List<NumberedDeed>,
    scope: &BodyScope<'_>,
    call: &Call,
) -> Result<(), OutOfMemory>
    ensures { OnOk result (deeds.new ≡ with_deeds (numbers_of numbers.entry) (deeds_of_call (scope_of scope.now) (call_tree call.now).instance (call_tree call.now).method (call_tree call.now).arguments) deeds.old) }
{
    add_arguments_deeds(numbers, deeds, scope, call.arguments.as_slice())?;
    let method = MethodName {
        home: called_home(scope.home, &call.instance),
        number: call.method as usize,
    };
    add_call(numbers, deeds, method)
}

/// Adds those of an expression.
#[cycle(deeds)]
pub fn add_expression_deeds(
    numbers: Numbers<'_>,
    deeds: &mut List<NumberedDeed>,
    scope: &BodyScope<'_>,
    e: &Expression,
) -> Result<(), OutOfMemory>
    ensures { OnOk result (deeds.new ≡ with_deeds (numbers_of numbers.entry) (deeds_of_expression (scope_of scope.now) (typed_expression e.now)) deeds.old) }
{
    match e {
        Expression::Constant { value: _, ty: _ } => Ok(()),
        Expression::Variable { variable, ty: _ } => {
            add_variable(numbers, deeds, scope.home, variable)
        }
        Expression::Widen { operand } => add_expression_deeds(numbers, deeds, scope, operand),
        Expression::Convert { operand, ty: _ } => {
            add_expression_deeds(numbers, deeds, scope, operand)
        }
        Expression::Prefixed {
            prefix: _,
            operand,
            ty: _,
        } => add_expression_deeds(numbers, deeds, scope, operand),
        Expression::Chain { first, links } => {
            add_expression_deeds(numbers, deeds, scope, first)?;
            add_links_deeds(numbers, deeds, scope, links.as_slice())
        }
        Expression::Compared {
            comparison: _,
            left,
            right,
        } => {
            add_expression_deeds(numbers, deeds, scope, left)?;
            add_expression_deeds(numbers, deeds, scope, right)
        }
        Expression::Applied {
            function: _,
            arguments,
            ty: _,
        } => add_expressions_deeds(numbers, deeds, scope, arguments.as_slice()),
        Expression::Called { call, ty: _ } => add_call_deeds(numbers, deeds, scope, call),
        Expression::HashCalled { hash, function } => {
            add_hash_call(numbers, deeds, scope, hash, *function)
        }
        Expression::IteratorCalled {
            iterator,
            function: _,
        } => add_iterator_call(numbers, deeds, scope, iterator),
    }
}
