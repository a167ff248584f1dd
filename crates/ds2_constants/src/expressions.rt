//! The constants of expressions.
ghost use Rattle.std.specs.Prelude.{◌≡◌, map, OnOk};
ghost use Rattle.ds2_meaning.specs.TypedExpression.{Links, NoLink, TypedArguments, NoArgument};
ghost use Rattle.ds2_meaning.specs.View.{in_a_row, all_expressions, typed_expression, call_tree, link_tree, argument_tree};
ghost use Rattle.ds2_program_code.specs.UsedConstants.{constants_used, constants_of_links, constants_of_all, constants_of_arguments};
ghost use Rattle.ds2_constants.specs.UsedOnce.{with_used};

use crate::ConstantTable;
use ds2_base::OutOfMemory;
use ds2_meaning::{Argument, Call, Expression, Link};
use std::alloc::Global;

// Adds those of a further operand of a chain, so that what follows makes those of the whole.
#[cycle(collect)]
#[tactic(auto, using(crate::proofs::Collected::link_collected))]
fn collect_link(alloc: Global, table: &mut ConstantTable, link: &Link) -> Result<(), OutOfMemory>
    ensures { (rest : Links) → OnOk result (with_used (constants_of_links rest) table.new ≡ with_used (constants_of_links (link_tree link.now rest)) table.old) }
{
    collect_expression(alloc, table, &link.operand)?;
    Ok(())
}

// Adds those of the further operands of a chain.
#[cycle(collect)]
#[tactic(auto, using(crate::proofs::Collected::no_link_collected))]
fn collect_links(
    alloc: Global,
    table: &mut ConstantTable,
    links: &[Link],
) -> Result<(), OutOfMemory>
    ensures { OnOk result (table.new ≡ with_used (constants_of_links (in_a_row (map link_tree links.now) NoLink)) table.old) }
{
    'links: for link in links {
        collect_link(alloc, table, link)?;
    }
    Ok(())
}

/// Adds those of expressions in order.
#[cycle(collect)]
#[tactic(auto, using(crate::proofs::Collected::no_expression_collected, crate::proofs::Collected::then_collected))]
pub fn collect_expressions(
    alloc: Global,
    table: &mut ConstantTable,
    expressions: &[Expression],
) -> Result<(), OutOfMemory>
    ensures { OnOk result (table.new ≡ with_used (constants_of_all (all_expressions (map typed_expression expressions.now))) table.old) }
{
    'expressions: for e in expressions {
        collect_expression(alloc, table, e)?;
    }
    Ok(())
}

// Adds those of an argument, so that what follows makes those of the whole.
#[cycle(collect)]
#[tactic(auto, using(crate::proofs::Collected::value_collected, crate::proofs::Collected::in_out_collected))]
fn collect_argument(
    alloc: Global,
    table: &mut ConstantTable,
    argument: &Argument,
) -> Result<(), OutOfMemory>
    ensures { (rest : TypedArguments) → OnOk result (with_used (constants_of_arguments rest) table.new ≡ with_used (constants_of_arguments (argument_tree argument.now rest)) table.old) }
{
    match argument {
        Argument::Value(e) => {
            collect_expression(alloc, table, e)?;
            Ok(())
        }
        Argument::InOut(_) => Ok(()),
    }
}

/// Adds those of arguments in order.
#[cycle(collect)]
#[tactic(auto, using(crate::proofs::Collected::no_argument_collected))]
pub fn collect_arguments(
    alloc: Global,
    table: &mut ConstantTable,
    arguments: &[Argument],
) -> Result<(), OutOfMemory>
    ensures { OnOk result (table.new ≡ with_used (constants_of_arguments (in_a_row (map argument_tree arguments.now) NoArgument)) table.old) }
{
    'arguments: for argument in arguments {
        collect_argument(alloc, table, argument)?;
    }
    Ok(())
}

/// Adds those of a call.
#[cycle(collect)]
pub fn collect_call(
    alloc: Global,
    table: &mut ConstantTable,
    call: &Call,
) -> Result<(), OutOfMemory>
    ensures { OnOk result (table.new ≡ with_used (constants_of_arguments (call_tree call.now).arguments) table.old) }
{
    collect_arguments(alloc, table, call.arguments.as_slice())
}

/// Adds those of an expression.
#[cycle(collect)]
pub fn collect_expression(
    alloc: Global,
    table: &mut ConstantTable,
    e: &Expression,
) -> Result<(), OutOfMemory>
    ensures { OnOk result (table.new ≡ with_used (constants_used (typed_expression e.now)) table.old) }
{
    match e {
        Expression::Constant { value, ty } => table.add(alloc, value, *ty),
        Expression::Variable { variable: _, ty: _ } => Ok(()),
        Expression::Widen { operand } => collect_expression(alloc, table, operand),
        Expression::Convert { operand, ty: _ } => collect_expression(alloc, table, operand),
        Expression::Prefixed {
            prefix: _,
            operand,
            ty: _,
        } => collect_expression(alloc, table, operand),
        Expression::Chain { first, links } => {
            collect_expression(alloc, table, first)?;
            collect_links(alloc, table, links.as_slice())
        }
        Expression::Compared {
            comparison: _,
            left,
            right,
        } => {
            collect_expression(alloc, table, left)?;
            collect_expression(alloc, table, right)
        }
        Expression::Applied {
            function: _,
            arguments,
            ty: _,
        } => collect_expressions(alloc, table, arguments.as_slice()),
        Expression::Called { call, ty: _ } => collect_call(alloc, table, call),
        Expression::HashCalled {
            hash: _,
            function: _,
        } => Ok(()),
        Expression::IteratorCalled {
            iterator: _,
            function: _,
        } => Ok(()),
    }
}
