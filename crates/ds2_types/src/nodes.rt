//! Typed trees from their parts.
ghost use Rattle.std.specs.Prelude.{◌≡◌, ◌∷◌, [], map, IfOk};
ghost use Rattle.ds2_elaboration.specs.FunctionTypes.{nodes_in_order, of_one_node};
ghost use Rattle.ds2_elaboration.specs.Typings.{widened_node, widened_for, in_type};
ghost use Rattle.ds2_meaning.specs.TypedExpression as tree;
ghost use Rattle.ds2_meaning.specs.View.{typed_expression};
ghost use Rattle.ds2_types.specs.Judgements.{node_tree};

use crate::judgement::Node;
use crate::rules::is_integer;
use ds2_base::{List, OutOfMemory};
use ds2_meaning::{Expression, Function, Prefix, Reference};
use ds2_value::{Comparison, Ty, Value};
use std::alloc::Global;

/// A constant.
pub fn constant(alloc: Global, value: Value, ty: Ty) -> Result<Node, OutOfMemory>
    ensures { IfOk result (λ n. node_tree n ≡ tree.Constant value ty) }
{
    let tree = Box::new(alloc, Expression::Constant { value, ty })?;
    Ok(Node { ty, tree })
}

/// The value of a variable.
pub fn variable(alloc: Global, variable: Reference, ty: Ty) -> Result<Node, OutOfMemory>
    ensures { IfOk result (λ n. node_tree n ≡ tree.Variable variable ty) }
{
    let tree = Box::new(alloc, Expression::Variable { variable, ty })?;
    Ok(Node { ty, tree })
}

/// A BIGINT as DECIMAL(19,0).
pub fn widen(alloc: Global, operand: Node) -> Result<Node, OutOfMemory>
    ensures { IfOk result (λ n. node_tree n ≡ tree.Widen (node_tree operand)) }
{
    let tree = Box::new(
        alloc,
        Expression::Widen {
            operand: operand.tree,
        },
    )?;
    Ok(Node {
        ty: Ty::Decimal { p: 19, s: 0 },
        tree,
    })
}

/// A value assigned to a type.
pub fn convert(alloc: Global, operand: Node, ty: Ty) -> Result<Node, OutOfMemory>
    ensures { IfOk result (λ n. node_tree n ≡ tree.Convert (node_tree operand) ty) }
{
    let tree = Box::new(
        alloc,
        Expression::Convert {
            operand: operand.tree,
            ty,
        },
    )?;
    Ok(Node { ty, tree })
}

/// An operator before its operand.
pub fn prefixed(alloc: Global, prefix: Prefix, operand: Node, ty: Ty) -> Result<Node, OutOfMemory>
    ensures { IfOk result (λ n. node_tree n ≡ tree.Prefixed prefix (node_tree operand) ty) }
{
    let tree = Box::new(
        alloc,
        Expression::Prefixed {
            prefix,
            operand: operand.tree,
            ty,
        },
    )?;
    Ok(Node { ty, tree })
}

/// A comparison.
pub fn compared(
    alloc: Global,
    comparison: Comparison,
    left: Node,
    right: Node,
) -> Result<Node, OutOfMemory>
    ensures { IfOk result (λ n. node_tree n ≡ tree.Compared comparison (node_tree left) (node_tree right)) }
{
    let tree = Box::new(
        alloc,
        Expression::Compared {
            comparison,
            left: left.tree,
            right: right.tree,
        },
    )?;
    Ok(Node {
        ty: Ty::BigInt,
        tree,
    })
}

/// A BIGINT as DECIMAL(19,0); another expression is left as it is.
pub fn widened(alloc: Global, operand: Node) -> Result<Node, OutOfMemory>
    ensures { IfOk result (λ n. node_tree n ≡ widened_node (node_tree operand)) }
{
    if is_integer(operand.ty) {
        widen(alloc, operand)
    } else {
        Ok(operand)
    }
}

/// A BIGINT that becomes a DECIMAL is first DECIMAL(19,0).
pub fn widened_for(alloc: Global, ty: Ty, operand: Node) -> Result<Node, OutOfMemory>
    ensures { IfOk result (λ n. node_tree n ≡ widened_for ty (node_tree operand)) }
{
    match ty {
        Ty::Decimal { .. } => widened(alloc, operand),
        Ty::BigInt => Ok(operand),
        Ty::Char { .. } => Ok(operand),
        Ty::Varchar { .. } => Ok(operand),
    }
}

/// A function of one argument.
pub fn applied_to_one(
    alloc: Global,
    function: Function,
    argument: Node,
    ty: Ty,
) -> Result<Node, OutOfMemory>
    ensures { IfOk result (λ n. node_tree n ≡ of_one_node function (node_tree argument) ty) }
{
    let mut arguments = List::new(alloc);
    arguments.push(Box::into_inner(argument.tree))?;
    applied(alloc, function, arguments, ty)
}

/// A function of two arguments.
pub fn applied_to_two(
    alloc: Global,
    function: Function,
    first: Node,
    second: Node,
    ty: Ty,
) -> Result<Node, OutOfMemory>
    ensures { IfOk result (λ n. node_tree n ≡ tree.Applied function (nodes_in_order (node_tree first ∷ node_tree second ∷ [])) ty) }
{
    let mut arguments = List::new(alloc);
    arguments.push(Box::into_inner(first.tree))?;
    arguments.push(Box::into_inner(second.tree))?;
    applied(alloc, function, arguments, ty)
}

/// A function of its arguments.
pub fn applied(
    alloc: Global,
    function: Function,
    arguments: List<Expression>,
    ty: Ty,
) -> Result<Node, OutOfMemory>
    ensures { IfOk result (λ n. node_tree n ≡ tree.Applied function (nodes_in_order (map typed_expression arguments)) ty) }
{
    let tree = Box::new(
        alloc,
        Expression::Applied {
            function,
            arguments,
            ty,
        },
    )?;
    Ok(Node { ty, tree })
}
