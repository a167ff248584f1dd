//! Values that are assigned to a type, and the conversions that this takes.
ghost use Rattle.std.specs.Prelude.{◌≡◌, IfOk};
ghost use Rattle.ds2_elaboration.specs.Typings.{ElaboratedExpression, in_type, assigned_node, assigned_refusals};
ghost use Rattle.ds2_types.specs.Judgements.{typing_of, node_tree, unbroken, IsJudged, IsAssigned};

use crate::judgement::{Judgement, Node, Outcome, Typing};
use crate::nodes::{constant, convert, widened_for};
use crate::refusals::ruled;
use crate::rules::{assigned_clash, is_one};
use ds2_base::{OutOfMemory, Place};
use ds2_value::{Ty, Value};
use std::alloc::Global;

/// An expression in a type: converted where it is not of that type.
pub fn in_type(alloc: Global, ty: Ty, operand: Node) -> Result<Node, OutOfMemory>
    ensures { IfOk result (λ n. node_tree n ≡ in_type ty (node_tree operand)) }
{
    let operand = widened_for(alloc, ty, operand)?;
    if is_one(operand.ty, ty) {
        Ok(operand)
    } else {
        convert(alloc, operand, ty)
    }
}

/// An expression in a type; the constant null has that type.
pub fn assigned(alloc: Global, ty: Ty, typing: Typing, operand: Node) -> Result<Node, OutOfMemory>
    ensures { IfOk result (λ n. node_tree n ≡ assigned_node ty (unbroken (typing_of typing) (node_tree operand))) }
{
    match typing {
        Typing::NullAt(_) => constant(alloc, Value::Null, ty),
        Typing::Known(_) => in_type(alloc, ty, operand),
        Typing::Unknown => in_type(alloc, ty, operand),
    }
}

/// A value that is assigned to a type, or the rule that is broken: TypeClash at a place, where its type may not be assigned to
/// this one.
pub fn assigned_value(
    alloc: Global,
    ty: Ty,
    place: Place,
    x: Judgement,
) -> Result<Outcome, OutOfMemory>
    ensures { (e : ElaboratedExpression) → IsJudged e x → IfOk result (λ outcome. IsAssigned ty place e outcome) }
{
    let typing = x.typing;
    match ruled(x.outcome, assigned_clash(ty, place, typing)) {
        Err(refusal) => Ok(Err(refusal)),
        Ok(operand) => {
            let node = assigned(alloc, ty, typing, operand)?;
            Ok(Ok(node))
        }
    }
}
