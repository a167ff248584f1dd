//! What expressions mention.
ghost use Rattle.std.specs.Prelude.{◌≡◌, ◌∷◌, ◌++◌, [], OnOk};
ghost use Rattle.ds2_tree.specs.ExpressionViews.{expression_tree, operands_of, arguments_of};
ghost use Rattle.ds2_names.specs.SourceUnit.{spelled_name};
ghost use Rattle.ds2_names.specs.Uses.{CallsOn, uses, operand_uses, argument_uses};
ghost use Rattle.ds2_aliases.specs.MentionParts.{flags_by_calls, mentions_in_call, mentions_in_member, mentions_in_uses};

use crate::handed::handed_names;
use crate::mentions::Mention;
use ds2_base::{List, OutOfMemory};
use ds2_calls::{Calls, is_flag_word};
use ds2_scope::spelled_name;
use ds2_token::Token;
use ds2_tree::{Argument, Callee, Expression, Operand};
use std::alloc::Global;

/// Adds a plain name.
pub(crate) fn push_name(
    alloc: Global,
    found: &mut List<Mention>,
    name: &Token,
) -> Result<(), OutOfMemory>
    ensures { OnOk result (found.new ≡ found.old ++ Mention.Name (spelled_name name.now) ∷ []) }
{
    found.push(Mention::Name(spelled_name(alloc, name)?))
}

/// Adds what stands before a point without an argument list, where it is no flag's word.
pub(crate) fn push_member(
    alloc: Global,
    found: &mut List<Mention>,
    object: &Token,
) -> Result<(), OutOfMemory>
    ensures { OnOk result (found.new ≡ found.old ++ mentions_in_member object.now) }
{
    if is_flag_word(object) {
        Ok(())
    } else {
        let handed = List::new(alloc);
        let name = spelled_name(alloc, object)?;
        found.push(Mention::Object { name, handed })
    }
}

// Adds a call of a method, a function or an instance.
fn push_callee(
    alloc: Global,
    found: &mut List<Mention>,
    callee: &Callee,
    flags: &[bool],
    arguments: &[Argument],
) -> Result<(), OutOfMemory>
    ensures { OnOk result (found.new ≡ found.old ++ mentions_in_call callee.now flags.now (arguments_of arguments.now)) }
{
    match callee {
        Callee::Function(name) => {
            let handed = handed_names(alloc, flags, arguments)?;
            let name = spelled_name(alloc, name)?;
            found.push(Mention::Call { name, handed })
        }
        Callee::Null(_) => Ok(()),
        Callee::Method { object, .. } => {
            let handed = handed_names(alloc, flags, arguments)?;
            let name = spelled_name(alloc, object)?;
            found.push(Mention::Object { name, handed })
        }
    }
}

/// Adds what an expression mentions.
#[cycle(mention_expressions)]
pub(crate) fn push_expression(
    alloc: Global,
    calls: &Calls<'_, '_>,
    found: &mut List<Mention>,
    e: &Expression,
) -> Result<(), OutOfMemory>
    ensures { OnOk result (found.new ≡ found.old ++ mentions_in_uses (flags_by_calls calls.now) (uses (flags_by_calls calls.now) (expression_tree e.now))) }
{
    match e {
        Expression::Constant(_) => Ok(()),
        Expression::Null(_) => Ok(()),
        Expression::Variable(name) => push_name(alloc, found, name),
        Expression::Member { object, .. } => push_member(alloc, found, object),
        Expression::Call {
            callee,
            arguments,
            ..
        } => push_call(alloc, calls, found, callee, arguments.as_slice()),
        Expression::Parenthesis { inner, .. } => push_expression(alloc, calls, found, inner),
        Expression::Sign { operand, .. } => push_expression(alloc, calls, found, operand),
        Expression::Chain { first, rest, .. } => {
            push_expression(alloc, calls, found, first)?;
            push_operands(alloc, calls, found, rest.as_slice())
        }
        Expression::Comparison { left, right, .. } => {
            push_expression(alloc, calls, found, left)?;
            push_expression(alloc, calls, found, right)
        }
        Expression::Not { operand, .. } => push_expression(alloc, calls, found, operand),
    }
}

/// Adds what a call mentions.
#[cycle(mention_expressions)]
pub(crate) fn push_call(
    alloc: Global,
    calls: &Calls<'_, '_>,
    found: &mut List<Mention>,
    callee: &Callee,
    arguments: &[Argument],
) -> Result<(), OutOfMemory>
    ensures { OnOk result (found.new ≡ found.old ++ mentions_in_uses (flags_by_calls calls.now) (CallsOn callee.now (arguments_of arguments.now) ∷ argument_uses (flags_by_calls calls.now) (flags_by_calls calls.now callee.now) (arguments_of arguments.now))) }
{
    let flags = calls.flags_of(alloc, callee)?;
    push_callee(alloc, found, callee, flags, arguments)?;
    push_arguments(alloc, calls, found, arguments)
}

// Adds what the further operands of a chain mention.
#[cycle(mention_expressions)]
fn push_operands(
    alloc: Global,
    calls: &Calls<'_, '_>,
    found: &mut List<Mention>,
    operands: &[Operand],
) -> Result<(), OutOfMemory>
    ensures { OnOk result (found.new ≡ found.old ++ mentions_in_uses (flags_by_calls calls.now) (operand_uses (flags_by_calls calls.now) (operands_of operands.now))) }
{
    'operands: for operand in operands {
        push_expression(alloc, calls, found, &operand.value)?;
    }
    Ok(())
}

/// Adds what arguments mention: a name that is handed over is mentioned as one whose value is read.
#[cycle(mention_expressions)]
pub(crate) fn push_arguments(
    alloc: Global,
    calls: &Calls<'_, '_>,
    found: &mut List<Mention>,
    arguments: &[Argument],
) -> Result<(), OutOfMemory>
    ensures { OnOk result (found.new ≡ found.old ++ mentions_in_uses (flags_by_calls calls.now) (argument_uses (flags_by_calls calls.now) [] (arguments_of arguments.now))) }
{
    'arguments: for argument in arguments {
        push_expression(alloc, calls, found, &argument.value)?;
    }
    Ok(())
}
