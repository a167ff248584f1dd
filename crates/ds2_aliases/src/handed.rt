//! The names that a call hands to in_out parameters.
ghost use Rattle.std.specs.Prelude.{◌≡◌, ◌++◌, IfOk, OnOk};
ghost use Rattle.ds2_tree.specs.ExpressionViews.{expression_tree, arguments_of};
ghost use Rattle.ds2_names.specs.NameRules.{handed_names};
ghost use Rattle.ds2_calls.specs.UseParts.{handed_name};
ghost use Rattle.ds2_aliases.specs.MentionParts.{placed_if_any};

use ds2_base::{List, OutOfMemory};
use ds2_calls::{further_flags, handed_name, next_flag};
use ds2_names::PlacedName;
use ds2_scope::placed_name;
use ds2_tree::{Argument, Expression};
use std::alloc::Global;

// Adds the name in an argument, where one is handed over.
fn push_handed(
    alloc: Global,
    names: &mut List<PlacedName>,
    in_out: bool,
    e: &Expression,
) -> Result<(), OutOfMemory>
    ensures { OnOk result (names.new ≡ names.old ++ placed_if_any (handed_name in_out (expression_tree e.now))) }
{
    match handed_name(in_out, e) {
        None => Ok(()),
        Some(name) => names.push(placed_name(alloc, name)?),
    }
}

/// The names among arguments that are handed to in_out parameters.
pub(crate) fn handed_names(
    alloc: Global,
    flags: &[bool],
    arguments: &[Argument],
) -> Result<List<PlacedName>, OutOfMemory>
    ensures { IfOk result (λ names. names ≡ handed_names flags.now (arguments_of arguments.now)) }
{
    let mut names: List<PlacedName> = List::new(alloc);
    let mut left = flags;
    'arguments: for argument in arguments {
        push_handed(alloc, &mut names, next_flag(left), &argument.value)?;
        left = further_flags(left);
    }
    Ok(names)
}
