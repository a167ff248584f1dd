//! What the calls of a unit hand to in_out parameters.
ghost use Rattle.std.specs.Prelude.{◌≡◌, ◌++◌, IfOk, OnOk, nat_eq};
ghost use Rattle.std.specs.Cmp.Lexicographic.{pointwise};
ghost use Rattle.std.specs.HashSet.{contains};
ghost use Rattle.ds2_names.specs.NameRules.{from_each};
ghost use Rattle.ds2_aliases.specs.HandedGlobals.{unhidden_handing, handings_in, handings_of_method};

use crate::{Mention, MethodParts};
use ds2_base::{Bytes, List, OutOfMemory, Place};
use ds2_names::PlacedName;
use ds2_scope::{NameSet, name_set};
use std::alloc::Global;

/// A global that is handed to an in_out parameter.
#[derive(Drop)]
pub(crate) struct Handing {
    /// The method that is called.
    pub method: Bytes,
    pub name: Bytes,
    /// The place of the argument.
    pub place: Place,
}

// Adds a name that is handed over, where no parameter or local hides it.
fn push_handing(
    alloc: Global,
    found: &mut List<Handing>,
    locals: &NameSet,
    method: &Bytes,
    n: &PlacedName,
) -> Result<(), OutOfMemory>
    ensures { OnOk result (found.new ≡ found.old ++ unhidden_handing (contains (pointwise nat_eq) locals.now) method.now n.now) }
{
    if locals.contains(&n.name) {
        Ok(())
    } else {
        let method = List::from_slice(alloc, method.as_slice())?;
        let name = List::from_slice(alloc, n.name.as_slice())?;
        found.push(Handing {
            method,
            name,
            place: n.place,
        })
    }
}

// Adds the names that a call hands over.
fn push_handings(
    alloc: Global,
    found: &mut List<Handing>,
    locals: &NameSet,
    method: &Bytes,
    handed: &[PlacedName],
) -> Result<(), OutOfMemory>
    ensures { OnOk result (found.new ≡ found.old ++ from_each (unhidden_handing (contains (pointwise nat_eq) locals.now) method.now) handed.now) }
{
    'handed: for n in handed {
        push_handing(alloc, found, locals, method, n)?;
    }
    Ok(())
}

// Adds the names that a mention hands over.
fn push_in_mention(
    alloc: Global,
    found: &mut List<Handing>,
    locals: &NameSet,
    mention: &Mention,
) -> Result<(), OutOfMemory>
    ensures { OnOk result (found.new ≡ found.old ++ handings_in (contains (pointwise nat_eq) locals.now) mention.now) }
{
    match mention {
        Mention::Name(_) => Ok(()),
        Mention::Call { name, handed } => {
            push_handings(alloc, found, locals, name, handed.as_slice())
        }
        Mention::Object { .. } => Ok(()),
    }
}

// Adds the names that mentions hand over.
fn push_in_mentions(
    alloc: Global,
    found: &mut List<Handing>,
    locals: &NameSet,
    mentions: &[Mention],
) -> Result<(), OutOfMemory>
    ensures { OnOk result (found.new ≡ found.old ++ from_each (handings_in (contains (pointwise nat_eq) locals.now)) mentions.now) }
{
    'mentions: for mention in mentions {
        push_in_mention(alloc, found, locals, mention)?;
    }
    Ok(())
}

// Adds the names that a method hands over.
fn push_in_method(
    alloc: Global,
    found: &mut List<Handing>,
    m: &MethodParts,
) -> Result<(), OutOfMemory>
    ensures { OnOk result (found.new ≡ found.old ++ handings_of_method m.now) }
{
    let locals = name_set(alloc, m.locals.as_slice())?;
    push_in_mentions(alloc, found, &locals, m.mentions.as_slice())
}

/// The globals that methods hand to in_out parameters, in order.
pub(crate) fn handings_of(
    alloc: Global,
    methods: &[MethodParts],
) -> Result<List<Handing>, OutOfMemory>
    ensures { IfOk result (λ found. found ≡ from_each handings_of_method methods.now) }
{
    let mut found: List<Handing> = List::new(alloc);
    'methods: for m in methods {
        push_in_method(alloc, &mut found, m)?;
    }
    Ok(found)
}
