//! AliasedArgument, at the argument.
ghost use Rattle.std.specs.Prelude.{◌≡◌, IfOk, OnOk, List as Items};
ghost use Rattle.ds2_calls.specs.UnitsCalls.{HasCalls};
ghost use Rattle.ds2_names.specs.NameRules.{from_each, aliased_arguments};
ghost use Rattle.ds2_names.specs.SourceUnit.{TableColumns, KnownUnit, names_of_unit};
ghost use Rattle.ds2_scope.specs.CodeUnits.{unit_source};
ghost use Rattle.ds2_scope.specs.Earliest.{earlier_of, earliest};
ghost use Rattle.ds2_scope.specs.UnitNames.{NamesAre};
ghost use Rattle.ds2_aliases.specs.declared.parts.UnitParts.{UnitParts};
ghost use Rattle.ds2_aliases.specs.HandedGlobals.{handings_of_method, reached_place, repeated_in_mention, repeated_in_method, aliased_by_parts};
ghost use Rattle.ds2_aliases.specs.ReachedNames.{AreLinks, HasReached};

use crate::handings::{Handing, handings_of};
use crate::reach::{Links, Reached, is_reached, links_of_unit};
use crate::{Mention, MethodParts, UnitParts, parts_of_unit};
use ds2_base::{OutOfMemory, Place};
use ds2_calls::Calls;
use ds2_scope::{NameTable, Unit, UnitNames, earlier_of, earliest_later, place_unless};
use std::alloc::Global;

// The earliest second one of two names that a call hands over and that are one.
fn repeated_in_mention(alloc: Global, mention: &Mention) -> Result<Option<Place>, OutOfMemory>
    ensures { IfOk result (λ place. place ≡ earliest (repeated_in_mention mention.now)) }
{
    match mention {
        Mention::Name(_) => Ok(None),
        Mention::Call { handed, .. } => earliest_later(alloc, handed.as_slice()),
        Mention::Object { handed, .. } => earliest_later(alloc, handed.as_slice()),
    }
}

// The earliest one in mentions.
fn repeated_in_mentions(alloc: Global, mentions: &[Mention]) -> Result<Option<Place>, OutOfMemory>
    ensures { IfOk result (λ place. place ≡ earliest (from_each repeated_in_mention mentions.now)) }
{
    let mut found: Option<Place> = None;
    'mentions: for mention in mentions {
        found = earlier_of(found, repeated_in_mention(alloc, mention)?);
    }
    Ok(found)
}

// The earliest one in methods.
fn repeated_handing(alloc: Global, methods: &[MethodParts]) -> Result<Option<Place>, OutOfMemory>
    ensures { IfOk result (λ place. place ≡ earliest (from_each repeated_in_method methods.now)) }
{
    let mut found: Option<Place> = None;
    'methods: for m in methods {
        found = earlier_of(found, repeated_in_mentions(alloc, m.mentions.as_slice())?);
    }
    Ok(found)
}

// The place of a global that is handed to a method that reaches it.
fn reached_place(
    alloc: Global,
    links: &Links,
    reached: &mut Reached,
    h: &Handing,
) -> Result<Option<Place>, OutOfMemory>
    ensures place { IfOk result (λ place. (unit : UnitParts) → AreLinks links.now unit → HasReached reached.old unit → place ≡ earliest (reached_place unit h.now)) }
    ensures table { OnOk result ((unit : UnitParts) → AreLinks links.now unit → HasReached reached.old unit → HasReached reached.new unit) }
{
    let is_aliased = is_reached(alloc, links, reached, &h.name, &h.method)?;
    Ok(place_unless(!is_aliased, h.place))
}

// The earliest one of globals that are handed over.
fn reached_handing(
    alloc: Global,
    links: &Links,
    handings: &[Handing],
) -> Result<Option<Place>, OutOfMemory>
    ensures { IfOk result (λ place. (unit : UnitParts) → AreLinks links.now unit → place ≡ earliest (from_each (reached_place unit) handings.now)) }
{
    let mut reached: Reached = NameTable::new(alloc);
    let mut found: Option<Place> = None;
    'handings: for h in handings {
        found = earlier_of(found, reached_place(alloc, links, &mut reached, h)?);
    }
    Ok(found)
}

// The earliest global that is handed to a method that reaches it.
fn reached_in_unit(alloc: Global, parts: &UnitParts) -> Result<Option<Place>, OutOfMemory>
    ensures { IfOk result (λ place. place ≡ earliest (from_each (reached_place parts.now) (from_each handings_of_method parts.now.methods))) }
{
    let handings = handings_of(alloc, parts.methods.as_slice())?;
    if handings.is_empty() {
        Ok(None)
    } else {
        let links = links_of_unit(alloc, parts)?;
        reached_handing(alloc, &links, handings.as_slice())
    }
}

// The earliest aliased argument of a unit.
fn aliased_in_unit(alloc: Global, parts: &UnitParts) -> Result<Option<Place>, OutOfMemory>
    ensures { IfOk result (λ place. place ≡ aliased_by_parts parts.now) }
{
    let repeated = repeated_handing(alloc, parts.methods.as_slice())?;
    let reached = reached_in_unit(alloc, parts)?;
    Ok(earlier_of(repeated, reached))
}

/// The earliest argument of a unit by which a called method reaches a variable on a second way: the second of two arguments for in_out parameters
/// that are one variable, and a global that the method, or one that it may call, mentions. The names are those of the unit over any tables, and
/// the calls those of the unit and of the units before it.
pub fn aliased_argument(
    alloc: Global,
    names: &UnitNames,
    calls: &Calls<'_, '_>,
    unit: Unit<'_>,
) -> Result<Option<Place>, OutOfMemory>
    ensures { IfOk result (λ place. (tables : TableColumns) (known : Items KnownUnit) → NamesAre names.now (names_of_unit tables known (unit_source unit.entry))
        → HasCalls calls.now (names_of_unit tables known (unit_source unit.entry)) → place ≡ earliest (aliased_arguments (names_of_unit tables known (unit_source unit.entry)))) }
{
    let parts = parts_of_unit(alloc, calls, unit.globals, names.instances.as_slice())?;
    aliased_in_unit(alloc, &parts)
}
