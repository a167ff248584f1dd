//! The tables that must come from the store.
ghost use Rattle.std.specs.Prelude.{◌≡◌, IfOk, map};
ghost use Rattle.ds2_tree.specs.UnitViews.{part_tree, source_tree};
ghost use Rattle.ds2_source.specs.Answers.{AnswersWith};
ghost use Rattle.ds2_source.specs.InputTables.{source_inputs, names_or_refusal};

use crate::mentions::add_part;
use crate::{SourceKind, SourceRefusal};
use ds2_base::{List, Name, OutOfMemory, Place, Stop};
use ds2_declared_types::names::names_alone;
use ds2_meaning::ScopeKind;
use ds2_names::PlacedName;
use ds2_scope::NameSet;
use ds2_tree::{Source, SourcePart};
use std::alloc::Global;

/// How many tables of the store a source may mention.
pub const MOST_TABLES: usize = 16;

// The tables of the store that the parts of a source mention, each at its first mention.
fn source_inputs(alloc: Global, parts: &[SourcePart]) -> Result<List<PlacedName>, OutOfMemory>
    ensures { IfOk result (λ tables. tables ≡ source_inputs (map part_tree parts.now)) }
{
    let mut known = NameSet::new(alloc);
    let mut first: List<PlacedName> = List::new(alloc);
    'parts: for part in parts {
        add_part(alloc, &mut known, &mut first, part)?;
    }
    Ok(first)
}

// The refusal of a table too many.
fn too_many(place: Place) -> SourceRefusal
    ensures { result ≡ record { kind = SourceKind.Scope ScopeKind.TooManyNames; place = place } }
{
    SourceRefusal {
        kind: SourceKind::Scope(ScopeKind::TooManyNames),
        place,
    }
}

// The names of tables, refused at the first one too many.
fn names_or_refusal(alloc: Global, tables: &[PlacedName]) -> Result<List<Name>, Stop<SourceRefusal>>
    ensures { AnswersWith (names_or_refusal tables.now) result }
{
    match tables.get(MOST_TABLES) {
        None => Ok(names_alone(alloc, tables)?),
        Some(table) => Err(Stop::Refused(too_many(table.place))),
    }
}

/// The tables that must come from the store for a source, in the order of their first mention by a reading statement or a hash object,
/// also of a package: those that no earlier program makes. TooManyNames comes exactly where there is a 17th, at its first mention.
pub fn input_names(alloc: Global, source: &Source) -> Result<List<Name>, Stop<SourceRefusal>>
    ensures { AnswersWith (names_or_refusal (source_inputs (source_tree source.now))) result }
{
    let parts = source.parts.as_slice();
    let tables = source_inputs(alloc, parts)?;
    let all = tables.as_slice();
    names_or_refusal(alloc, all)
}
