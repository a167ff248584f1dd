//! The typed units of a source.
ghost use Rattle.std.specs.Prelude.{IfOk};
ghost use Rattle.ds2_tree.specs.UnitViews.{source_tree};
ghost use Rattle.ds2_names.specs.SourceUnit.{columns_stored};
ghost use Rattle.ds2_elaboration.specs.Elaboration.{elaborated_source};
ghost use Rattle.ds2_elaboration.specs.TypedPrograms.{HaveSchemas};
ghost use Rattle.ds2_source.specs.SourceTexts.{StandsInText};
ghost use Rattle.ds2_compile.specs.SourceOutcomes.{IsOutcomeOfSource};
ghost use Rattle.ds2_compile.specs.SourceThreads.{AreThreadsOfSource};

use crate::typed_so_far::TypedSoFar;
use ds2_base::{List, Stop};
use ds2_elaboration::laws::tokens_stand_in_order;
use ds2_meaning::{Shared, TypedData, TypedThread};
use ds2_names::Schemas;
use ds2_source::SourceRefusal;
use ds2_tree::Source;
use std::alloc::Global;

/// The programs of a source that is not refused.
#[derive(Drop)]
pub struct TypedSource {
    /// Its data programs, in order, each with the thread program that it reads from.
    pub programs: List<TypedData>,
    /// Its thread programs, in order, whether a program reads from them or not.
    pub threads: List<Shared<TypedThread>>,
}

/// What a source becomes, over the columns of tables of the store and of those that earlier programs make: its typed programs, or its first
/// refusal: of the first unit that breaks a rule, of all rules of names that it breaks the one with the least place, and at one place the
/// first kind; where it breaks none, of all rules of types likewise.
pub fn typed_source(
    alloc: Global,
    source: &Source,
    schemas: &Schemas,
) -> Result<TypedSource, Stop<SourceRefusal>>
    requires text { StandsInText (source_tree source.now) }
    requires schemas { HaveSchemas (columns_stored schemas.now.tables) }
    ensures programs { IsOutcomeOfSource (elaborated_source (columns_stored schemas.now.tables) (source_tree source.now)) result }
    ensures threads { IfOk result (λ typed. AreThreadsOfSource (columns_stored schemas.now.tables) (source_tree source.now) typed.threads) }
{
    tokens_stand_in_order();
    let mut so_far = TypedSoFar::new(alloc, source, schemas.tables.as_slice())?;
    let mut rest = source.parts.as_slice();
    'parts: while let [part, after @ ..] = rest {
        so_far = so_far.with_part(alloc, part)?;
        rest = after;
    }
    Ok(so_far.ended())
}
