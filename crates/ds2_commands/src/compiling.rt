//! From the tree of a source and the tables of the store that it reads to its object.
ghost use Rattle.std.specs.Prelude.{◌≡◌, IfOk, map, Option};
ghost use Rattle.ds2_outside.specs.Files.{Files};
ghost use Rattle.ds2_compile.specs.SourceTexts.{StandsInText};
ghost use Rattle.ds2_compile.specs.SourceUnit.{columns_stored};
ghost use Rattle.ds2_compile.specs.UnitViews.{source_tree};
ghost use Rattle.ds2_answer.specs.HeldTables.{columns_held, held_from_store};
ghost use Rattle.ds2_answer.specs.SourcePlans.{with_tables};
ghost use Rattle.ds2_store_steps.specs.Halts.{HaltsAs};
ghost use Rattle.ds2_commands.specs.SourceLoads.{LoadsSource, schema_held};

use crate::loaded::Loaded;
use crate::refusals::refuse_source;
use ds2_answer::Status;
use ds2_base::{Bytes, List, OutOfMemory, Stop};
use ds2_compile::{NamedSchema, Schemas, Source, compile};
use ds2_exec::laws::verdict_grains_fit;
use ds2_exec::local_laws::independent_code_gives_stages;
use ds2_store_steps::{Halt, KeptTable};
use ds2_verdicts::laws::programs_have_verdicts;
use std::alloc::Global;

// A table's name and columns.
fn schema_of(alloc: Global, table: &KeptTable) -> Result<NamedSchema, OutOfMemory>
    ensures { IfOk result (λ schema. schema ≡ schema_held table.now) }
{
    let name = table.name().copy(alloc)?;
    Ok(NamedSchema {
        name,
        schema: table.schema().copy(alloc)?,
    })
}

// The columns of each table.
fn schemas_held(alloc: Global, stored: &[KeptTable]) -> Result<List<NamedSchema>, OutOfMemory>
    ensures { IfOk result (λ schemas. schemas ≡ map schema_held stored.now) }
{
    let mut schemas = List::new(alloc);
    'tables: for table in stored {
        schemas.push(schema_of(alloc, table)?)?;
    }
    Ok(schemas)
}

// The columns of tables by their names.
fn schemas_of(alloc: Global, stored: &[KeptTable]) -> Result<Schemas, OutOfMemory>
    ensures { IfOk result (λ schemas. columns_stored schemas.tables ≡ columns_held (held_from_store stored.now)) }
{
    let tables = schemas_held(alloc, stored)?;
    Ok(Schemas { tables })
}

/// Compiles a source over the tables that were read, or refuses it.
pub(crate) fn compile_over(
    alloc: Global,
    tree: &Source,
    stored: List<KeptTable>,
    log: &mut Bytes,
) -> Result<Loaded, Halt>
    requires { StandsInText (source_tree tree.now) }
    ensures loads { (told : Option Files) → LoadsSource (λ files go. with_tables (source_tree tree.now) go stored) log.old told result log.new told }
    ensures unread { HaltsAs Status.Read result → ⊥ }
    ensures unwritten { HaltsAs Status.Write result → ⊥ }
{
    verdict_grains_fit();
    independent_code_gives_stages();
    programs_have_verdicts();
    let schemas = schemas_of(alloc, stored.as_slice())?;
    match compile(alloc, tree, &schemas) {
        Ok(compiled) => Ok(Loaded {
            object: compiled.object,
            verdicts: compiled.verdicts,
            stored,
        }),
        Err(Stop::Refused(refusal)) => Err(refuse_source(alloc, refusal, log)),
        Err(Stop::OutOfMemory) => Err(Halt::OutOfMemory),
    }
}
