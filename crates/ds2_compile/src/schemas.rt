//! The schemas of tables.
ghost use Rattle.ds2_elaboration.specs.TypedPrograms.{HaveSchemas};
ghost use Rattle.ds2_names.specs.SourceUnit.{columns_stored};

use ds2_names::NamedSchema;

/// Reads each schema, which is one.
#[tactic(auto, using(crate::proofs::SchemaLemmas::one_schema, crate::proofs::SchemaLemmas::no_schema))]
pub(crate) fn read_schemas(tables: &[NamedSchema])
    ensures { HaveSchemas (columns_stored tables.now) }
{
    let mut rest = tables;
    'tables: while let [first, after @ ..] = rest {
        let _columns = first.schema.columns();
        rest = after;
    }
}
