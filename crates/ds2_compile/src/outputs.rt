//! The outputs of a typed program, for the programs behind it.
ghost use Rattle.std.specs.Prelude.{◌≡◌, ◌++◌, true, map, IfOk};
ghost use Rattle.ds2_value.specs.Schema.{is_schema};
ghost use Rattle.ds2_value.specs.declared.schema.Column.{Column as ColumnOf};
ghost use Rattle.ds2_meaning.specs.ProgramMeaning.{output_columns};
ghost use Rattle.ds2_meaning.specs.declared.globals.OutputColumn.{OutputColumn as OutputColumnOf};
ghost use Rattle.ds2_compile.specs.TablesBehind.{HaveOutputSchemas, schema_of_output, mention_of_output};

use ds2_base::{List, OutOfMemory};
use ds2_meaning::{MentionedTable, OutputColumn, OutputTable};
use ds2_names::NamedSchema;
use ds2_value::{Column, Schema};
use std::alloc::Global;

// The columns of an output.
fn columns_of(alloc: Global, columns: &[OutputColumn]) -> Result<List<Column>, OutOfMemory>
    ensures { IfOk result (λ all. all ≡ map (λ (c : OutputColumnOf). record { name = c.name; ty = c.ty }) columns.now) }
{
    let mut all = List::new(alloc);
    'columns: for column in columns {
        let name = column.name.copy(alloc)?;
        all.push(Column {
            name,
            ty: column.ty,
        })?;
    }
    Ok(all)
}

// An output's table, with its columns.
fn schema_of(alloc: Global, o: &OutputTable) -> Result<NamedSchema, OutOfMemory>
    requires { is_schema (output_columns o.now) ≡ true }
    ensures { IfOk result (λ schema. schema ≡ schema_of_output o.now) }
{
    let name = o.name.copy(alloc)?;
    let columns = columns_of(alloc, o.columns.as_slice())?;
    match Schema::new(columns) {
        Some(schema) => Ok(NamedSchema { name, schema }),
        None => unreachable!(),
    }
}

/// The tables of outputs with their columns, before others.
pub(crate) fn schemas_before(
    alloc: Global,
    outputs: &[OutputTable],
    others: List<NamedSchema>,
) -> Result<List<NamedSchema>, OutOfMemory>
    requires { HaveOutputSchemas outputs.now }
    ensures { IfOk result (λ all. all ≡ map schema_of_output outputs.now ++ others) }
{
    let mut all = List::new(alloc);
    let mut rest = outputs;
    'outputs: while let [first, after @ ..] = rest {
        all.push(schema_of(alloc, first)?)?;
        rest = after;
    }
    all.append_list(others)?;
    Ok(all)
}

// An output's table, as the one that a mention means.
fn table_of(alloc: Global, number: u32, o: &OutputTable) -> Result<MentionedTable, OutOfMemory>
    ensures { IfOk result (λ table. table ≡ mention_of_output number o.now) }
{
    Ok(MentionedTable {
        name: o.name.copy(alloc)?,
        maker: number,
    })
}

/// The tables that the program of this number makes, before those of others.
pub(crate) fn tables_before(
    alloc: Global,
    number: u32,
    outputs: &[OutputTable],
    others: List<MentionedTable>,
) -> Result<List<MentionedTable>, OutOfMemory>
    ensures { IfOk result (λ all. all ≡ map (mention_of_output number) outputs.now ++ others) }
{
    let mut all = List::new(alloc);
    'outputs: for o in outputs {
        all.push(table_of(alloc, number, o)?)?;
    }
    all.append_list(others)?;
    Ok(all)
}
