//! Tables that are held by their names.
ghost use Rattle.std.specs.Prelude.{◌≡◌, [], bytes_eq, IfOk};
ghost use Rattle.std.specs.Arc.{arc_value};
ghost use Rattle.ds2_answer.specs.HeldTables.{contents_named};

use ds2_base::{List, Name, OutOfMemory};
use ds2_reading::HashKey;
use ds2_table::Table;
use ds2_value::Schema;
use std::alloc::Global;
use std::marker::Model;
use std::sync::Arc;

/// A table under a name, and the key of the file that it was read from. A contract sees its name and what it contains.
#[derive(Drop)]
pub struct KeptTable {
    name: Name,
    table: Arc<Table, Global>,
    key: HashKey,
}

impl Model for KeptTable {
    ghost use Rattle.std.specs.Arc.{arc_value};
    ghost use Rattle.ds2_answer.specs.HeldTables.{NamedTable};

    ghost Value = { NamedTable };

    ghost view = { λ t. record { name = t.name; contents = arc_value t.table } };
}

impl KeptTable {
    /// A table under this name, from a file of this key.
    pub fn new(
        alloc: Global,
        name: &Name,
        table: Table,
        key: HashKey,
    ) -> Result<KeptTable, OutOfMemory>
        ensures { IfOk result (λ kept. kept ≡ record { name = name.now; contents = table }) }
    {
        let name = name.copy(alloc)?;
        Ok(KeptTable {
            name,
            table: Arc::new(alloc, table)?,
            key,
        })
    }

    /// Its name.
    pub fn name(&self) -> &Name
        ensures { result.now ≡ self.now.name }
    {
        &self.name
    }

    /// Its schema.
    pub fn schema(&self) -> &Schema
        ensures { result.now ≡ self.now.contents.columns }
    {
        self.table.schema()
    }

    /// The key of its file.
    pub fn key(&self) -> &HashKey {
        &self.key
    }

    // Whether it has this name.
    fn is_named(&self, name: &Name) -> bool
        ensures { result ≡ bytes_eq self.now.name name.now }
    {
        self.name == *name
    }

    // The table, shared.
    fn share(&self) -> Result<Arc<Table, Global>, OutOfMemory>
        ensures { IfOk result (λ table. arc_value table ≡ self.now.contents) }
    {
        Ok(self.table.clone()?)
    }
}

// A schema without columns.
fn no_columns(alloc: Global) -> Schema
    ensures { result ≡ [] }
{
    match Schema::new(List::new(alloc)) {
        Some(schema) => schema,
        None => unreachable!(),
    }
}

/// The first table of a name; one without columns where there is none.
pub(crate) fn table_named(
    alloc: Global,
    tables: &[KeptTable],
    name: &Name,
) -> Result<Arc<Table, Global>, OutOfMemory>
    ensures { IfOk result (λ table. arc_value table ≡ contents_named tables.now name.now) }
{
    'tables: for table in tables {
        if table.is_named(name) {
            return table.share();
        }
    }
    Ok(Arc::new(alloc, Table::new(alloc, no_columns(alloc)))?)
}
