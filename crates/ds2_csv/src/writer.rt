//! Writing of a table row by row.
ghost use Rattle.std.specs.Prelude.{◌≡◌, ◌++◌, ◌∷◌, [], List as Items, IfOk, OnOk};
ghost use Rattle.ds2_value.specs.declared.value.Value.{Value as Cell};
ghost use Rattle.ds2_csv.specs.Text.{text};

use crate::write::{add_header, add_row};
use ds2_base::{Bytes, List, OutOfMemory};
use ds2_value::{Column, Value};
use std::alloc::Global;
use std::marker::Model;

/// The text of a table, which grows row by row. A contract sees the bytes so far.
#[derive(Drop)]
pub struct TableWriter {
    bytes: Bytes,
}

impl Model for TableWriter {
    ghost use Rattle.std.specs.Prelude.{List, ℕ};

    ghost Value = { List ℕ };

    ghost view = { λ w. w.bytes };
}

impl TableWriter {
    /// The text of a table of these columns without rows.
    #[tactic(auto, using(crate::proofs::Writing::text_none))]
    pub fn new(alloc: Global, columns: &[Column]) -> Result<TableWriter, OutOfMemory>
        ensures { IfOk result (λ writer. writer ≡ text (record { columns = columns.now; rows = [] })) }
    {
        let mut bytes = List::new(alloc);
        add_header(alloc, &mut bytes, columns)?;
        Ok(TableWriter { bytes })
    }

    // Adds one more row of its columns.
    pub(crate) fn add(
        &mut self,
        alloc: Global,
        columns: &[Column],
        row: &[Value],
    ) -> Result<(), OutOfMemory>
        ensures { (rows : Items (Items Cell)) → self.old ≡ text (record { columns = columns.now; rows = rows }) → OnOk result (self.new ≡ text (record { columns = columns.now; rows = rows ++ row.now ∷ [] })) }
    {
        add_row(alloc, &mut self.bytes, columns, row)?;
        Ok(())
    }

    /// The text with one more row of its columns.
    pub fn with_row(
        self,
        alloc: Global,
        columns: &[Column],
        row: &[Value],
    ) -> Result<TableWriter, OutOfMemory>
        ensures { (rows : Items (Items Cell)) → self ≡ text (record { columns = columns.now; rows = rows }) → IfOk result (λ writer. writer ≡ text (record { columns = columns.now; rows = rows ++ row.now ∷ [] })) }
    {
        let mut writer = self;
        writer.add(alloc, columns, row)?;
        Ok(writer)
    }

    /// The bytes of the table.
    pub fn into_bytes(self) -> Result<Bytes, OutOfMemory>
        ensures { IfOk result (λ bytes. bytes ≡ self) }
    {
        Ok(self.bytes)
    }
}
