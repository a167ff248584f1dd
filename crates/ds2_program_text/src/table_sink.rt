//! A table takes rows as text.
ghost use Rattle.std.specs.Prelude.{◌≡◌, ◌+◌, IfOk};

use crate::WrittenTable;
use crate::records::add_row;
use ds2_base::OutOfMemory;
use ds2_code::OutputPart;
use ds2_unit::RowSink;
use ds2_value::Value;
use std::alloc::Global;

// A number of rows and one more.
fn with_one_more(rows: u64) -> Result<u64, OutOfMemory>
    ensures { IfOk result (λ more. more ≡ rows + 1) }
{
    rows.checked_add(1).ok_or(OutOfMemory)
}

impl RowSink for WrittenTable {
    ghost use Rattle.std.specs.Prelude.{◌≡◌};
    ghost use Rattle.ds2_program_text.specs.ProgramTexts.{written_table};

    ghost has_rows = { λ from now rows. now ≡ written_table from.name from.overwrites (record { columns = from.columns; rows = rows }) };

    fn take_values(
        &mut self,
        alloc: Global,
        output: &OutputPart,
        slots: &[Value],
    ) -> Result<(), OutOfMemory> {
        let columns = self.columns.as_slice();
        add_row(
            alloc,
            &mut self.text,
            columns,
            output.columns.as_slice(),
            slots,
        )?;
        let rows = with_one_more(self.rows)?;
        self.rows = rows;
        Ok(())
    }
}
