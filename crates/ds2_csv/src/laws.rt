//! Laws of the definitions, each the contract of a function that does nothing.
ghost use Rattle.std.specs.Prelude.{◌≡◌, Ok};
ghost use Rattle.ds2_csv.specs.Law.{IsWithinLimits};
ghost use Rattle.ds2_csv.specs.Reads.{reads};
ghost use Rattle.ds2_csv.specs.Text.{text};

use ds2_table::Table;

/// [`crate::read_table`] gives back each table of which [`crate::write_table`] made the bytes, where it has a column and is
/// within the limits of reading. This rests on the same laws of cells, types and records.
pub fn reads_written(table: &Table)
    requires { IsWithinLimits table.now }
    ensures { reads (text table.now) ≡ Ok table.now }
{
    table.is_table();
    ds2_value::laws::fitting_is_held();
    ds2_csv_cells::laws::reads_cells();
    ds2_csv_cells::laws::reads_types();
    ds2_csv_records::laws::reads_records();
}
