//! The table of an output while its program runs.

use ds2_program_text::WrittenTable;
use ds2_table::Table;

/// The table of an output: its text, and where a later program names it, its rows too.
#[derive(Drop)]
pub(crate) struct OutputSink {
    pub(crate) written: WrittenTable,
    pub(crate) kept: Option<Table>,
}
