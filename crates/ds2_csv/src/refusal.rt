//! Why bytes are no table.
ghost use Rattle.std.specs.Prelude.{◌≡◌};
ghost use Rattle.ds2_csv.specs.Refusals.{of_cell, of_file, of_row};
ghost use Rattle.ds2_csv.specs.declared.refusal.CsvKind.TheVariants.{BadCell};

use thiserror::Error;

/// The kind of a refusal, in the order in which the reasons are looked for. A new one touches the files that docs/ARCHITECTURE.md
/// lists under 'To add a refusal'.
#[derive(Clone, Copy, Debug, Error, PartialEq, Eq)]
pub enum CsvKind {
    /// There are more than [`crate::MOST_BYTES`] bytes, more than [`crate::MOST_COLUMNS`] columns, or more than
    /// [`crate::MOST_CELLS`] cells below the header.
    #[error("too many bytes, columns or cells")]
    TooLarge,
    /// The bytes are not UTF-8.
    #[error("the bytes are not UTF-8")]
    NotUtf8,
    /// There is no record.
    #[error("there is no record")]
    NoHeader,
    /// A header cell tells no name.
    #[error("a header cell tells no name")]
    BadHeader,
    /// A header cell tells a type whose numbers are outside their range.
    #[error("a header cell tells a type out of its range")]
    BadType,
    /// A header cell tells the name of an earlier column.
    #[error("two columns have one name")]
    DuplicateColumn,
    /// A record has another number of cells than the header.
    #[error("a record has another number of cells than the header")]
    BadRecord,
    /// A cell has no value of its column's type.
    #[error("a cell has no value of its column's type")]
    BadCell,
}

/// A refusal. A row counts from 1 below the header, a column from 1. What says nothing of a kind is 0: the row of all kinds but
/// BadRecord and BadCell, the column of all but BadHeader, BadType, DuplicateColumn and BadCell.
#[derive(Clone, Copy, PartialEq, Eq)]
pub struct CsvRefusal {
    pub kind: CsvKind,
    pub row: u64,
    pub column: u32,
}

/// A refusal of the file as a whole.
pub(crate) fn of_file(kind: CsvKind) -> CsvRefusal
    ensures { result ≡ of_file kind }
{
    CsvRefusal {
        kind,
        row: 0,
        column: 0,
    }
}

/// A refusal of a row.
pub(crate) fn of_row(kind: CsvKind, row: u64) -> CsvRefusal
    ensures { result ≡ of_row kind row }
{
    CsvRefusal {
        kind,
        row,
        column: 0,
    }
}

/// A refusal of a cell that has no value of its column's type.
pub(crate) fn of_cell(row: u64, column: u32) -> CsvRefusal
    ensures { result ≡ of_cell BadCell row column }
{
    CsvRefusal {
        kind: CsvKind::BadCell,
        row,
        column,
    }
}
