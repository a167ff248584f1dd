//! Why files are refused, and how long files may be.
use ds2_csv::{CsvRefusal, MOST_BYTES};

/// The most bytes of a source.
pub const SOURCE_LIMIT: u64 = 262_144;

/// The most bytes of a table's file.
pub const TABLE_LIMIT: u64 = MOST_BYTES as u64;

/// The most bytes of an object.
pub const OBJECT_LIMIT: u64 = 268_435_456;

/// Why a file is refused. A new one touches the files that docs/ARCHITECTURE.md lists under 'To add a refusal'.
#[derive(Clone, Copy, PartialEq, Eq)]
pub enum FileKind {
    /// There is no file of this name.
    Absent,
    /// It is longer than its limit.
    TooLarge,
    /// It is a source, and its bytes are not UTF-8.
    NotUtf8,
    /// Its bytes are no table.
    Table(CsvRefusal),
    /// It is a table of other columns than the object names.
    OtherSchema,
}
