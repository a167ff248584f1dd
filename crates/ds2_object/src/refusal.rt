//! Why bytes are no object.

use thiserror::Error;

/// Why bytes are no object: what is wrong first. A new one touches the files that docs/ARCHITECTURE.md lists under 'To add a refusal'.
#[derive(Debug, Drop, Error, PartialEq, Eq)]
pub enum ObjectRefusal {
    /// The first four bytes are not `DS2O`.
    #[error("this is no object file")]
    BadMagic,
    /// The version is another one.
    #[error("the object file is of another version")]
    BadVersion,
    /// The bytes end within a field.
    #[error("the object file is cut short")]
    Truncated,
    /// Bytes stand behind the last program.
    #[error("bytes stand behind the object")]
    TrailingBytes,
    /// A field has a value that it may not have.
    #[error("the field at byte {offset} has a value that it may not have")]
    BadField {
        /// The number of bytes before the field.
        offset: u64,
    },
    /// The code is not valid, or a table that a program reads is made by no earlier one.
    #[error("the object's code is not valid")]
    NotValid,
}
