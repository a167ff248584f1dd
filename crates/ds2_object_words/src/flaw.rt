//! What is wrong with bytes.

/// What is wrong first where bytes do not begin with a part of the format.
#[derive(Clone, Copy)]
pub enum Flaw {
    /// The bytes end within a field.
    Truncated,
    /// A field has a value that it may not have.
    Bad {
        /// How many bytes are left from the field's first byte on.
        left: usize,
    },
}
