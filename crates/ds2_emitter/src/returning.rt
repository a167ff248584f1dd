//! How the statements of a body return.

/// What a `return` of a body comes to.
#[derive(Clone, Copy, PartialEq, Eq)]
pub enum Returning {
    /// A jump to the end of a system method.
    ToEnd,
    /// An instruction that hands a value back to the caller of a method.
    WithResult,
    /// An instruction that goes back to the caller of a method.
    WithoutResult,
}
