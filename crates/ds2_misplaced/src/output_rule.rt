//! Which `output` statements may stand in a method.

/// Which `output` statements may stand in a method.
#[derive(Clone, Copy)]
pub(crate) enum OutputRule {
    /// None: in a package, and in a method other than `init`, `run` and `term`.
    Nowhere,
    /// Those that name no table: in a thread program.
    Unnamed,
    /// All: in a data program.
    Anywhere,
}
