//! The names that `keep` and `drop` list, as sets.

use ds2_scope::NameSet;

/// The names that `keep` and `drop` list, in the statements of a unit or in the options of an output.
#[derive(Drop)]
pub struct KeepDrop {
    /// Whether `keep` lists a name.
    pub has_keep: bool,
    pub kept: NameSet,
    pub dropped: NameSet,
}
