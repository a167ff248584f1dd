//! Sources.
ghost use Rattle.std.specs.Prelude.{◌≡◌, length, map};
ghost use Rattle.ds2_tree.specs.Units.{source_spelling};
ghost use Rattle.ds2_tree.specs.PartViews.{part_tree};

use crate::SourcePart;
use ds2_base::List;

/// `source = { "proc" "ds2" ";" | "run" ";" | "quit" ";" | package | thread | data }`
#[derive(Drop)]
pub struct Source {
    pub parts: List<SourcePart>,
    /// How many tokens it has.
    pub tokens: usize,
    pub ghost counted: { tokens ≡ length (source_spelling (map part_tree parts)) },
}
