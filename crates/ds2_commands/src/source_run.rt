//! What is asked of the run of a source.
use ds2_base::Text;

/// A source that is run, and what is asked of its run.
#[derive(Drop)]
pub(crate) struct SourceRun<'a> {
    /// Its name.
    pub(crate) source: &'a Text,
    /// How many workers the groups of its local thread programs get; where no number is given, as many as the source asks for.
    pub(crate) threads: Option<u32>,
    /// The budget of each unit.
    pub(crate) budget: u64,
}
