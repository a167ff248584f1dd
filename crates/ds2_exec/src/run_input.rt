//! What programs are run over.

use crate::run_codes::RunCodes;
use ds2_reading::HashKey;
use ds2_scope::NameSet;
use ds2_store_steps::KeptTable;
use ds2_verdicts::ThreadVerdict;

/// Programs that are run one behind the other, and what they are run over.
#[derive(Drop)]
pub struct RunInput<'a, 'c> {
    pub codes: &'a RunCodes<'c>,
    /// The tables of the store that were read.
    pub stored: &'a [KeptTable],
    /// The verdicts on the thread programs.
    pub verdicts: &'a [ThreadVerdict],
    /// How many workers the groups of a local thread program get; as many as its program asks for where no number is given. It is 1 at the
    /// least and 64 at the most.
    pub threads: Option<u32>,
    /// The budget of each unit, at most [`ds2_machine::MOST_BUDGET`] steps and calls.
    pub budget: u64,
}

/// What stays the same while programs run.
#[derive(Drop)]
pub(crate) struct Running<'a, F> {
    pub(crate) stored: &'a [KeptTable],
    pub(crate) verdicts: &'a [ThreadVerdict],
    /// The names of the tables of which rows are kept.
    pub(crate) kept: &'a NameSet,
    /// The key of the hash objects.
    pub(crate) key: HashKey,
    pub(crate) threads: Option<u32>,
    pub(crate) budget: u64,
    /// What runs a thread program.
    pub(crate) run: &'a F,
}
