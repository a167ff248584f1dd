//! What stays the same while a program runs.

use ds2_base::List;
use ds2_reading::Tables;
use ds2_valid_code::ProgramCode;

/// What stays the same while a program runs.
#[derive(Drop)]
pub struct ProgramRun<'a> {
    pub code: &'a ProgramCode,
    /// The tables that the code names, in the order of their numbers.
    pub tables: &'a Tables,
    /// The budget of each unit, at most [`ds2_machine::MOST_BUDGET`] steps and calls.
    pub budget: u64,
    /// A number for each of the thread programs, the innermost first.
    pub grains: &'a List<u32>,
    /// On how many workers the groups of the thread program may run, 1 to 64, where they give the same whatever groups ran before them.
    pub workers: Option<u32>,
}
