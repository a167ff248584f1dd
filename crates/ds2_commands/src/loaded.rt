//! A source that was read and compiled.
use ds2_base::List;
use ds2_object::ObjectCode;
use ds2_store_steps::KeptTable;
use ds2_verdicts::ThreadVerdict;

/// The object of a source, the verdicts on its thread programs, and the tables of the store that it reads.
#[derive(Drop)]
pub(crate) struct Loaded {
    pub(crate) object: ObjectCode,
    pub(crate) verdicts: List<ThreadVerdict>,
    pub(crate) stored: List<KeptTable>,
}
