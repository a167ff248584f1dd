//! The key of the hash objects of a run.
ghost use Rattle.std.specs.Prelude.{[], IsTrue};
ghost use Rattle.ds2_object.specs.ObjectSpelling.{linked_behind};

use ds2_base::OutOfMemory;
use ds2_object::encode_programs;
use ds2_reading::HashKey;
use ds2_store_steps::KeptTable;
use ds2_valid_code::ProgramCode;
use std::alloc::Global;

/// The key of what a run reads: its programs, and the files of its tables.
pub(crate) fn key_of_run(
    alloc: Global,
    codes: &[ProgramCode],
    stored: &[KeptTable],
) -> Result<HashKey, OutOfMemory>
    requires { IsTrue (linked_behind [] codes.now) }
{
    let bytes = encode_programs(alloc, codes)?;
    let mut key = HashKey::new().with(bytes.as_slice());
    for table in stored {
        key = key.and(table.key());
    }
    Ok(key)
}
