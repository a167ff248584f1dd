//! One call of the store each: the reading of a whole file that is within a limit, the question for a file, and the writing of a file.
ghost use Rattle.std.specs.Prelude.{◌≡◌, ◌<◌, ◌^◌, IfOk};
ghost use Rattle.ds2_answer.specs.Answer.{table_file};
ghost use Rattle.ds2_answer.specs.Plan.{Plan, WritesFile};
ghost use Rattle.ds2_store_steps.specs.FileReads.{AsksForFile, ReadsWholeFile};
ghost use Rattle.ds2_store_steps.specs.Halts.{CausedByStore, Follows, InSession};

use crate::Halt;
use crate::halt::{fail_read, fail_write, refuse_file};
use crate::session::Session;
use ds2_answer::FileKind;
use ds2_base::{Bytes, Name, OutOfMemory, Text};
use ds2_outside::{Failed, ReadStop, Store, WriteStop};
use std::alloc::Global;

/// The name of a table's file.
pub fn table_file(alloc: Global, name: &Name) -> Result<Text, OutOfMemory>
    ensures { IfOk result (λ file. file ≡ table_file name.now) }
{
    let name = name.as_str();
    Text::from_string(alloc, format!(in alloc; "{name}.csv")?)
}

/// Reads a file whole. One that is absent or longer than its limit ends the command with File, a read that fails with
/// Read; the text has the line on it then.
pub fn read_file<S: Store>(session: &mut Session<S>, name: &Text, limit: u64) -> Result<Bytes, Halt>
    requires { limit < 2 ^ 63 }
    ensures loads { InSession S.files (ReadsWholeFile limit name.now) session.old result session.new }
    ensures cause { CausedByStore S.read_faults S.write_faults session.old result session.new }
{
    let alloc = session.alloc;
    match session.store.read(alloc, name, limit) {
        Ok(bytes) if bytes.len() as u64 > limit => {
            Err(refuse_file(alloc, name, FileKind::TooLarge, &mut session.log))
        }
        Ok(bytes) => Ok(bytes),
        Err(ReadStop::Absent) => Err(refuse_file(alloc, name, FileKind::Absent, &mut session.log)),
        Err(ReadStop::Failed) => Err(fail_read(alloc, name, &mut session.log)),
        Err(ReadStop::OutOfMemory) => Err(Halt::OutOfMemory),
    }
}

/// Whether there is a file of this name. A question that fails ends the command with Read; the text has the line on it then.
pub(crate) fn has_file<S: Store>(session: &mut Session<S>, name: &Text) -> Result<bool, Halt>
    ensures asks { InSession S.files (AsksForFile name.now) session.old result session.new }
    ensures cause { CausedByStore S.read_faults S.write_faults session.old result session.new }
{
    match session.store.has(name) {
        Ok(there) => Ok(there),
        Err(Failed) => Err(fail_read(session.alloc, name, &mut session.log)),
    }
}

/// Writes a file. A write that fails ends the command with Write; the text has the line on it then.
pub fn write_file<S: Store>(
    session: &mut Session<S>,
    name: &Text,
    bytes: &Bytes,
) -> Result<(), Halt>
    ensures does { (rest : Plan) → InSession S.files (Follows (WritesFile name.now bytes.now rest) (λ _. rest)) session.old result session.new }
    ensures cause { CausedByStore S.read_faults S.write_faults session.old result session.new }
{
    let alloc = session.alloc;
    match session.store.write(alloc, name, bytes) {
        Ok(()) => Ok(()),
        Err(WriteStop::Failed) => Err(fail_write(alloc, name, &mut session.log)),
        Err(WriteStop::OutOfMemory) => Err(Halt::OutOfMemory),
    }
}
