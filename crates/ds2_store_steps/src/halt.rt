//! How a command ends before its last step.
ghost use Rattle.std.specs.Prelude.{codes};
ghost use Rattle.ds2_answer.specs.Lines.{error_line, exists_line, fault_line, fault_text, file_line};
ghost use Rattle.ds2_store_steps.specs.Halts.{StopsAs};

use ds2_answer::lines::{say_error, say_exists, say_fault, say_refused};
use ds2_answer::{FileKind, Status};
use ds2_base::{Bytes, OutOfMemory, Place, Text};
use ds2_value::Fault;
use std::alloc::Global;

/// Why a command goes no further. `?` carries it up to the call that writes the log.
#[derive(Clone, Copy, PartialEq, Eq)]
pub enum Halt {
    /// It has ended with this status, and its text has the line that says why.
    Ended(Status),
    /// There was no memory.
    OutOfMemory,
}

impl From<OutOfMemory> for Halt {
    ghost use Rattle.std.specs.Prelude.{◌≡◌};
    ghost use Rattle.ds2_store_steps.specs.declared.halt.Halt.TheVariants.{OutOfMemory};

    ghost from_gives = { λ _ e. e ≡ OutOfMemory };

    fn from(_: OutOfMemory) -> Self {
        Halt::OutOfMemory
    }
}

/// Says that a file is refused, which ends the command.
pub fn refuse_file(alloc: Global, name: &Text, kind: FileKind, log: &mut Bytes) -> Halt
    ensures { StopsAs Status.File (file_line name.now kind) log.old result log.new }
{
    match say_refused(alloc, name, kind, log) {
        Ok(()) => Halt::Ended(Status::File),
        Err(OutOfMemory) => Halt::OutOfMemory,
    }
}

/// Says that the file of an output is there already, which ends the command.
pub(crate) fn refuse_output(alloc: Global, name: &Text, log: &mut Bytes) -> Halt
    ensures { StopsAs Status.Exists (exists_line name.now) log.old result log.new }
{
    match say_exists(alloc, name, log) {
        Ok(()) => Halt::Ended(Status::Exists),
        Err(OutOfMemory) => Halt::OutOfMemory,
    }
}

/// Says in which fault a program has ended, which ends the command.
pub fn end_in_fault(alloc: Global, fault: Fault, place: Place, log: &mut Bytes) -> Halt
    ensures { StopsAs Status.Fault (error_line (fault_text fault) place) log.old result log.new }
{
    match say_error(alloc, fault, place, log) {
        Ok(()) => Halt::Ended(Status::Fault),
        Err(OutOfMemory) => Halt::OutOfMemory,
    }
}

/// Says that a read of a file, or the question for it, has failed, which ends the command.
pub(crate) fn fail_read(alloc: Global, name: &Text, log: &mut Bytes) -> Halt
    ensures { StopsAs Status.Read (fault_line (codes "Read") name.now) log.old result log.new }
{
    match say_fault(alloc, "Read", name, log) {
        Ok(()) => Halt::Ended(Status::Read),
        Err(OutOfMemory) => Halt::OutOfMemory,
    }
}

/// Says that the write of a file has failed, which ends the command.
pub(crate) fn fail_write(alloc: Global, name: &Text, log: &mut Bytes) -> Halt
    ensures { StopsAs Status.Write (fault_line (codes "Write") name.now) log.old result log.new }
{
    match say_fault(alloc, "Write", name, log) {
        Ok(()) => Halt::Ended(Status::Write),
        Err(OutOfMemory) => Halt::OutOfMemory,
    }
}
