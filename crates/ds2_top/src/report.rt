//! The writing of the log.
ghost use Rattle.std.specs.Prelude.{◌≡◌};
ghost use Rattle.ds2_outside.specs.Causes.{Rose};
ghost use Rattle.ds2_answer.specs.Lines.{memory_line};
ghost use Rattle.ds2_top.specs.Reported.{EndReported, Reported, TakesLine};

use ds2_answer::Status;
use ds2_base::{Bytes, List};
use ds2_outside::{Sink, WriteStop};
use ds2_store_steps::Halt;
use std::alloc::Global;

// Writes the log of a command that has ended with this status.
fn report<L: Sink>(status: Status, text: &Bytes, log: &mut L) -> Status
    ensures { Reported status text.now (Rose (L.faults log.old) (L.faults log.new)) result (L.written log.old) (L.written log.new) }
{
    match log.write_all(text) {
        Ok(()) => status,
        Err(WriteStop::OutOfMemory) => Status::Memory,
        Err(WriteStop::Failed) => match status {
            Status::Done => Status::Log,
            other => other,
        },
    }
}

// Says that there is no memory, as far as there is memory for that.
fn report_memory<L: Sink>(alloc: Global, log: &mut L) -> Status
    ensures memory { result ≡ Status.Memory }
    ensures taken { TakesLine memory_line (L.written log.old) (L.written log.new) }
{
    let mut line = List::new(alloc);
    match line.append(b"ERROR: Want of memory.\n") {
        Err(_) => Status::Memory,
        Ok(()) => match log.write_all(&line) {
            Ok(()) => Status::Memory,
            Err(_) => Status::Memory,
        },
    }
}

/// Writes the log of a command that has ended so, and gives its status.
pub(crate) fn report_end<L: Sink>(
    alloc: Global,
    end: Result<(), Halt>,
    text: &Bytes,
    log: &mut L,
) -> Status
    ensures { EndReported end text.now (Rose (L.faults log.old) (L.faults log.new)) result (L.written log.old) (L.written log.new) }
{
    match end {
        Ok(()) => report(Status::Done, text, log),
        Err(Halt::Ended(status)) => report(status, text, log),
        Err(Halt::OutOfMemory) => report_memory(alloc, log),
    }
}
