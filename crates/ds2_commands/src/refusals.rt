//! What is refused before programs run: words that are no command, sources and objects.
ghost use Rattle.ds2_answer.specs.Lines.{object_refused_line, source_line, usage_line};
ghost use Rattle.ds2_store_steps.specs.Halts.{StopsAs};

use ds2_answer::Status;
use ds2_answer::lines::{say_object_refused, say_source_refused, say_usage};
use ds2_base::{Bytes, OutOfMemory};
use ds2_compile::SourceRefusal;
use ds2_object::ObjectRefusal;
use ds2_store_steps::Halt;
use std::alloc::Global;

/// Says that the words are no command, which ends it.
pub(crate) fn refuse_words(log: &mut Bytes) -> Halt
    ensures { StopsAs Status.Usage usage_line log.old result log.new }
{
    match say_usage(log) {
        Ok(()) => Halt::Ended(Status::Usage),
        Err(OutOfMemory) => Halt::OutOfMemory,
    }
}

/// Says that the source is refused, which ends the command.
pub(crate) fn refuse_source(alloc: Global, refusal: SourceRefusal, log: &mut Bytes) -> Halt
    ensures { StopsAs Status.Source (source_line refusal) log.old result log.new }
{
    match say_source_refused(alloc, refusal, log) {
        Ok(()) => Halt::Ended(Status::Source),
        Err(OutOfMemory) => Halt::OutOfMemory,
    }
}

/// Says that the object is refused, which ends the command.
pub(crate) fn refuse_object(alloc: Global, refusal: &ObjectRefusal, log: &mut Bytes) -> Halt
    ensures { StopsAs Status.Object (object_refused_line refusal.now) log.old result log.new }
{
    match say_object_refused(alloc, refusal, log) {
        Ok(()) => Halt::Ended(Status::Object),
        Err(OutOfMemory) => Halt::OutOfMemory,
    }
}
