//! The top call.
ghost use Rattle.ds2_top.specs.Headline.{Headline};

use crate::report::report_end;
use ds2_answer::Status;
use ds2_base::{List, Text};
use ds2_commands::{StageRun, do_command, sources_are_read};
use ds2_outside::{Gate, Sink, Store};
use ds2_store_steps::Session;
use ds2_value::Value;
use std::alloc::Global;
use std::sync::Wait;
use std::thread::Threads;

/// Does what a line of words says, with one worker, and writes the log at the end in one call.
///
/// The words are those after the program's name: `run`, `compile` or `check` and a source, or `exec` and an object, with their options, or
/// `demo` and a number of rows. A file of a table has the table's name and the ending `.csv`, and the object of `NAME.ds2` is `NAME.dso`. The
/// first refusal ends the command. The status tells how it has ended, and the log the kind and the place.
pub fn ds2_alone<T: Store, L: Sink>(
    alloc: Global,
    words: &[Text],
    store: &mut T,
    log: &mut L,
) -> Status
    ensures { Headline words.now
        (record { files = T.files store.old; log = L.written log.old; read_faults = T.read_faults store.old; write_faults = T.write_faults store.old; log_faults = L.faults log.old })
        (record { files = T.files store.new; log = L.written log.new; read_faults = T.read_faults store.new; write_faults = T.write_faults store.new; log_faults = L.faults log.new })
        result }
{
    sources_are_read();
    let mut session = Session {
        alloc,
        log: List::new(alloc),
        store,
    };
    let run = |a: Global, stage: &StageRun, given: &[Value]| stage.run(a, given);
    let ran = do_command(&mut session, words, &run);
    let Session {
        alloc: _,
        log: text,
        store: _store,
    } = session;
    report_end(alloc, ran, &text, log)
}

/// Does what a line of words says, with the same answer as [`ds2_alone`]. The groups of a thread program that is local run on as many workers
/// as the line of `run` asks for or, where it doesn't, the source; those of `demo` on four. It returns if the threads that it waits for do.
pub fn ds2<T: Store, L: Sink, G: Gate + Sync>(
    rt: &(impl Threads + Wait + Sync),
    alloc: Global,
    words: &[Text],
    store: &mut T,
    log: &mut L,
    gate: &G,
) -> Status
    ensures { Headline words.now
        (record { files = T.files store.old; log = L.written log.old; read_faults = T.read_faults store.old; write_faults = T.write_faults store.old; log_faults = L.faults log.old })
        (record { files = T.files store.new; log = L.written log.new; read_faults = T.read_faults store.new; write_faults = T.write_faults store.new; log_faults = L.faults log.new })
        result }
{
    sources_are_read();
    let mut session = Session {
        alloc,
        log: List::new(alloc),
        store,
    };
    let run_on = |a: Global, stage: &StageRun, given: &[Value]| stage.run_on(rt, a, given, gate);
    let ran = do_command(&mut session, words, &run_on);
    let Session {
        alloc: _,
        log: text,
        store: _store,
    } = session;
    report_end(alloc, ran, &text, log)
}
