//! A log in memory, which fails at chosen calls.
ghost use Rattle.std.specs.Prelude.{◌≡◌, ◌++◌, [], IfSome, IsErrOf, OnOk, OnErr, option_map};
ghost use Rattle.ds2_outside.specs.Causes.{HasCause};
ghost use Rattle.ds2_outside.specs.LogView.{LogView, log_fails, after_log_write};
ghost use Rattle.ds2_outside.specs.Written.{TakesPart, has_write_failed};

use crate::calls::Calls;
use crate::{Sink, WriteStop};
use ds2_base::{Bytes, List};
use std::alloc::Global;
use std::marker::Model;

/// A log in memory. A contract sees what it has taken, the calls made, those that fail, and the count of faults.
#[derive(Drop)]
pub struct MemSink {
    written: Bytes,
    calls: Calls,
    faults: u64,
}

impl Model for MemSink {
    ghost use Rattle.ds2_outside.specs.LogView.{LogView};

    ghost Value = { LogView };

    ghost view = { λ s. record { written = s.written; calls = s.calls.made; failing = s.calls.failing; faults = s.faults } };
}

impl MemSink {
    /// An empty log, of which no call fails. Takes no memory.
    pub fn new(alloc: Global) -> Self
        ensures { result ≡ record { written = []; calls = 0; failing = []; faults = 0 } }
    {
        MemSink {
            written: List::new(alloc),
            calls: Calls::new(alloc),
            faults: 0,
        }
    }

    /// All that was taken.
    pub fn written(&self) -> &Bytes
        ensures { result.now ≡ self.now.written }
    {
        &self.written
    }

    /// From here on the calls of `write_all` with these numbers fail, counted from 1. Takes the place of an earlier list.
    pub fn fail_at(&mut self, calls: List<u64>)
        ensures { self.new ≡ record self.old { failing = calls } }
    {
        self.calls.failing = calls;
    }
}

impl Sink for MemSink {
    ghost use Rattle.std.specs.Prelude.{Some};

    ghost written = { λ s. Some s.written };

    ghost faults = { λ s. s.faults };

    fn write_all(&mut self, bytes: &Bytes) -> Result<(), WriteStop>
        ensures failed { has_write_failed result ≡ log_fails self.old }
        ensures after { self.new ≡ after_log_write self.old bytes.now result }
        ensures cause { HasCause self.old.faults self.new.faults (IsErrOf result WriteStop.Failed) }
    {
        if self.calls.next_fails() {
            self.faults = self.faults.saturating_add(1);
            return Err(WriteStop::Failed);
        }
        self.written.append(bytes.as_slice())?;
        Ok(())
    }
}
