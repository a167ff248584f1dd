//! Standard output as a log: an edge that is trusted, and tells nothing of what was written.
ghost use Rattle.std.specs.Prelude.{◌≡◌};

use crate::{Sink, WriteStop};
use ds2_base::Bytes;
use std::io;
use std::io::Write;

/// Standard output.
#[derive(Drop)]
pub struct StdSink<'r, R: Print> {
    rt: &'r R,
    faults: u64,
}

impl<'r, R: Print> StdSink<'r, R> {
    /// The standard output of the program, with no fault counted.
    pub fn new(rt: &'r R) -> Self
        ensures { result.faults ≡ 0 }
    {
        StdSink { rt, faults: 0 }
    }
}

impl<'r, R: Print> Sink for StdSink<'r, R> {
    ghost use Rattle.std.specs.Prelude.{None};

    ghost written = { λ s. None };

    ghost faults = { λ s. s.faults };

    // std's `write_all` makes an error of a write that takes nothing of the bytes that are left.
    fn write_all(&mut self, bytes: &Bytes) -> Result<(), WriteStop> {
        match io::writer(self.rt).write_all(bytes.as_slice()) {
            Ok(()) => Ok(()),
            Err(_) => {
                self.faults = self.faults.saturating_add(1);
                Err(WriteStop::Failed)
            }
        }
    }
}
