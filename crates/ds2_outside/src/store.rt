//! A store of named files.
ghost use Rattle.std.specs.Prelude.{◌≡◌, ◌^◌, ◌<◌, ℕ, Option, IfSome, IfOk, OnOk, OnErr, IsErr, IsErrOf, option_map};
ghost use Rattle.std.specs.FinMap.{contains_key};
ghost use Rattle.ds2_outside.specs.Causes.{HasCause};
ghost use Rattle.ds2_outside.specs.Files.{Files, Reads, LeavesPart, with_file};

use ds2_base::{Bytes, OutOfMemory, Text};
use std::alloc::Global;

/// Why a read gave no bytes.
#[derive(Clone, Copy, PartialEq, Eq)]
pub enum ReadStop {
    /// There is no file of that name.
    Absent,
    /// The file could not be read; the store's count of read faults rose.
    Failed,
    /// There was no memory.
    OutOfMemory,
}

/// Why a write was not done, or not all of it.
#[derive(Clone, Copy, PartialEq, Eq)]
pub enum WriteStop {
    /// The bytes could not be written; the count of write faults rose.
    Failed,
    /// There was no memory.
    OutOfMemory,
}

/// The store could not tell; its count of read faults rose.
#[derive(Clone, Copy, PartialEq, Eq)]
pub struct Failed;

/// Files by name. A store may tell what it holds, as one in memory does. Its two counts of faults never fall, and a call
/// answers Failed only where the count of its kind rose in that call, or stands at its end.
pub trait Store {
    /// The files, where the store tells them.
    ghost files: { Self → Option Files };

    /// How often `read` and `has` have failed.
    ghost read_faults: { Self → ℕ };

    /// How often `write` has failed.
    ghost write_faults: { Self → ℕ };

    /// The first bytes of a file, at most one more than `most`, so that a longer file shows. Changes no file.
    fn read(&mut self, alloc: Global, name: &Text, most: u64) -> Result<Bytes, ReadStop>
        requires { most < 2 ^ 63 }
        ensures bytes { IfSome (files self.old) (λ files. Reads files name.now most result) }
        ensures files { files self.new ≡ files self.old }
        ensures cause { HasCause (read_faults self.old) (read_faults self.new) (IsErrOf result ReadStop.Failed) }
        ensures others { write_faults self.new ≡ write_faults self.old };

    /// Whether there is a file of this name. Changes no file.
    fn has(&mut self, name: &Text) -> Result<bool, Failed>
        ensures there { IfOk result (λ there. IfSome (files self.old) (λ files. there ≡ contains_key files name.now)) }
        ensures files { files self.new ≡ files self.old }
        ensures cause { HasCause (read_faults self.old) (read_faults self.new) (IsErr result) }
        ensures others { write_faults self.new ≡ write_faults self.old };

    /// Puts the bytes in the place of what the file held, or makes the file. After a refusal the file is as it was, or
    /// holds a prefix of the bytes. All other files stay.
    fn write(&mut self, alloc: Global, name: &Text, bytes: &Bytes) -> Result<(), WriteStop>
        ensures ok { OnOk result (files self.new ≡ option_map (λ files. with_file files name.now bytes.now) (files self.old)) }
        ensures err { OnErr result (IfSome (files self.old) (λ old. LeavesPart old name.now bytes.now (files self.new))) }
        ensures cause { HasCause (write_faults self.old) (write_faults self.new) (IsErrOf result WriteStop.Failed) }
        ensures others { read_faults self.new ≡ read_faults self.old };
}

impl From<OutOfMemory> for ReadStop {
    ghost use Rattle.ds2_outside.specs.declared.store.ReadStop.TheVariants.{OutOfMemory};

    ghost from_gives = { λ _ e. e ≡ OutOfMemory };

    fn from(_: OutOfMemory) -> Self {
        ReadStop::OutOfMemory
    }
}

impl From<OutOfMemory> for WriteStop {
    ghost use Rattle.ds2_outside.specs.declared.store.WriteStop.TheVariants.{OutOfMemory};

    ghost from_gives = { λ _ e. e ≡ OutOfMemory };

    fn from(_: OutOfMemory) -> Self {
        WriteStop::OutOfMemory
    }
}
