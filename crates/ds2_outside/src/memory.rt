//! A store in memory, which fails at chosen calls.
ghost use Rattle.std.specs.Prelude.{◌≡◌, ◌+◌, ◌^◌, ◌<◌, take, IfOk, IfSome, IsErr, IsErrOf, OnOk, OnErr, is_err, option_copied, option_map};
ghost use Rattle.std.specs.FinMap.{contains_key};
ghost use Rattle.ds2_outside.specs.Causes.{HasCause};
ghost use Rattle.ds2_outside.specs.Files.{LeavesPart, Reads, file, has_read_failed, with_file};
ghost use Rattle.ds2_outside.specs.Memory.{after_read, after_write, counted, fails, keeps, write_fails};
ghost use Rattle.ds2_outside.specs.Written.{has_write_failed};

use crate::calls::Calls;
use crate::memory_files::first;
use crate::tear::kept_at;
use crate::{Failed, MemFiles, ReadStop, Store, Tear, WriteStop};
use ds2_base::{Bytes, List, OutOfMemory, Text};
use std::alloc::Global;
use std::marker::Model;

/// A store in memory. A contract sees its files, the calls made, those that fail and those that are torn, and the two counts
/// of faults.
#[derive(Drop)]
pub struct MemStore {
    files: MemFiles,
    calls: Calls,
    tears: List<Tear>,
    read_faults: u64,
    write_faults: u64,
}

impl Model for MemStore {
    ghost use Rattle.ds2_outside.specs.Memory.{Memory, memory_code};

    ghost Value = { Memory };

    ghost coded = { memory_code };

    ghost view = { λ s. record { files = s.files; calls = s.calls.made; failing = s.calls.failing; tears = s.tears; read_faults = s.read_faults; write_faults = s.write_faults } };
}

impl MemStore {
    ghost use Rattle.std.specs.Prelude.{[]};
    ghost use Rattle.std.specs.FinMap.{empty};

    /// A store without files, of which no call fails. Takes no memory.
    pub fn new(alloc: Global) -> Self
        ensures { result ≡ record { files = empty; calls = 0; failing = []; tears = []; read_faults = 0; write_faults = 0 } }
    {
        MemStore {
            files: MemFiles::new(alloc),
            calls: Calls::new(alloc),
            tears: List::new(alloc),
            read_faults: 0,
            write_faults: 0,
        }
    }

    /// The bytes of a file; None exactly where there is none of that name.
    pub fn file(&self, name: &Text) -> Option<&Bytes>
        ensures { option_copied result ≡ file self.now.files name.now }
    {
        self.files.file(name)
    }

    /// Puts a file into the store, in the place of one of its name. It is no call of the trait, and is not counted. After a
    /// refusal the store is as it was.
    pub fn put(&mut self, alloc: Global, name: &Text, bytes: Bytes) -> Result<(), OutOfMemory>
        ensures ok { OnOk result (self.new ≡ record self.old { files = with_file self.old.files name.now bytes }) }
        ensures err { OnErr result (self.new ≡ self.old) }
    {
        self.files.put(alloc, name, bytes)
    }

    /// From here on the calls of the trait with these numbers fail, counted from 1. Takes the place of an earlier list, and
    /// leaves the tears.
    pub fn fail_at(&mut self, calls: List<u64>)
        ensures { self.new ≡ record self.old { failing = calls } }
    {
        self.calls.failing = calls;
    }

    /// From here on the calls of the trait with the numbers of these tears fail, counted from 1, and a write leaves the first
    /// bytes; of two tears of one number the first counts. Takes the place of an earlier list, and leaves that of `fail_at`.
    pub fn tear_at(&mut self, tears: List<Tear>)
        ensures { self.new ≡ record self.old { tears = tears } }
    {
        self.tears = tears;
    }

    // Counts a call, and says whether it is to fail.
    fn next_fails(&mut self) -> bool
        ensures counts { self.new ≡ counted self.old }
        ensures fails { result ≡ fails self.old }
    {
        let is_listed = self.calls.next_fails();
        is_listed || kept_at(self.tears.as_slice(), self.calls.made).is_some()
    }
}

impl Store for MemStore {
    ghost use Rattle.std.specs.Prelude.{Some};

    ghost files = { λ s. Some s.files };

    ghost read_faults = { λ s. s.read_faults };

    ghost write_faults = { λ s. s.write_faults };

    fn read(&mut self, alloc: Global, name: &Text, most: u64) -> Result<Bytes, ReadStop>
        requires { most < 2 ^ 63 }
        ensures bytes { Reads self.old.files name.now most result }
        ensures failed { has_read_failed result ≡ fails self.old }
        ensures after { self.new ≡ after_read self.old }
        ensures cause { HasCause self.old.read_faults self.new.read_faults (IsErrOf result ReadStop.Failed) }
    {
        if self.next_fails() {
            self.read_faults = self.read_faults.saturating_add(1);
            return Err(ReadStop::Failed);
        }
        self.files.read(alloc, name, most)
    }

    fn has(&mut self, name: &Text) -> Result<bool, Failed>
        ensures there { IfOk result (λ there. there ≡ contains_key self.old.files name.now) }
        ensures failed { is_err result ≡ fails self.old }
        ensures after { self.new ≡ after_read self.old }
        ensures cause { HasCause self.old.read_faults self.new.read_faults (IsErr result) }
    {
        if self.next_fails() {
            self.read_faults = self.read_faults.saturating_add(1);
            return Err(Failed);
        }
        self.files.has(name)
    }

    fn write(&mut self, alloc: Global, name: &Text, bytes: &Bytes) -> Result<(), WriteStop>
        ensures failed { has_write_failed result ≡ write_fails self.old result }
        ensures after { self.new ≡ after_write self.old name.now bytes.now result }
        ensures cause { HasCause self.old.write_faults self.new.write_faults (IsErrOf result WriteStop.Failed) }
    {
        let is_listed = self.calls.next_fails();
        match kept_at(self.tears.as_slice(), self.calls.made) {
            Some(keep) => {
                self.files.put(alloc, name, first(alloc, bytes, keep)?)?;
            }
            None if is_listed => {}
            None => return self.files.write(alloc, name, bytes),
        }
        self.write_faults = self.write_faults.saturating_add(1);
        Err(WriteStop::Failed)
    }
}
