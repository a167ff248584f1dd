//! Files in memory.
ghost use Rattle.std.specs.Prelude.{◌≡◌, ◌+◌, ◌^◌, ◌<◌, take, false, IfOk, IfSome, IsErr, IsErrOf, OnOk, OnErr, is_err, option_copied, option_map};
ghost use Rattle.std.specs.Ordering.{nat_cmp};
ghost use Rattle.std.specs.Cmp.Lexicographic.{slice_cmp};
ghost use Rattle.std.specs.FinMap.{contains_key, find};
ghost use Rattle.ds2_outside.specs.Causes.{HasCause};
ghost use Rattle.ds2_outside.specs.Files.{LeavesPart, Reads, file, has_read_failed, with_file};
ghost use Rattle.ds2_outside.specs.Written.{has_write_failed};

use crate::{Failed, ReadStop, Store, WriteStop};
use ds2_base::{Bytes, List, OutOfMemory, Text};
use std::alloc::Global;
use std::marker::Model;

/// Files in memory, of which no call fails. A contract sees the bytes of each name.
#[derive(Drop)]
pub struct MemFiles {
    // The newest first; an older one of the same name counts no more.
    files: Vec<(Text, Bytes)>,
}

impl Model for MemFiles {
    ghost use Rattle.std.specs.Coded.{coded_ℕ, coded_list};
    ghost use Rattle.std.specs.FinMap.{code, from_entries};
    ghost use Rattle.ds2_outside.specs.Files.{Files};

    ghost Value = { Files };

    ghost coded = { code (coded_list coded_ℕ) (coded_list coded_ℕ) };

    ghost view = { λ s. from_entries s.files.items };
}

fn find_file<'a>(files: &'a [(Text, Bytes)], name: &Text) -> Option<&'a Bytes>
    ensures { option_copied result ≡ find (slice_cmp nat_cmp) name.now files.now }
{
    for (other, bytes) in files {
        if name.as_str().cmp(other.as_str()).is_eq() {
            return Some(bytes);
        }
    }
    None
}

impl MemFiles {
    ghost use Rattle.std.specs.FinMap.{empty};

    /// No files. Takes no memory.
    pub fn new(alloc: Global) -> Self
        ensures { result ≡ empty }
    {
        MemFiles {
            files: Vec::new(alloc),
        }
    }

    /// The bytes of a file; None exactly where there is none of that name.
    pub fn file(&self, name: &Text) -> Option<&Bytes>
        ensures { option_copied result ≡ file self.now name.now }
    {
        find_file(&self.files, name)
    }

    /// Puts a file in the place of one of its name. After a refusal the files are as they were.
    pub fn put(&mut self, alloc: Global, name: &Text, bytes: Bytes) -> Result<(), OutOfMemory>
        ensures ok { OnOk result (self.new ≡ with_file self.old name.now bytes) }
        ensures err { OnErr result (self.new ≡ self.old) }
    {
        let name = name.copy(alloc)?;
        self.files.insert(0, (name, bytes))?;
        Ok(())
    }
}

/// The first bytes, so many or all.
pub(crate) fn first(alloc: Global, bytes: &Bytes, count: u64) -> Result<Bytes, OutOfMemory>
    ensures { IfOk result (λ first. first ≡ take count bytes.now) }
{
    let bytes = bytes.as_slice();
    let count = bytes.len().min(count as usize);
    List::from_slice(alloc, &bytes[..count])
}

impl Store for MemFiles {
    ghost use Rattle.std.specs.Prelude.{Some};

    ghost files = { λ s. Some s };

    ghost read_faults = { λ s. 0 };

    ghost write_faults = { λ s. 0 };

    fn read(&mut self, alloc: Global, name: &Text, most: u64) -> Result<Bytes, ReadStop>
        requires { most < 2 ^ 63 }
        ensures bytes { Reads self.old name.now most result }
        ensures failed { has_read_failed result ≡ false }
        ensures after { self.new ≡ self.old }
    {
        let Some(bytes) = self.file(name) else {
            return Err(ReadStop::Absent);
        };
        Ok(first(alloc, bytes, most + 1)?)
    }

    fn has(&mut self, name: &Text) -> Result<bool, Failed>
        ensures there { result ≡ Ok (contains_key self.old name.now) }
        ensures after { self.new ≡ self.old }
    {
        Ok(self.file(name).is_some())
    }

    fn write(&mut self, alloc: Global, name: &Text, bytes: &Bytes) -> Result<(), WriteStop>
        ensures ok { OnOk result (self.new ≡ with_file self.old name.now bytes.now) }
        ensures err { OnErr result (self.new ≡ self.old) }
        ensures failed { has_write_failed result ≡ false }
    {
        let bytes = bytes.copy(alloc)?;
        self.put(alloc, name, bytes)?;
        Ok(())
    }
}
