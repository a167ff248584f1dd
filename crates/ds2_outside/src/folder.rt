//! The files of the current folder: an edge that is trusted, and tells nothing of what they hold.
ghost use Rattle.std.specs.Prelude.{◌≡◌, ◌+◌, ◌^◌, ◌<◌, take, IfOk, IfSome};

use crate::replacing::{Placing, is_there, replace_file};
use crate::{Failed, ReadStop, Store, WriteStop};
use ds2_base::{Bytes, List, OutOfMemory, Text};
use std::alloc::Global;
use std::fs::{Metadata, OpenFile};
use std::io::{ErrorKind, Read};
use std::rt::Files;
use std::{fs, io};

/// The files of the current folder. A file is written beside the one of its name and then takes its place; where the store was
/// asked for the name and nothing had it, only if nothing has it still. Where there was no memory to remember such a name, the
/// writes of names that are not remembered find none either.
#[derive(Drop)]
pub struct FolderStore<'r, R: Files> {
    rt: &'r R,
    // The names that nothing had when they were asked for, but for those written since.
    absent: Vec<Text>,
    // Whether there was no memory for one more of them.
    has_forgotten: bool,
    read_faults: u64,
    write_faults: u64,
}

impl<'r, R: Files + AllocGlobal> FolderStore<'r, R> {
    /// The folder in which the program runs, with no fault counted. Takes no memory.
    pub fn here(rt: &'r R) -> Self
        ensures reads { result.read_faults ≡ 0 }
        ensures writes { result.write_faults ≡ 0 }
    {
        FolderStore {
            rt,
            absent: Vec::new(rt.alloc()),
            has_forgotten: false,
            read_faults: 0,
            write_faults: 0,
        }
    }

    // How a file of this name is put in its place; none where it may be of those that were forgotten.
    fn placing(&self, name: &Text) -> Option<Placing> {
        if self.absent.iter().any(|other| *other == *name) {
            Some(Placing::IfAbsent)
        } else if self.has_forgotten {
            None
        } else {
            Some(Placing::Replacing)
        }
    }
}

// Notes that nothing has this name.
fn note_absent(alloc: Global, absent: &mut Vec<Text>, name: &Text) -> Result<(), OutOfMemory> {
    absent.push(name.copy(alloc)?)?;
    Ok(())
}

// Why a file gave no bytes, or not all of them, once it was there.
fn read_stop(error: io::Error) -> ReadStop {
    match error.kind() {
        ErrorKind::OutOfMemory => ReadStop::OutOfMemory,
        _ => ReadStop::Failed,
    }
}

// Why a file was not written.
fn write_stop(error: io::Error) -> WriteStop {
    match error.kind() {
        ErrorKind::OutOfMemory => WriteStop::OutOfMemory,
        _ => WriteStop::Failed,
    }
}

// Refuses what is no file with bytes of its own: a folder, a pipe, a device.
fn require_file(metadata: Metadata) -> io::Result<()> {
    if metadata.is_file() {
        Ok(())
    } else {
        Err(io::Error::from(ErrorKind::InvalidInput))
    }
}

// Opens a file to be read. The opening of a pipe would wait for a writer, so it is asked before what has the name.
fn open_file<R: Files>(rt: &R, name: &str) -> io::Result<R::File> {
    require_file(fs::metadata(rt, name)?)?;
    let file = fs::open(rt, name)?;
    require_file(file.metadata()?)?;
    Ok(file)
}

// The first bytes of a reader, at most one more than `most`; no more are asked of it.
fn read_first<F: Read + Drop>(alloc: Global, file: F, most: u64) -> Result<Bytes, ReadStop>
    requires { most < 2 ^ 63 }
    ensures { IfOk result (λ bytes. IfSome (F.remaining file) (λ all. bytes ≡ take (most + 1) all)) }
{
    let mut bytes = Vec::new(alloc);
    match file.take(most + 1).read_to_end(&mut bytes) {
        Ok(_) => Ok(List::of(bytes)),
        Err(error) => Err(read_stop(error)),
    }
}

impl<'r, R: Files + AllocGlobal> Store for FolderStore<'r, R> {
    ghost use Rattle.std.specs.Prelude.{None};

    ghost files = { λ s. None };

    ghost read_faults = { λ s. s.read_faults };

    ghost write_faults = { λ s. s.write_faults };

    fn read(&mut self, alloc: Global, name: &Text, most: u64) -> Result<Bytes, ReadStop> {
        let answer = match open_file(self.rt, name.as_str()) {
            Ok(file) => read_first(alloc, file, most),
            Err(error) if error.kind() == ErrorKind::NotFound => Err(ReadStop::Absent),
            Err(error) => Err(read_stop(error)),
        };
        if let Err(ReadStop::Failed) = &answer {
            self.read_faults = self.read_faults.saturating_add(1);
        }
        answer
    }

    fn has(&mut self, name: &Text) -> Result<bool, Failed> {
        match is_there(self.rt, name.as_str()) {
            Ok(there) => {
                if !there && note_absent(self.rt.alloc(), &mut self.absent, name).is_err() {
                    self.has_forgotten = true;
                }
                Ok(there)
            }
            Err(_) => {
                self.read_faults = self.read_faults.saturating_add(1);
                Err(Failed)
            }
        }
    }

    fn write(&mut self, alloc: Global, name: &Text, bytes: &Bytes) -> Result<(), WriteStop> {
        let Some(placing) = self.placing(name) else {
            return Err(WriteStop::OutOfMemory);
        };
        match replace_file(self.rt, alloc, name.as_str(), bytes.as_slice(), placing) {
            Ok(()) => {
                self.absent.retain(|other| *other != *name);
                Ok(())
            }
            Err(error) => {
                self.write_faults = self.write_faults.saturating_add(1);
                Err(write_stop(error))
            }
        }
    }
}
