//! A store that notes the calls made of it.

use ds2_base::{Bytes, OutOfMemory, Text};
use ds2_outside::{Failed, ReadStop, Store, WriteStop};
use std::alloc::Global;

/// What a call asks of a store.
#[derive(Clone, Copy, PartialEq, Eq)]
pub(crate) enum Asked {
    Read,
    Has,
    Write,
}

/// A call of a store and the name of the file that it speaks of.
#[derive(Drop)]
pub(crate) struct Call {
    pub(crate) asked: Asked,
    pub(crate) name: Text,
}

/// A store that notes the calls made of it and hands each on.
#[derive(Drop)]
pub(crate) struct Watched<S: Store + Drop> {
    pub(crate) store: S,
    pub(crate) calls: Vec<Call>,
    /// Whether a call could not be noted for want of memory.
    pub(crate) lacks_calls: bool,
    alloc: Global,
}

impl<S: Store + Drop> Watched<S> {
    pub(crate) fn new(alloc: Global, store: S) -> Watched<S> {
        Watched {
            store,
            calls: Vec::new(alloc),
            lacks_calls: false,
            alloc,
        }
    }
}

// Notes a call.
fn add_call(
    alloc: Global,
    calls: &mut Vec<Call>,
    asked: Asked,
    name: &Text,
) -> Result<(), OutOfMemory> {
    let name = name.copy(alloc)?;
    calls.push(Call { asked, name })?;
    Ok(())
}

impl<S: Store + Drop> Store for Watched<S> {
    ghost files = { λ s. S.files s.store };

    ghost read_faults = { λ s. S.read_faults s.store };

    ghost write_faults = { λ s. S.write_faults s.store };

    fn read(&mut self, alloc: Global, name: &Text, most: u64) -> Result<Bytes, ReadStop> {
        if add_call(alloc, &mut self.calls, Asked::Read, name).is_err() {
            self.lacks_calls = true;
        }
        self.store.read(alloc, name, most)
    }

    fn has(&mut self, name: &Text) -> Result<bool, Failed> {
        if add_call(self.alloc, &mut self.calls, Asked::Has, name).is_err() {
            self.lacks_calls = true;
        }
        self.store.has(name)
    }

    fn write(&mut self, alloc: Global, name: &Text, bytes: &Bytes) -> Result<(), WriteStop> {
        if add_call(alloc, &mut self.calls, Asked::Write, name).is_err() {
            self.lacks_calls = true;
        }
        self.store.write(alloc, name, bytes)
    }
}
