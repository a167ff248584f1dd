//! Each call once with ample memory: over memory with chosen faults, and over a real file.
ghost use Rattle.std.specs.Prelude.{◌^◌, ◌<◌};

use ds2_base::{Bytes, List, OutOfMemory, Text};
use ds2_outside::{
    FolderStore, Gate, MemFiles, MemSink, MemStore, NoGate, ReadStop, Sink, StdSink, Store, Tear,
    WriteStop,
};
use std::alloc::Global;
use std::cell::Cell;
use std::fmt::Display;
use std::{fs, io};

fn bytes(alloc: Global, text: &str) -> Result<Bytes, OutOfMemory> {
    List::from_slice(alloc, text.as_bytes())
}

// Whether the first bytes of a file, at most one more than `most`, are the wanted ones.
fn reads<T: Store>(store: &mut T, alloc: Global, name: &Text, most: u64, want: &str) -> bool
    requires { most < 2 ^ 63 }
{
    match store.read(alloc, name, most) {
        Ok(bytes) => bytes.as_slice() == want.as_bytes(),
        Err(_) => false,
    }
}

// Calls 2, 4 and 5 of the trait are to fail.
fn store_in_memory(alloc: Global) -> Result<bool, OutOfMemory> {
    let (old, new) = (Text::of(alloc, "t.csv")?, Text::of(alloc, "u.csv")?);
    let mut store = MemStore::new(alloc);
    store.put(alloc, &old, bytes(alloc, "abc")?)?;
    store.fail_at(List::from_slice(alloc, &[1])?);
    store.fail_at(List::from_slice(alloc, &[2, 4, 5])?);
    let mut hold = reads(&mut store, alloc, &old, 1, "ab");
    hold = hold && store.read(alloc, &old, 9) == Err(ReadStop::Failed);
    hold = hold && store.has(&old) == Ok(true) && store.has(&new).is_err();
    let more = bytes(alloc, "de")?;
    hold = hold
        && store.write(alloc, &new, &more) == Err(WriteStop::Failed)
        && store.file(&new).is_none();
    hold = hold
        && store.write(alloc, &new, &more) == Ok(())
        && reads(&mut store, alloc, &new, 9, "de");
    hold = hold
        && store.write(alloc, &new, &bytes(alloc, "f")?) == Ok(())
        && reads(&mut store, alloc, &new, 0, "f");
    let absent = Text::of(alloc, "v.csv")?;
    Ok(
        hold && store.read(alloc, &absent, 9) == Err(ReadStop::Absent)
            && store.has(&absent) == Ok(false),
    )
}

// Whether a file in memory has these bytes.
fn holds(store: &MemStore, name: &Text, want: &str) -> bool {
    match store.file(name) {
        Some(bytes) => bytes.as_slice() == want.as_bytes(),
        None => false,
    }
}

// Calls 1 to 4 of the trait are torn, the first of them twice, and it is to fail besides.
fn torn_in_memory(alloc: Global) -> Result<bool, OutOfMemory> {
    let (old, new) = (Text::of(alloc, "t.csv")?, Text::of(alloc, "u.csv")?);
    let mut store = MemStore::new(alloc);
    store.put(alloc, &old, bytes(alloc, "abc")?)?;
    store.fail_at(List::from_slice(alloc, &[1])?);
    let (first, later) = (Tear { call: 1, keep: 2 }, Tear { call: 1, keep: 9 });
    let (empty, whole) = (Tear { call: 2, keep: 0 }, Tear { call: 3, keep: 9 });
    let asked = Tear { call: 4, keep: 1 };
    store.tear_at(List::from_slice(alloc, &[asked, first, later, empty, whole])?);
    let more = bytes(alloc, "xyz")?;
    let mut hold = store.write(alloc, &old, &more) == Err(WriteStop::Failed);
    hold = hold && holds(&store, &old, "xy");
    hold = hold && store.write(alloc, &new, &more) == Err(WriteStop::Failed);
    hold = hold && holds(&store, &new, "");
    hold = hold && store.write(alloc, &new, &more) == Err(WriteStop::Failed);
    hold = hold && holds(&store, &new, "xyz");
    hold = hold && store.read(alloc, &old, 9) == Err(ReadStop::Failed);
    Ok(hold && holds(&store, &old, "xy") && store.write(alloc, &old, &more) == Ok(()))
}

fn files_in_memory(alloc: Global) -> Result<bool, OutOfMemory> {
    let name = Text::of(alloc, "t.csv")?;
    let mut files = MemFiles::new(alloc);
    files.put(alloc, &name, bytes(alloc, "abc")?)?;
    let mut hold = files.has(&name) == Ok(true) && reads(&mut files, alloc, &name, 1, "ab");
    hold = hold && files.write(alloc, &name, &bytes(alloc, "d")?) == Ok(());
    Ok(hold && reads(&mut files, alloc, &name, 9, "d") && files.file(&name).is_some())
}

// The second write is to fail.
fn log_in_memory(alloc: Global) -> Result<bool, OutOfMemory> {
    let mut log = MemSink::new(alloc);
    log.fail_at(List::from_slice(alloc, &[2])?);
    let line = bytes(alloc, "a\n")?;
    let first = log.write_all(&line) == Ok(());
    let second = log.write_all(&line) == Err(WriteStop::Failed);
    let third = log.write_all(&line) == Ok(());
    Ok(first && second && third && log.written().as_slice() == "a\na\n".as_bytes())
}

// Over a file of the current folder, which the caller removes again, and over the folder itself, which is no file.
fn store_in_folder(rt: &HostRuntime, name: &str) -> Result<bool, OutOfMemory> {
    let alloc = rt.alloc();
    let mut store = FolderStore::here(rt);
    let (file, folder) = (Text::of(alloc, name)?, Text::of(alloc, ".")?);
    let mut hold = store.has(&file) == Ok(false)
        && store.read(alloc, &file, 9) == Err(ReadStop::Absent);
    hold = hold && store.write(alloc, &file, &bytes(alloc, "x,y\n1,2\n")?) == Ok(());
    hold = hold && store.has(&file) == Ok(true);
    hold = hold
        && reads(&mut store, alloc, &file, 99, "x,y\n1,2\n")
        && reads(&mut store, alloc, &file, 3, "x,y\n");
    hold = hold
        && store.write(alloc, &file, &bytes(alloc, "z")?) == Ok(())
        && reads(&mut store, alloc, &file, 0, "z");
    hold = hold && store.read(alloc, &folder, 9) == Err(ReadStop::Failed);
    Ok(hold && store.write(alloc, &folder, &bytes(alloc, "z")?) == Err(WriteStop::Failed))
}

// Over a file that another makes between the look and the write, which the caller removes again.
fn made_meanwhile(rt: &HostRuntime, name: &str) -> Result<bool, OutOfMemory> {
    let alloc = rt.alloc();
    let mut store = FolderStore::here(rt);
    let file = Text::of(alloc, name)?;
    let mut hold = store.has(&file) == Ok(false) && fs::write(rt, name, "other").is_ok();
    hold = hold && store.write(alloc, &file, &bytes(alloc, "own")?) == Err(WriteStop::Failed);
    Ok(hold && reads(&mut store, alloc, &file, 9, "other"))
}

// An output with room for so many bytes.
#[derive(Drop)]
struct Paper {
    room: Cell<usize>,
}

impl Print for Paper {
    fn print<D: Display + Drop>(&self, _value: D) -> io::Result<()> {
        Ok(())
    }

    fn println<D: Display + Drop>(&self, _value: D) -> io::Result<()> {
        Ok(())
    }

    fn write_all(&self, bytes: &[u8]) -> io::Result<()> {
        match self.room.get().checked_sub(bytes.len()) {
            Some(room) => {
                self.room.set(room);
                Ok(())
            }
            None => Err(io::Error::from(io::ErrorKind::WriteZero)),
        }
    }
}

// The output gets each byte once, and its error is a fault.
fn output_runs_full(alloc: Global) -> Result<bool, OutOfMemory> {
    let paper = Paper { room: Cell::new(5) };
    let mut log = StdSink::new(&paper);
    let fits = log.write_all(&bytes(alloc, "abcde")?) == Ok(());
    Ok(
        fits && paper.room.get() == 0
            && log.write_all(&bytes(alloc, "f")?) == Err(WriteStop::Failed),
    )
}

#[test]
fn memory_fails_at_the_chosen_calls(rt: HostRuntime) {
    NoGate.before(0, 0);
    NoGate.after(0, 0);
    let alloc = rt.alloc();
    let stores = store_in_memory(alloc) == Ok(true) && torn_in_memory(alloc) == Ok(true);
    assert!(&rt; stores && files_in_memory(alloc) == Ok(true) && log_in_memory(alloc) == Ok(true));
}

#[test]
fn a_real_file_and_standard_output(rt: HostRuntime) {
    let name = "ds2_outside_test_of_a_real_file.csv";
    let hold = store_in_folder(&rt, name) == Ok(true);
    let hold = hold && fs::remove_file(&rt, name).is_ok();
    let hold = hold && made_meanwhile(&rt, name) == Ok(true);
    let removed = fs::remove_file(&rt, name).is_ok();
    let written = match bytes(rt.alloc(), "standard output takes a line\n") {
        Ok(line) => StdSink::new(&rt).write_all(&line) == Ok(()),
        Err(OutOfMemory) => false,
    };
    assert!(&rt; hold && removed && written && output_runs_full(rt.alloc()) == Ok(true));
}
