//! A line of words over the files of the current folder and standard output. [`run`] promises nothing of what files hold,
//! as [`FolderStore`] and [`StdSink`] don't.

use ds2_base::{OutOfMemory, Text};
use ds2_outside::{FolderStore, NoGate, StdSink};
use ds2_top::{Status, ds2};
use std::env;
use std::io::ErrorKind;
use std::rt::{Env, Files};
use std::sync::Wait;
use std::thread::Threads;

// The words after the program's name. Words that can't be read as text are a faulty command line,
// and none is handed on.
fn words(rt: &(impl Env + AllocGlobal)) -> Result<Vec<Text>, OutOfMemory> {
    let alloc = rt.alloc();
    let mut words = Vec::new(alloc);
    let all = match env::args(rt) {
        Ok(all) => all,
        Err(error) if error.kind() == ErrorKind::OutOfMemory => return Err(OutOfMemory),
        Err(_) => return Ok(words),
    };
    for word in all.skip(1) {
        words.push(Text::from_string(alloc, word)?)?;
    }
    Ok(words)
}

/// Does what the words of the command line say, and tells how it has ended. Without memory for the words nothing is done
/// and nothing printed.
pub fn run(rt: &(impl Env + AllocGlobal + Files + Print + Threads + Wait + Sync)) -> Status {
    match words(rt) {
        Err(OutOfMemory) => Status::Memory,
        Ok(words) => {
            let mut store = FolderStore::here(rt);
            let mut log = StdSink::new(rt);
            ds2(
                rt,
                rt.alloc(),
                words.as_slice(),
                &mut store,
                &mut log,
                &NoGate,
            )
        }
    }
}
