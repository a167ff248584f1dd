//! A file of the current folder that takes its name only when its bytes are on the disk: what was there before is there, whole,
//! until then.

use std::alloc::Global;
use std::fs::{OpenFile, OpenOptions, Permissions};
use std::io::{ErrorKind, Write};
use std::os::unix::fs::{OpenOptionsExt, PermissionsExt};
use std::rt::Files;
use std::{fs, io};

/// How many names a new file is tried under.
const NAMES_TRIED: u32 = 1000;

/// The permission bits of a file that replaces none, of which the system takes those away that its user never gives.
const NEW_MODE: u32 = 0o666;

/// The bits that say who may read, write and run a file.
const PERMISSION_BITS: u32 = 0o777;

/// When a new file takes a name.
#[derive(Clone, Copy, PartialEq, Eq)]
pub(crate) enum Placing {
    /// Whatever file or link has it.
    Replacing,
    /// Only where nothing has it.
    IfAbsent,
}

/// Whether something has this name, be it a link that leads nowhere.
pub(crate) fn is_there<R: Files>(rt: &R, name: &str) -> io::Result<bool> {
    match fs::symlink_metadata(rt, name) {
        Ok(_) => Ok(true),
        Err(error) if error.kind() == ErrorKind::NotFound => Ok(false),
        Err(error) => Err(error),
    }
}

// The permission bits of the file that is to be replaced; None where there is none, or a link. A folder, a pipe or a device is not
// replaced, nor is a file that may not be written to.
fn replaced_mode<R: Files>(rt: &R, name: &str) -> io::Result<Option<u32>> {
    let there = match fs::symlink_metadata(rt, name) {
        Ok(there) => there,
        Err(error) if error.kind() == ErrorKind::NotFound => return Ok(None),
        Err(error) => return Err(error),
    };
    if there.is_symlink() {
        return Ok(None);
    }
    if !there.is_file() {
        return Err(io::Error::from(ErrorKind::InvalidInput));
    }
    let _writable = OpenOptions::new().write(true).open(rt, name)?;
    Ok(Some(there.permissions().mode() & PERMISSION_BITS))
}

// A new file beside the one of this name, and its own name: `.NAME.1`, or the first number that no file has.
fn create_beside<R: Files>(
    rt: &R,
    alloc: Global,
    name: &str,
    mode: u32,
) -> io::Result<(String, R::File)> {
    for number in 1..=NAMES_TRIED {
        let new = format!(in alloc; ".{name}.{number}")?;
        let mut options = OpenOptions::new();
        options.write(true).create_new(true).mode(mode);
        match options.open(rt, new.as_str()) {
            Ok(file) => return Ok((new, file)),
            Err(error) if error.kind() == ErrorKind::AlreadyExists => {}
            Err(error) => return Err(error),
        }
    }
    Err(io::Error::from(ErrorKind::AlreadyExists))
}

// Writes the bytes and brings them to the disk. The new file gets just the permission bits of the one that it replaces.
fn fill<F: Write + OpenFile + Drop>(
    mut file: F,
    bytes: &[u8],
    mode: Option<u32>,
) -> io::Result<()> {
    file.write_all(bytes)?;
    if let Some(mode) = mode {
        file.set_permissions(Permissions::from_mode(mode))?;
    }
    file.sync_all()
}

// Whether a link was refused since the file system has none.
fn lacks_links(kind: ErrorKind) -> bool {
    matches!(kind, ErrorKind::PermissionDenied | ErrorKind::Unsupported)
}

// Gives the new file a name that nothing has. Only on a file system without links could one come between that another run makes.
fn place_if_absent<R: Files>(rt: &R, new: &str, name: &str) -> io::Result<()> {
    match fs::hard_link(rt, new, name) {
        Ok(()) => {
            let _left_over = fs::remove_file(rt, new);
            Ok(())
        }
        Err(error) if lacks_links(error.kind()) => {
            if is_there(rt, name)? {
                return Err(io::Error::from(ErrorKind::AlreadyExists));
            }
            fs::rename(rt, new, name)
        }
        Err(error) => Err(error),
    }
}

// Gives the new file the name.
fn place<R: Files>(rt: &R, new: &str, name: &str, placing: Placing) -> io::Result<()> {
    match placing {
        Placing::Replacing => fs::rename(rt, new, name),
        Placing::IfAbsent => place_if_absent(rt, new, name),
    }
}

// Brings the folder's names to the disk. A folder that may not be read, and a file system that takes no such request, have no way.
fn sync_folder<R: Files>(rt: &R) -> io::Result<()> {
    let Ok(folder) = fs::open(rt, ".") else {
        return Ok(());
    };
    match folder.sync_all() {
        Err(error)
            if matches!(
                error.kind(),
                ErrorKind::InvalidInput | ErrorKind::Unsupported
            ) => { Ok(()) }
        synced => synced,
    }
}

/// Makes the file of this name hold these bytes. A refusal leaves what was there, and no new file.
pub(crate) fn replace_file<R: Files>(
    rt: &R,
    alloc: Global,
    name: &str,
    bytes: &[u8],
    placing: Placing,
) -> io::Result<()> {
    let mode = replaced_mode(rt, name)?;
    let (new, file) = create_beside(rt, alloc, name, mode.unwrap_or(NEW_MODE))?;
    let placed = match fill(file, bytes, mode) {
        Ok(()) => place(rt, new.as_str(), name, placing),
        refused => refused,
    };
    if placed.is_err() {
        let _left_over = fs::remove_file(rt, new.as_str());
    }
    placed?;
    sync_folder(rt)
}
