//! Reading a file that will be replaced, so that no other command replaces it in between.

use crate::named::{FoundFile, LOOKS, is_at};
use std::fs::{self, File, OpenOptions};
use std::io::{self, ErrorKind};
use std::os::fd::AsRawFd;

/// The greatest number of a standard stream.
const STANDARD: i32 = 2;

// Opens a file, to be written too where that is allowed: in network folders only such a one is locked. Where a standard stream is closed
// the system gives its number away; then a file that can be written would take the stream's lines.
fn open_file(rt: &HostRuntime, name: &str) -> io::Result<File> {
    match OpenOptions::new().read(true).write(true).open(rt, name) {
        Ok(file) if file.as_raw_fd() > STANDARD => Ok(file),
        Ok(_) => fs::open(rt, name),
        Err(error) if error.kind() == ErrorKind::PermissionDenied => fs::open(rt, name),
        Err(error) if error.kind() == ErrorKind::ReadOnlyFilesystem => fs::open(rt, name),
        Err(error) => Err(error),
    }
}

// Opens a file and waits for its lock. Nothing where it was replaced in the meantime: then the lock is of a file that is gone.
fn open_held(rt: &HostRuntime, name: &str, found: &FoundFile) -> io::Result<Option<File>> {
    if !fs::metadata(rt, name)?.is_file() {
        return Ok(Some(fs::open(rt, name)?));
    }
    let file = open_file(rt, name)?;
    file.lock()?;
    if is_at(rt, &file, found.path())? {
        Ok(Some(file))
    } else {
        Ok(None)
    }
}

/// Opens the file of a name that leads to a place, and holds its lock as long as it is open. A pipe
/// or a terminal has no lock.
///
/// # Errors
/// A device failed, there is no such file, or it can't be read or locked.
pub fn held(rt: &HostRuntime, name: &str, found: &FoundFile) -> io::Result<File> {
    for _ in 0..LOOKS {
        if let Some(file) = open_held(rt, name, found)? {
            return Ok(file);
        }
    }
    Err(io::Error::from(ErrorKind::ResourceBusy))
}

/// Checks that a held file still has its name.
///
/// # Errors
/// Another file has that name, or a device failed.
pub fn stands(rt: &HostRuntime, file: &File, found: &FoundFile) -> io::Result<()> {
    if !file.metadata()?.is_file() || is_at(rt, file, found.path())? {
        return Ok(());
    }
    Err(io::Error::from(ErrorKind::NotFound))
}
