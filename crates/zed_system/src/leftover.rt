//! What is left of a process that ended while it wrote.
ghost use Rattle.std.specs.Prelude.{◌≡◌};
ghost use Rattle.std.specs.List.{list_all};
ghost use Rattle.zed_system.specs.Names.{is_new_name, is_numeral};

use crate::named::is_at;
use std::fs::{self, OpenOptions};
use std::io::{self, ErrorKind};

/// The beginning of the name of a new file.
pub(crate) const BEGINNING: &str = ".zzted-new-";

fn is_numeral(byte: u8) -> bool
    ensures { result ≡ is_numeral byte }
{
    byte.is_ascii_digit() || byte == b'-'
}

fn are_numerals(bytes: &[u8]) -> bool
    ensures { result ≡ list_all is_numeral bytes.now }
{
    bytes.iter().all(|byte| is_numeral(*byte))
}

/// Whether a file's name is one that this program gives to new files.
pub(crate) fn is_new_name(name: &[u8]) -> bool
    ensures { result ≡ is_new_name name.now }
{
    let beginning = BEGINNING.as_bytes();
    name.starts_with(beginning) && are_numerals(&name[beginning.len()..])
}

// Removes a new file whose process is gone: while it lives, it holds the file's lock.
fn clear_one(rt: &HostRuntime, path: &str) -> io::Result<()> {
    if !fs::symlink_metadata(rt, path)?.is_file() {
        return Ok(());
    }
    let file = OpenOptions::new().write(true).open(rt, path)?;
    if file.try_lock().is_ok() && is_at(rt, &file, path)? {
        fs::remove_file(rt, path)?;
    }
    Ok(())
}

/// Removes the new files that ended processes left in a folder. One that can't be removed stays.
///
/// # Errors
/// The folder can't be listed, or memory is refused.
pub(crate) fn clear(rt: &HostRuntime, folder: &str) -> io::Result<()> {
    for entry in fs::read_dir(rt, folder)? {
        match entry {
            Ok(entry) if is_new_name(entry.file_name().as_bytes()) => {
                let _ = clear_one(rt, entry.path().as_str());
            }
            Ok(_) => {}
            // a name that is no text
            Err(error) if error.kind() == ErrorKind::InvalidFilename => {}
            Err(error) => return Err(error),
        }
    }
    Ok(())
}
