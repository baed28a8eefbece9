//! Why a file can't be read or written, where the system's own error doesn't say it.
ghost use Rattle.std.specs.Prelude.{◌≡◌};
ghost use Rattle.std.specs.IoError.{error_kind};

use std::fs;
use std::io::{self, ErrorKind};

/// A file that has more bytes than are read.
pub(crate) fn too_long() -> io::Error
    ensures { error_kind result ≡ ErrorKind.FileTooLarge }
{
    io::Error::new(ErrorKind::FileTooLarge, "it is longer than 256 MiB")
}

/// A file that didn't end after many reads.
pub(crate) fn endless() -> io::Error
    ensures { error_kind result ≡ ErrorKind.TimedOut }
{
    io::Error::new(ErrorKind::TimedOut, "it doesn't end")
}

/// A file that another word names too.
pub(crate) fn named_twice() -> io::Error
    ensures { error_kind result ≡ ErrorKind.ResourceBusy }
{
    io::Error::new(ErrorKind::ResourceBusy, "two words name the same file")
}

/// What is told of a file that doesn't stand where it was read.
pub(crate) fn of_standing(error: io::Error) -> io::Error {
    match error.kind() {
        ErrorKind::NotFound => {
            io::Error::new(ErrorKind::ResourceBusy, "it was replaced meanwhile")
        }
        _ => error,
    }
}

// The folder of the file of a name.
fn folder_of(name: &str) -> &str {
    match name.rsplit_once('/') {
        Some(("", _)) => "/",
        Some((folder, _)) => folder,
        None => ".",
    }
}

// Why the place of a name is unknown: its folder can't be listed, or a link on the way leads nowhere.
fn of_place(rt: &HostRuntime, name: &str) -> io::Error {
    if let Err(error) = fs::read_dir(rt, folder_of(name)) {
        return error;
    }
    match fs::metadata(rt, name) {
        Err(error) if error.kind() != ErrorKind::NotFound => error,
        _ => io::Error::new(
            ErrorKind::InvalidFilename,
            "its name or its folder can't be used",
        ),
    }
}

/// What is told of an error of the file of a name. If its place is unknown, this looks for the
/// cause.
pub(crate) fn of_file(rt: &HostRuntime, name: &str, error: io::Error) -> io::Error {
    match error.kind() {
        ErrorKind::Other => of_place(rt, name),
        _ => error,
    }
}
