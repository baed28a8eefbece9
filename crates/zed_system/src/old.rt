//! Whether the old file is kept when a command writes another one in its place.
ghost use Rattle.std.specs.Prelude.{◌≡◌, ◌↔◌, IfOk, false};
ghost use Rattle.zed_system.specs.Loss.{MayGo, begins_as_edits};

use crate::reading::{Stop, read_whole};
use crate::{FoundFile, held, is_lost};
use std::alloc::{AllocError, Global};
use std::fs::{self, File};
use std::io::{self, ErrorKind, Read};

/// The first bytes of an edit file.
const EDITS: [u8; 3] = *b"ZED";

/// An old file that is held until another one is in its place.
#[derive(Drop)]
pub(crate) struct OldFile {
    pub(crate) file: File,
    /// Whether something would be lost with it.
    pub(crate) is_kept: bool,
}

// Whether a file that was just opened begins as edit files do.
fn begins_as_edits(file: &mut File) -> io::Result<bool> {
    let mut front = [0u8; 3];
    match file.read_exact(&mut front) {
        Ok(()) => Ok(front == EDITS),
        // a shorter one
        Err(error) if error.kind() == ErrorKind::UnexpectedEof => Ok(false),
        Err(error) => Err(error),
    }
}

// Whether a name leads to a file.
fn is_file(rt: &HostRuntime, name: &str) -> io::Result<bool> {
    match fs::metadata(rt, name) {
        Ok(there) => Ok(there.is_file()),
        Err(error) if error.kind() == ErrorKind::NotFound => Ok(false),
        Err(error) => Err(error),
    }
}

// Whether the file of a name is a drawing: the base from which it was drawn lies beside it.
fn is_drawing(rt: &HostRuntime, base: Option<&str>) -> io::Result<bool> {
    let Some(base) = base else {
        return Ok(false);
    };
    match is_file(rt, base) {
        // no base has a name that is too long
        Err(error) if error.kind() == ErrorKind::InvalidFilename => Ok(false),
        told => told,
    }
}

// Whether these bytes begin as edit files do.
fn are_edits(bytes: &[u8]) -> bool
    ensures { result ≡ begins_as_edits bytes.now }
{
    bytes.starts_with(&EDITS)
}

// Whether something is lost where the new bytes take the place of the old ones: an edit, or a drawing.
fn loses(alloc: Global, old: &[u8], new: &[u8], is_drawing: bool) -> Result<bool, AllocError>
    ensures { IfOk result (λ lost. (lost ≡ false) ↔ MayGo is_drawing new.now old.now) }
{
    if old == new {
        return Ok(false);
    }
    if are_edits(old) {
        is_lost(alloc, old, new)
    } else {
        Ok(is_drawing)
    }
}

// The same. If memory is refused for the answer, it counts as lost.
fn is_loss(alloc: Global, old: &[u8], new: &[u8], is_drawing: bool) -> bool
    ensures { result ≡ false → MayGo is_drawing new.now old.now }
{
    match loses(alloc, old, new, is_drawing) {
        Ok(lost) => lost,
        Err(_) => true,
    }
}

// The same for a file, which is read to its end. One that is too long to be read, or for which memory is refused, counts as lost.
fn is_file_lost(
    rt: &HostRuntime,
    file: &mut File,
    new: &[u8],
    is_drawing: bool,
) -> io::Result<bool> {
    match read_whole(rt.alloc(), file) {
        Ok(old) => Ok(is_loss(rt.alloc(), &old, new, is_drawing)),
        Err(Stop::Device(error)) if error.kind() != ErrorKind::FileTooLarge => Err(error),
        Err(_) => Ok(true),
    }
}

/// The file that new bytes are to replace, held, so that nobody else replaces it before. Only an
/// edit file or a drawing is looked at and held. A file is a drawing if that of `base` is there.
///
/// # Errors
/// A device failed, or the file can't be read or locked.
pub(crate) fn old_file(
    rt: &HostRuntime,
    name: &str,
    found: &FoundFile,
    base: Option<&str>,
    new: &[u8],
) -> io::Result<Option<OldFile>> {
    if !is_file(rt, name)? {
        return Ok(None);
    }
    let is_drawing = is_drawing(rt, base)?;
    if !is_drawing && !begins_as_edits(&mut fs::open(rt, name)?)? {
        return Ok(None);
    }
    let mut file = held(rt, name, found)?;
    let is_kept = is_file_lost(rt, &mut file, new, is_drawing)?;
    Ok(Some(OldFile { file, is_kept }))
}
