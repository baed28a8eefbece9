//! Writing a file of a real folder.
ghost use Rattle.std.specs.Prelude.{◌≡◌, ◌||◌, None, is_err};

use crate::folder::{Folder, Old, replace};
use crate::keeping::{KeptName, keep};
use crate::named::{FoundFile, is_at};
use crate::same::has_already;
use std::fs::{self, File, Metadata, OpenOptions, Permissions};
use std::io::{self, ErrorKind, Write};
use std::os::unix::fs::{MetadataExt, OpenOptionsExt, PermissionsExt, fchown};

/// Between its making and its lock, others may take a new file for a leftover. Then it is made
/// anew, at most so many times.
const TRIES: u32 = 1024;

/// The bits of a mode that are permissions.
const PERMISSIONS: u32 = 0o7777;

/// Those of its group.
const GROUP: u32 = 0o070;

/// The permissions of a new file before it has those of the old one: nobody else reads it.
pub(crate) const OWN: u32 = 0o600;

/// The permissions of a new file if there is no old one.
const COMMON: u32 = 0o666;

/// An old file that is to be kept, and its name then.
#[derive(Drop)]
struct Keeping<'a> {
    old: &'a mut File,
    name: &'a mut KeptName,
}

/// A real folder. It doesn't say what it holds, only whether a step of it failed.
#[derive(Drop)]
struct RealFolder<'a> {
    rt: &'a HostRuntime,
    found: &'a FoundFile,
    old: Option<Metadata>,
    keeping: Option<Keeping<'a>>,
    folder: File,
    fresh: Option<File>,
    has_failed: bool,
}

// Opens a new file and takes its lock, which tells others that its process lives. Nothing where another took the file away before.
fn open_fresh(rt: &HostRuntime, path: &str, mode: u32) -> io::Result<Option<File>> {
    let mut how = OpenOptions::new();
    how.write(true).create_new(true).mode(mode);
    let file = how.open(rt, path)?;
    match hold(rt, path, &file) {
        Ok(true) => Ok(Some(file)),
        Ok(false) => Ok(None),
        Err(error) => {
            let _ = fs::remove_file(rt, path);
            Err(error)
        }
    }
}

// Takes the lock of a new file, and tells whether the file is still there.
fn hold(rt: &HostRuntime, path: &str, file: &File) -> io::Result<bool> {
    file.lock()?;
    is_at(rt, file, path)
}

/// Makes a new file, which this process alone has.
pub(crate) fn make_fresh(rt: &HostRuntime, path: &str, mode: u32) -> io::Result<File> {
    for _ in 0..TRIES {
        if let Some(file) = open_fresh(rt, path, mode)? {
            return Ok(file);
        }
    }
    Err(io::Error::from(ErrorKind::ResourceBusy))
}

// Gives a new file the owner and the group of the old one, where the system lets it, or the group alone. Tells whether it has the group.
fn takes_group(file: &File, old: &Metadata) -> bool {
    fchown(file, Some(old.uid()), Some(old.gid())).is_ok()
        || fchown(file, None, Some(old.gid())).is_ok()
}

/// Gives a new file the owner and the permissions of the old one. If the group can't be kept, the
/// author's own group doesn't get its permissions.
pub(crate) fn liken(file: &File, old: &Metadata) -> io::Result<()> {
    let made = file.metadata()?;
    let is_owned = made.uid() == old.uid() && made.gid() == old.gid();
    let mode = if is_owned || takes_group(file, old) {
        old.mode() & PERMISSIONS
    } else {
        old.mode() & PERMISSIONS & !GROUP
    };
    if made.mode() & PERMISSIONS == mode {
        return Ok(());
    }
    file.set_permissions(Permissions::from_mode(mode))
}

fn missing() -> io::Error {
    io::Error::from(ErrorKind::NotFound)
}

// Keeps in mind whether a step failed.
fn note(has_failed: &mut bool, step: &io::Result<()>)
    ensures { has_failed.new ≡ (is_err step.now || has_failed.old) }
{
    if step.is_err() {
        *has_failed = true;
    }
}

// Gives a new file its bytes, and what it is to have of the old one.
fn fill_fresh(fresh: &mut Option<File>, old: &Option<Metadata>, bytes: &[u8]) -> io::Result<()> {
    let Some(file) = fresh else {
        return Err(missing());
    };
    if let Some(old) = old {
        liken(file, old)?;
    }
    file.write_all(bytes)
}

fn sync_fresh(fresh: &Option<File>) -> io::Result<()> {
    match fresh {
        Some(file) => file.sync_all(),
        None => Err(missing()),
    }
}

fn sync_folder(folder: &File) -> io::Result<()> {
    match folder.sync_all() {
        // a file system that can't bring a folder by itself onto its disk
        Err(error) if error.kind() == ErrorKind::InvalidInput => Ok(()),
        synced => synced,
    }
}

// Keeps the file in a place, and brings that onto the disk: after a stop of the machine nobody finds the new file without it.
fn keep_in(
    rt: &HostRuntime,
    found: &FoundFile,
    keeping: &mut Option<Keeping<'_>>,
    folder: &File,
) -> io::Result<()> {
    let Some(keeping) = keeping else {
        return Err(missing());
    };
    keep(rt, found, keeping.name, keeping.old)?;
    sync_folder(folder)
}

impl Folder for RealFolder<'_> {
    ghost told = { λ _. None };

    ghost steps = { λ _. None };

    ghost has_failed = { λ folder. folder.has_failed };

    fn create(&mut self) -> io::Result<()> {
        let mode = if self.old.is_some() { OWN } else { COMMON };
        match make_fresh(self.rt, self.found.fresh(), mode) {
            Ok(file) => {
                self.fresh = Some(file);
                Ok(())
            }
            Err(error) => {
                self.has_failed = true;
                Err(error)
            }
        }
    }

    fn fill(&mut self, bytes: &[u8]) -> io::Result<()> {
        let filled = fill_fresh(&mut self.fresh, &self.old, bytes);
        note(&mut self.has_failed, &filled);
        filled
    }

    fn sync(&mut self) -> io::Result<()> {
        let synced = sync_fresh(&self.fresh);
        note(&mut self.has_failed, &synced);
        synced
    }

    fn keep(&mut self) -> io::Result<()> {
        let kept = keep_in(self.rt, self.found, &mut self.keeping, &self.folder);
        note(&mut self.has_failed, &kept);
        kept
    }

    fn rename(&mut self) -> io::Result<()> {
        let renamed = fs::rename(self.rt, self.found.fresh(), self.found.path());
        note(&mut self.has_failed, &renamed);
        renamed
    }

    fn remove(&mut self) {
        if self.fresh.is_some() {
            let _ = fs::remove_file(self.rt, self.found.fresh());
        }
    }

    fn sync_place(&mut self) -> io::Result<()> {
        let synced = sync_folder(&self.folder);
        note(&mut self.has_failed, &synced);
        synced
    }
}

// What stands in a place, if it can be written; nothing where there is no file.
fn opened(rt: &HostRuntime, name: &str) -> io::Result<Option<File>> {
    match OpenOptions::new().write(true).open(rt, name) {
        Ok(file) => Ok(Some(file)),
        Err(error) if error.kind() == ErrorKind::NotFound => Ok(None),
        Err(error) => Err(error),
    }
}

// The folder of a place, in which nothing was done yet.
fn folder_at<'a>(
    rt: &'a HostRuntime,
    found: &'a FoundFile,
    old: Option<Metadata>,
    keeping: Option<Keeping<'a>>,
) -> io::Result<RealFolder<'a>> {
    let folder = fs::open(rt, found.folder())?;
    Ok(RealFolder {
        rt,
        found,
        old,
        keeping,
        folder,
        fresh: None,
        has_failed: false,
    })
}

// Brings a file that is left as it is onto the disk. A new file is made beside it and removed again: only so it is known that one may be.
fn settle(folder: &mut RealFolder<'_>, file: &File) -> io::Result<()> {
    folder.create()?;
    folder.remove();
    file.sync_all()?;
    folder.sync_place()
}

/// Writes the file of a name that leads to a place. A file is replaced whole or stays as it was. If
/// it has these bytes already, it is only brought onto the disk. A pipe or a terminal is written in
/// place.
///
/// # Errors
/// A device failed, or the place can't be written.
pub fn write<'a>(
    rt: &'a HostRuntime,
    name: &str,
    found: io::Result<&'a FoundFile>,
    bytes: &[u8],
) -> io::Result<()> {
    let Some(mut file) = opened(rt, name)? else {
        return replace(&mut folder_at(rt, found?, None, None)?, Old::Dropped, bytes);
    };
    let old = file.metadata()?;
    if !old.is_file() {
        return file.write_all(bytes);
    }
    let found = found?;
    // A file that has no name any more can't be replaced.
    fs::symlink_metadata(rt, found.path())?;
    let is_there = has_already(rt, found, &old, bytes);
    let mut folder = folder_at(rt, found, Some(old), None)?;
    if is_there {
        return settle(&mut folder, &file);
    }
    replace(&mut folder, Old::Dropped, bytes)
}

/// Writes the file of a name as `write` does, and keeps the old file, which is open, beside the new
/// one. Both have the same owner and permissions.
///
/// # Errors
/// Those of `write`, or the old file can't be kept. Then the old file stays in its place.
pub fn write_keeping<'a>(
    rt: &'a HostRuntime,
    name: &str,
    found: &'a FoundFile,
    old: &'a mut File,
    kept: &'a mut KeptName,
    bytes: &[u8],
) -> io::Result<()> {
    // as there: a file that may not be written isn't replaced
    OpenOptions::new().write(true).open(rt, name)?;
    let metadata = old.metadata()?;
    let keeping = Keeping { old, name: kept };
    let mut folder = folder_at(rt, found, Some(metadata), Some(keeping))?;
    replace(&mut folder, Old::Kept, bytes)
}
