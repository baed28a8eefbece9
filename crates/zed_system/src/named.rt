//! The place of a file that a command writes: its path after symbolic links, its folder, the name
//! of the new file that takes its place.
ghost use Rattle.std.specs.Prelude.{◌≡◌, ◌++◌, IfOk, IfSome, None, Some, string_bytes};
ghost use Rattle.zed_system.specs.Names.{IsNewIn, IsPlace, IsSplit, in_front, new_name};

use crate::leftover::{BEGINNING, clear, is_new_name};
use std::alloc::{AllocError, Global};
use std::fs::{self, File, Metadata};
use std::io::{self, ErrorKind, Write};
use std::marker::Model;
use std::os::unix::fs::MetadataExt;
use std::process;
use std::time::{SystemTime, UNIX_EPOCH};

/// Most symbolic links on the way to a file.
const LINKS: u32 = 40;

/// If a file is replaced so many times while a command looks at it, or waits for its lock, that is a
/// failure.
pub(crate) const LOOKS: u32 = 1_048_576;

/// A file that a command writes, by the name that its words give.
#[derive(Drop)]
pub struct NamedFile {
    name: String,
    found: Option<FoundFile>,
}

/// The place of the file of a name, which is no symbolic link.
#[derive(Drop)]
pub struct FoundFile {
    path: String,
    folder: String,
    fresh: String,
    spare: String,
}

impl Model for FoundFile {
    ghost use Rattle.std.specs.Prelude.{string_bytes};
    ghost use Rattle.zed_system.specs.Names as names;

    ghost Value = { names.Found };

    ghost view = { λ f. record { path = string_bytes f.path; folder = string_bytes f.folder; fresh = string_bytes f.fresh; spare = string_bytes f.spare } };
}

impl FoundFile {
    /// The file itself.
    pub fn path(&self) -> &str
        ensures { result.now ≡ self.now.path }
    {
        self.path.as_str()
    }

    /// Its folder.
    pub fn folder(&self) -> &str
        ensures { result.now ≡ self.now.folder }
    {
        self.folder.as_str()
    }

    /// The new file beside it: its name has the program, the process and the time.
    pub fn fresh(&self) -> &str
        ensures { result.now ≡ self.now.fresh }
    {
        self.fresh.as_str()
    }

    /// A second new file beside it, for a copy of the file.
    pub fn spare(&self) -> &str
        ensures { result.now ≡ self.now.spare }
    {
        self.spare.as_str()
    }
}

// A path, cut behind its last slash: its folder, or nothing for the one that the program runs in; and a name.
fn split(path: &str) -> (&str, &str)
    ensures { IsSplit path.now result.0.now result.1.now }
{
    match path.rfind('/') {
        Some(slash) => path.split_at(slash + 1),
        None => ("", path),
    }
}

// Where a symbolic link leads.
fn target_of(rt: &HostRuntime, link: &str) -> io::Result<String> {
    let target = fs::read_link(rt, link)?;
    let Some(text) = target.as_path().to_str() else {
        return Err(io::Error::from(ErrorKind::InvalidFilename));
    };
    if text.starts_with('/') {
        return Ok(String::from_str(rt.alloc(), text)?);
    }
    let (folder, _) = split(link);
    let mut path = String::from_str(rt.alloc(), folder)?;
    path.push_str(text)?;
    Ok(path)
}

// Whether a path is a symbolic link. One that leads nowhere is one too, and what isn't there is none.
fn is_link(rt: &HostRuntime, path: &str) -> io::Result<bool> {
    match unless_missing(fs::symlink_metadata(rt, path))? {
        Some(metadata) => Ok(metadata.is_symlink()),
        None => Ok(false),
    }
}

// What a name leads to.
fn followed(rt: &HostRuntime, name: &str) -> io::Result<String> {
    let mut path = String::from_str(rt.alloc(), name)?;
    for _ in 0..LINKS {
        if !is_link(rt, path.as_str())? {
            return Ok(path);
        }
        path = target_of(rt, path.as_str())?;
    }
    Err(io::Error::from(ErrorKind::FilesystemLoop))
}

// A path in a folder, whose name has a process and a time.
fn numbered(
    alloc: Global,
    folder: &str,
    process: u32,
    seconds: u64,
    rest: u32,
) -> Result<String, AllocError>
    ensures { IfOk result
        (λ path. string_bytes path ≡ folder.now ++ new_name process seconds rest) }
{
    let mut path = String::from_str(alloc, folder)?;
    path.push_str(BEGINNING)?;
    write!(path, "{process}-{seconds}-{rest}")?;
    Ok(path)
}

// The same: it is one of a new file.
fn fresh_path(
    alloc: Global,
    folder: &str,
    process: u32,
    seconds: u64,
    rest: u32,
) -> Result<String, AllocError>
    ensures { IfOk result (λ path. IsNewIn folder.now (string_bytes path)) }
{
    numbered(alloc, folder, process, seconds, rest)
}

// The path of a new file in a folder.
fn fresh_in(rt: &HostRuntime, folder: &str) -> io::Result<String>
    ensures { IfOk result (λ path. IsNewIn folder.now (string_bytes path)) }
{
    let process = process::id(rt.process());
    let time = match SystemTime::now(rt)?.duration_since(UNIX_EPOCH) {
        Ok(time) => time,
        Err(_) => return Err(io::Error::from(ErrorKind::InvalidData)),
    };
    let path = fresh_path(
        rt.alloc(),
        folder,
        process,
        time.as_secs(),
        time.subsec_nanos(),
    )?;
    Ok(path)
}

// A folder as it stands in front of a name.
fn in_front(folder: &str) -> &str
    ensures { result.now ≡ in_front folder.now }
{
    if folder.is_empty() { "./" } else { folder }
}

// Finds where a name leads, and clears what ended processes left there.
fn find(rt: &HostRuntime, name: &str) -> io::Result<FoundFile>
    ensures { IfOk result IsPlace }
{
    let path = followed(rt, name)?;
    let (folder, file) = split(path.as_str());
    if is_new_name(file.as_bytes()) {
        // Such a file would be taken for what an ended process left.
        return Err(io::Error::from(ErrorKind::InvalidFilename));
    }
    let folder = String::from_str(rt.alloc(), in_front(folder))?;
    clear(rt, folder.as_str())?;
    let fresh = fresh_in(rt, folder.as_str())?;
    let spare = format!(in rt.alloc(); "{fresh}-0")?;
    Ok(FoundFile {
        path,
        folder,
        fresh,
        spare,
    })
}

impl Model for NamedFile {
    ghost use Rattle.std.specs.Prelude.{string_bytes};
    ghost use Rattle.zed_system.specs.Names as names;

    ghost Value = { names.Named };

    ghost view = { λ f. record { name = string_bytes f.name; found = f.found } };
}

impl NamedFile {
    /// Finds the place of a name, and takes all memory that writing there needs.
    ///
    /// # Errors
    /// Only `OutOfMemory`. If a device fails, the place is unknown, and only a device can be
    /// written there.
    pub fn of(rt: &HostRuntime, name: &str) -> io::Result<NamedFile>
        ensures name { IfOk result (λ file. file.name ≡ name.now) }
        ensures place { IfOk result (λ file. IfSome file.found IsPlace) }
    {
        let found = match find(rt, name) {
            Ok(found) => Some(found),
            Err(error) if error.kind() == ErrorKind::OutOfMemory => return Err(error),
            Err(_) => None,
        };
        let name = String::from_str(rt.alloc(), name)?;
        Ok(NamedFile { name, found })
    }

    /// Whether it is the place of this name.
    pub fn is_of(&self, name: &str) -> bool {
        self.name.as_str() == name
    }

    /// Whether one of these names leads to the file here.
    ///
    /// # Errors
    /// A device failed, or memory ran out.
    pub fn is_led_to(&self, rt: &HostRuntime, names: &[&str]) -> io::Result<bool> {
        let Some(found) = &self.found else {
            return Ok(false);
        };
        for name in names {
            if *name != "stdin" && leads_to(rt, name, found.path())? {
                return Ok(true);
            }
        }
        Ok(false)
    }

    /// A place of the same name that is unknown.
    pub fn lost(self) -> NamedFile
        ensures name { result.name ≡ self.name }
        ensures found { result.found ≡ None }
    {
        let NamedFile { name, found: _ } = self;
        NamedFile { name, found: None }
    }

    /// The place of the file.
    ///
    /// # Errors
    /// The place is unknown. This isn't the error of a file that isn't there.
    pub fn found(&self) -> io::Result<&FoundFile>
        ensures { IfOk result (λ found. self.now.found ≡ Some found.now) }
    {
        match &self.found {
            Some(found) => Ok(found),
            None => Err(io::Error::from(ErrorKind::Other)),
        }
    }
}

// Whether a name leads to a file that was found elsewhere.
fn leads_there(rt: &HostRuntime, name: &str, here: &Metadata) -> io::Result<bool> {
    match unless_missing(fs::metadata(rt, name))? {
        Some(there) => Ok(is_same(here, &there)),
        None => Ok(false),
    }
}

// Whether a path still has the file that was found there, and nothing has happened to it since. The system may give a new file the
// number of one that is gone, hence the times.
fn is_still(rt: &HostRuntime, path: &str, here: &Metadata) -> io::Result<bool> {
    match unless_missing(fs::symlink_metadata(rt, path))? {
        Some(now) => Ok(
            is_same(here, &now)
                && here.ctime() == now.ctime()
                && here.ctime_nsec() == now.ctime_nsec(),
        ),
        None => Ok(false),
    }
}

/// Whether a name leads to the file at a path. No name leads to what isn't there. Another command
/// may replace the file between the two looks that this takes; then it looks again.
///
/// # Errors
/// A device failed, or the file is replaced each time.
pub fn leads_to(rt: &HostRuntime, name: &str, path: &str) -> io::Result<bool> {
    for _ in 0..LOOKS {
        let Some(here) = unless_missing(fs::symlink_metadata(rt, path))? else {
            return Ok(false);
        };
        if leads_there(rt, name, &here)? {
            return Ok(true);
        }
        if is_still(rt, path, &here)? {
            return Ok(false);
        }
    }
    Err(io::Error::from(ErrorKind::ResourceBusy))
}

// What a look at a file told, if the file is there.
pub(crate) fn unless_missing(looked: io::Result<Metadata>) -> io::Result<Option<Metadata>> {
    match looked {
        Ok(metadata) => Ok(Some(metadata)),
        Err(error) if error.kind() == ErrorKind::NotFound => Ok(None),
        Err(error) => Err(error),
    }
}

fn is_same(one: &Metadata, other: &Metadata) -> bool {
    one.dev() == other.dev() && one.ino() == other.ino()
}

/// Whether an open file is the one at a path. That may be gone, or be another file.
///
/// # Errors
/// A device failed.
pub(crate) fn is_at(rt: &HostRuntime, file: &File, path: &str) -> io::Result<bool> {
    match unless_missing(fs::symlink_metadata(rt, path))? {
        Some(there) => Ok(is_same(&there, &file.metadata()?)),
        None => Ok(false),
    }
}
