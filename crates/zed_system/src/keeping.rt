//! Keeping the old file when it is replaced: beside the new one, under a name that no file has.
ghost use Rattle.std.specs.Prelude.{◌≡◌, ◌++◌, IfOk, OnOk, codes};
ghost use Rattle.zed_system.specs.Names.{IsChosen, kept_path};

use crate::fresh::{OWN, liken, make_fresh};
use crate::named::{FoundFile, unless_missing};
use std::fs::{self, File};
use std::io::{self, ErrorKind, Read, Seek, Write};
use std::marker::Model;

/// Most old files that are kept of one.
const MOST: u32 = 999;

/// Most digits of their numbers.
const DIGITS: usize = 3;

/// How often a name is chosen again because another file got it first.
const TRIES: u32 = 1024;

/// How many bytes of two files are compared at a time.
const PIECE: usize = 4096;

/// The name under which the old file of a place is kept: its path and a tilde, or the same and a
/// number from 2 on.
#[derive(Drop)]
pub struct KeptName {
    // has room for the longest one
    text: String,
    // the path and the tilde
    front: String,
    // how many files there have names that begin so
    count: u32,
}

impl Model for KeptName {
    ghost use Rattle.std.specs.Prelude.{string_bytes};
    ghost use Rattle.zed_system.specs.Names as names;

    ghost Value = { names.Kept };

    ghost view = { λ k. record { first = string_bytes k.front; chosen = string_bytes k.text } };
}

impl KeptName {
    /// Takes all memory that keeping a file of this place needs.
    ///
    /// # Errors
    /// The folder can't be listed, or memory is refused.
    pub fn of(rt: &HostRuntime, found: &FoundFile) -> io::Result<KeptName>
        ensures { IfOk result (IsChosen (found.now.path ++ codes "~")) }
    {
        let front = format!(in rt.alloc(); "{}~", found.path())?;
        let mut text = String::from_str(rt.alloc(), front.as_str())?;
        text.reserve(DIGITS)?;
        let count = count_beside(rt, found, front.as_str())?;
        Ok(KeptName { text, front, count })
    }

    /// The path of the kept file.
    pub fn as_str(&self) -> &str
        ensures { result.now ≡ self.now.chosen }
    {
        self.text.as_str()
    }

    // Makes it the name of this number.
    fn number(&mut self, number: u32) -> io::Result<()>
        ensures first { self.new.first ≡ self.old.first }
        ensures chosen { OnOk result (self.new.chosen ≡ kept_path self.old.first number) }
    {
        self.text.clear();
        self.text.push_str(self.front.as_str())?;
        if number > 1 {
            write!(self.text, "{number}")?;
        }
        Ok(())
    }
}

// How many files beside the one in a place have paths that begin so.
fn count_beside(rt: &HostRuntime, found: &FoundFile, front: &str) -> io::Result<u32> {
    let name = front.strip_prefix(found.folder()).unwrap_or(front);
    let mut count = 0u32;
    for entry in fs::read_dir(rt, found.folder())? {
        match entry {
            Ok(entry) if entry.file_name().starts_with(name) => count = count.saturating_add(1),
            Ok(_) => {}
            // a name that is no text
            Err(error) if error.kind() == ErrorKind::InvalidFilename => {}
            Err(error) => return Err(error),
        }
    }
    Ok(count)
}

// Whether this many bytes of two files, each read from its front, are the same.
fn are_same(one: &mut File, other: &mut File, length: u64) -> io::Result<bool> {
    let mut first = [0u8; PIECE];
    let mut second = [0u8; PIECE];
    let mut left = length;
    one.rewind()?;
    while left > 0 {
        let count = left.min(4096) as usize;
        one.read_exact(&mut first[..count])?;
        other.read_exact(&mut second[..count])?;
        if first[..count] != second[..count] {
            return Ok(false);
        }
        left -= count as u64;
    }
    Ok(true)
}

// What has a name.
#[derive(Clone, Copy, PartialEq, Eq)]
enum There {
    Nothing,
    // a file with the bytes that are to be kept, on the disk
    Same,
    // a file with other bytes, or what may not be read or is no file
    Other,
}

// What has a name, beside an old file that is to be kept.
fn look(rt: &HostRuntime, path: &str, old: &mut File) -> io::Result<There> {
    let Some(there) = unless_missing(fs::symlink_metadata(rt, path))? else {
        return Ok(There::Nothing);
    };
    let length = old.metadata()?.len();
    if !there.is_file() || there.len() != length {
        return Ok(There::Other);
    }
    match fs::open(rt, path) {
        Ok(mut file) => {
            if !are_same(old, &mut file, length)? {
                return Ok(There::Other);
            }
            file.sync_all()?;
            Ok(There::Same)
        }
        Err(error) if error.kind() == ErrorKind::PermissionDenied => Ok(There::Other),
        Err(error) => Err(error),
    }
}

fn too_many() -> io::Error {
    io::Error::new(
        ErrorKind::AlreadyExists,
        "too many old files are kept beside it",
    )
}

// Finds the name under which an old file is kept: that of a file with the same bytes, or else the first that no file has. Tells whether
// it is kept there already.
fn choose(rt: &HostRuntime, kept: &mut KeptName, old: &mut File) -> io::Result<bool>
    ensures first { kept.new.first ≡ kept.old.first }
    ensures chosen { OnOk result (IsChosen kept.old.first kept.new) }
{
    let mut free = None;
    let mut met = 0u32;
    for number in 1..=MOST {
        if free.is_some() && met >= kept.count {
            break;
        }
        kept.number(number)?;
        match look(rt, kept.as_str(), old)? {
            There::Same => return Ok(true),
            There::Other => met = met.saturating_add(1),
            There::Nothing => free = free.or(Some(number)),
        }
    }
    kept.number(free.ok_or(too_many())?)?;
    Ok(false)
}

// Whether this tells that a file gets no second name there: the file system has none, or none for this file.
fn has_no_links(error: &io::Error) -> bool {
    matches!(
        error.kind(),
        ErrorKind::PermissionDenied | ErrorKind::Unsupported | ErrorKind::TooManyLinks
    )
}

// Makes a new file a copy of an old one, on the disk.
fn fill_spare(old: &mut File, spare: &mut File) -> io::Result<()> {
    liken(spare, &old.metadata()?)?;
    old.rewind()?;
    io::copy(old, spare)?;
    spare.sync_all()
}

// Keeps a copy of an old file. Whoever looks finds all of it, or none.
fn keep_copy(
    rt: &HostRuntime,
    found: &FoundFile,
    kept: &KeptName,
    old: &mut File,
) -> io::Result<()> {
    let mut spare = make_fresh(rt, found.spare(), OWN)?;
    let done = match fill_spare(old, &mut spare) {
        Ok(()) => fs::rename(rt, found.spare(), kept.as_str()),
        Err(error) => Err(error),
    };
    if done.is_err() {
        let _ = fs::remove_file(rt, found.spare());
    }
    done
}

/// Gives the file in a place, which is open, a second name that no file has, unless a file that is
/// kept there has the same bytes. This takes no memory. The file is copied only if files can have
/// only one name there.
///
/// # Errors
/// A device failed, or 999 old files are kept there.
pub(crate) fn keep(
    rt: &HostRuntime,
    found: &FoundFile,
    kept: &mut KeptName,
    old: &mut File,
) -> io::Result<()>
    ensures { OnOk result (IsChosen kept.old.first kept.new) }
{
    for _ in 0..TRIES {
        if choose(rt, kept, old)? {
            return Ok(());
        }
        match fs::hard_link(rt, found.path(), kept.as_str()) {
            // another file got the name in the meantime
            Err(error) if error.kind() == ErrorKind::AlreadyExists => {}
            Err(error) if has_no_links(&error) => return keep_copy(rt, found, kept, old),
            linked => return linked,
        }
    }
    Err(io::Error::from(ErrorKind::ResourceBusy))
}
