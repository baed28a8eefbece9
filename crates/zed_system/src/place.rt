//! The files that a command writes.

use crate::causes::{named_twice, of_standing};
use crate::old::old_file;
use crate::reading::{Stop, read_whole};
use crate::{FoundFile, KeptName, NamedFile, held, leads_to, stands, write, write_keeping};
use std::fs::File;
use std::io::{self, ErrorKind, Seek};

/// How a command uses a file.
#[derive(Clone, Copy, PartialEq, Eq)]
pub(crate) enum Way {
    /// It writes the file without reading it. So the old one may be kept.
    Writes,
    /// It reads the file, and may write it again; nobody else does so in between.
    Edits,
}

// The file that is edited, as far as it is held.
#[derive(Drop)]
enum Hold {
    // Not yet, or there is no such file.
    Nothing,
    // Its lock is held until it is closed.
    Of(File),
    // It can't be held, and so it isn't written.
    Refused,
}

// Room in a line for the number of a kept file, and for the line's end.
const ROOM: usize = 8;

// How the old file of a place is kept.
#[derive(Drop)]
struct Keeping {
    kept: KeptName,
    // the base of a drawing, if drawings are kept too
    base: Option<String>,
    // what is told of the file that was kept; before that it is empty, and has room for this
    line: String,
}

impl Keeping {
    // Takes all memory that keeping the old file needs.
    fn of(
        rt: &HostRuntime,
        name: &str,
        file: &NamedFile,
        base: Option<String>,
    ) -> io::Result<Keeping> {
        let kept = KeptName::of(rt, file.found()?)?;
        let mut line = format!(in rt.alloc(); "kept the old {name} as {}", kept.as_str())?;
        line.reserve(ROOM)?;
        line.clear();
        Ok(Keeping { kept, base, line })
    }

    // Writes the file, and keeps the old one if something would be lost with it.
    fn write(
        &mut self,
        rt: &HostRuntime,
        name: &str,
        found: &FoundFile,
        bytes: &[u8],
    ) -> io::Result<()> {
        // held until the new file is in its place
        let Some(mut old) = old_file(rt, name, found, text_in(&self.base), bytes)? else {
            return write(rt, name, Ok(found), bytes);
        };
        stands(rt, &old.file, found).map_err(of_standing)?;
        if !old.is_kept {
            return write(rt, name, Ok(found), bytes);
        }
        write_keeping(rt, name, found, &mut old.file, &mut self.kept, bytes)?;
        write!(self.line, "kept the old {name} as {}\n", self.kept.as_str())?;
        Ok(())
    }
}

fn text_in(text: &Option<String>) -> Option<&str> {
    match text {
        Some(text) => Some(text.as_str()),
        None => None,
    }
}

/// A file that a command writes: its place, its lock, if it is held, and how its old file is kept.
#[derive(Drop)]
pub(crate) struct Place {
    file: NamedFile,
    way: Way,
    hold: Hold,
    keeping: Option<Keeping>,
}

impl Place {
    // A place that isn't held yet.
    fn new(file: NamedFile, way: Way, keeping: Option<Keeping>) -> Place {
        Place {
            file,
            way,
            hold: Hold::Nothing,
            keeping,
        }
    }

    /// A place whose file is read and written.
    pub(crate) fn edited(file: NamedFile) -> Place {
        Place::new(file, Way::Edits, None)
    }

    /// A place that is unknown: only a device is written there.
    pub(crate) fn unknown(file: NamedFile) -> Place {
        Place::new(file.lost(), Way::Writes, None)
    }

    /// A place whose file is written without being read. An edit file is kept, and so is a drawing
    /// if the name of its base is given. If a device fails, the place is unknown.
    ///
    /// # Errors
    /// Only `OutOfMemory`.
    pub(crate) fn written(
        rt: &HostRuntime,
        name: &str,
        file: NamedFile,
        base: Option<String>,
    ) -> io::Result<Place> {
        match Keeping::of(rt, name, &file, base) {
            Ok(keeping) => Ok(Place::new(file, Way::Writes, Some(keeping))),
            Err(error) if error.kind() == ErrorKind::OutOfMemory => Err(error),
            Err(_) => Ok(Place::unknown(file)),
        }
    }

    /// Whether it is the place of this name.
    pub(crate) fn is_of(&self, name: &str) -> bool {
        self.file.is_of(name)
    }

    /// Whether it is the place of this name, and read.
    pub(crate) fn is_edited(&self, name: &str) -> bool {
        self.way == Way::Edits && self.is_of(name)
    }

    /// Whether the command uses both in the same way.
    pub(crate) fn is_as(&self, other: &Place) -> bool {
        self.way == other.way
    }

    /// Whether nothing may be read or written there.
    pub(crate) fn is_refused(&self) -> bool {
        matches!(&self.hold, Hold::Refused)
    }

    /// From now on nothing is read or written there.
    pub(crate) fn refuse(&mut self) {
        self.hold = Hold::Refused;
    }

    /// Whether two places have the same name or lead to the same file.
    ///
    /// # Errors
    /// A device failed.
    pub(crate) fn meets(&self, rt: &HostRuntime, name: &str, other: &Place) -> io::Result<bool> {
        if other.is_of(name) {
            return Ok(true);
        }
        let (Ok(one), Ok(two)) = (self.file.found(), other.file.found()) else {
            return Ok(false);
        };
        Ok(one.path() == two.path() || leads_to(rt, one.path(), two.path())?)
    }

    /// Holds the file, if it is there, before it is read in another way. Until this command has
    /// written it, no other one replaces it.
    pub(crate) fn hold(&mut self, rt: &HostRuntime) {
        let (Hold::Nothing, Ok(found)) = (&self.hold, self.file.found()) else {
            return;
        };
        self.hold = match held(rt, found.path(), found) {
            Ok(file) => Hold::Of(file),
            Err(error) if error.kind() == ErrorKind::NotFound => Hold::Nothing,
            Err(_) => Hold::Refused,
        };
    }

    /// Reads the file, which is held from then on. A second time it is read as it is held.
    pub(crate) fn read(&mut self, rt: &HostRuntime, name: &str) -> Result<Vec<u8>, Stop> {
        match &mut self.hold {
            Hold::Refused => return Err(Stop::Device(named_twice())),
            Hold::Of(file) => {
                file.rewind()?;
                return read_whole(rt.alloc(), file);
            }
            Hold::Nothing => {}
        }
        let mut file = held(rt, name, self.file.found()?)?;
        let bytes = read_whole(rt.alloc(), &mut file)?;
        self.hold = Hold::Of(file);
        Ok(bytes)
    }

    /// Writes the file. If it was read, the file that was read must still be there.
    pub(crate) fn write(&mut self, rt: &HostRuntime, name: &str, bytes: &[u8]) -> io::Result<()> {
        let found = self.file.found();
        match (&self.hold, &found) {
            (Hold::Of(file), Ok(found)) => stands(rt, file, found).map_err(of_standing)?,
            (Hold::Refused, _) => return Err(named_twice()),
            _ => {}
        }
        match (&mut self.keeping, found) {
            (Some(keeping), Ok(found)) => keeping.write(rt, name, found, bytes),
            (_, found) => write(rt, name, found, bytes),
        }
    }

    /// A line that tells where the old file was kept; nothing if it wasn't.
    pub(crate) fn told(&self) -> &str {
        match &self.keeping {
            Some(keeping) => keeping.line.as_str(),
            None => "",
        }
    }
}
