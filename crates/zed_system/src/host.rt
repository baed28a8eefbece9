//! Real files and streams as a host.
ghost use Rattle.std.specs.Prelude.{◌≡◌, None, false, is_err};
ghost use Rattle.zed_host.specs.Counting.{Counts, Rose};
ghost use Rattle.zed_system.specs.Counted.{called_in, failed_in, nothing_failed};

use crate::NamedFile;
use crate::causes::{named_twice, of_file};
use crate::last::{Ending, Front, LastCall};
use crate::place::Place;
use crate::reading::{Stop, read_whole};
use std::fs;
use std::io::{self, ErrorKind, Write};
use std::marker::Model;
use zed_host::{Host, ReadError, WriteError};

/// Files by their paths; `stdin` and `stdout` are the streams. It doesn't say what they hold. It
/// writes only the files that it was allowed to write. It remembers how its last calls ended, so
/// that a program can say which file a refusal is of.
#[derive(Drop)]
pub struct SystemHost {
    rt: HostRuntime,
    places: Vec<Place>,
    // the reads that failed for want of a file
    missing: u64,
    // the calls that failed otherwise
    faults: u64,
    // the last one of all that failed, and the last one that didn't
    failed: LastCall,
    passed: LastCall,
    complaint: Front,
}

impl Model for SystemHost {
    ghost use Rattle.zed_system.specs.Counted.{Counted};

    ghost Value = { Counted };

    ghost view = { λ s. record { missing = s.missing; faults = s.faults } };
}

impl SystemHost {
    /// A host for a command that writes no file.
    pub fn new(rt: HostRuntime) -> SystemHost
        ensures { result ≡ nothing_failed }
    {
        SystemHost {
            rt,
            places: Vec::new(rt.alloc()),
            missing: 0,
            faults: 0,
            failed: LastCall::none(),
            passed: LastCall::none(),
            complaint: Front::of(b""),
        }
    }

    /// The last call that failed: that of a file that wasn't there, that couldn't be read or
    /// couldn't be written, or of standard output.
    pub fn last_failed(&self) -> &LastCall {
        &self.failed
    }

    /// The last call for a file that didn't fail: the file was read or written, or memory was
    /// refused while it was read.
    pub fn last_passed(&self) -> &LastCall {
        &self.passed
    }

    /// What was written to standard error last, or nothing: its first 4,096 bytes.
    pub fn complaint(&self) -> &[u8] {
        self.complaint.as_slice()
    }

    /// Tells standard error which old file was kept, and under which name; nothing if none was. Call
    /// this once, at the end of a command.
    pub fn tell_kept(&self) {
        for place in &self.places {
            let line = place.told();
            if !line.is_empty() {
                let _ = self.rt.stderr().write_all(line.as_bytes());
            }
        }
    }

    /// Lets the command write the file of a name. If an edit file is there then, and can't be read
    /// or has an edit that the new file lacks, it is kept beside that, under its name and a tilde,
    /// or a tilde and a number. No file that was kept before is replaced.
    ///
    /// This name isn't written if its file was allowed before, by another name or in another way.
    /// Allowing a name again changes nothing.
    ///
    /// # Errors
    /// Only `OutOfMemory`: this takes all memory that a write needs. Any other failure comes when
    /// the file is written. If memory is refused then for the look at an old file, that is kept.
    pub fn writes(&mut self, name: &str) -> io::Result<()>
        ensures kept { self.new ≡ self.old }
    {
        let file = NamedFile::of(&self.rt, name)?;
        let place = Place::written(&self.rt, name, file, None)?;
        self.admit(name, place)
    }

    /// Lets the command write the file of a name, as by `writes`. A drawing is kept too, unless the
    /// new file has the same bytes: a file beside which its base lies, under its name and `.base`.
    ///
    /// # Errors
    /// Only `OutOfMemory`, as for `writes`.
    pub fn saves(&mut self, name: &str) -> io::Result<()>
        ensures kept { self.new ≡ self.old }
    {
        let file = NamedFile::of(&self.rt, name)?;
        let place = self.saved(name, file)?;
        self.admit(name, place)
    }

    // A place whose edit file is kept, or its drawing.
    fn saved(&self, name: &str, file: NamedFile) -> io::Result<Place> {
        let base = format!(in self.rt.alloc(); "{name}.base")?;
        Place::written(&self.rt, name, file, Some(base))
    }

    /// Lets the command read the file of a name and write it again. From the read on it is held:
    /// nobody else replaces it before this command has written it, or has ended.
    ///
    /// This name is neither read nor written if its file was allowed before, by another name or in
    /// another way. Allowing a name again changes nothing.
    ///
    /// # Errors
    /// Only `OutOfMemory`, as for `writes`.
    pub fn edits(&mut self, name: &str) -> io::Result<()>
        ensures kept { self.new ≡ self.old }
    {
        let file = NamedFile::of(&self.rt, name)?;
        self.admit(name, Place::edited(file))
    }

    /// Lets the command read the file of a name and write it again, as by `edits`. It does neither if
    /// this is one of the files of these other names, by any name, or that can't be found out.
    ///
    /// # Errors
    /// Only `OutOfMemory`, as for `writes`.
    pub fn edits_apart(&mut self, name: &str, others: &[&str]) -> io::Result<()>
        ensures kept { self.new ≡ self.old }
    {
        let file = NamedFile::of(&self.rt, name)?;
        let is_other = match file.is_led_to(&self.rt, others) {
            Ok(is_led) => is_led || others.iter().any(|other| *other == name),
            Err(error) if error.kind() == ErrorKind::OutOfMemory => return Err(error),
            Err(_) => true,
        };
        let mut place = Place::edited(file);
        if is_other {
            place.refuse();
        }
        self.admit(name, place)
    }

    /// Lets the command write the file of a name, while it reads others over links. If one of these
    /// is that file itself, by any name, it is held from now on, as by `edits`; otherwise it is
    /// written as by `saves`. If this can't be found out, only a device is written there.
    ///
    /// # Errors
    /// Only `OutOfMemory`, as for `writes`.
    pub fn joins(&mut self, name: &str, links: &[&str]) -> io::Result<()>
        ensures kept { self.new ≡ self.old }
    {
        let file = NamedFile::of(&self.rt, name)?;
        let place = match file.is_led_to(&self.rt, links) {
            Ok(true) => Place::edited(file),
            Ok(false) => self.saved(name, file)?,
            Err(error) if error.kind() == ErrorKind::OutOfMemory => return Err(error),
            Err(_) => Place::unknown(file),
        };
        self.admit(name, place)?;
        self.hold(name);
        Ok(())
    }

    // Holds the file of a name, if it is edited.
    fn hold(&mut self, name: &str)
        ensures kept { self.new ≡ self.old }
    {
        for place in self.places.iter_mut() {
            if place.is_edited(name) {
                place.hold(&self.rt);
            }
        }
    }

    // Adds a place, unless it is there. One that meets an earlier one is refused, since nobody may wait for a lock of its own.
    fn admit(&mut self, name: &str, mut place: Place) -> io::Result<()>
        ensures kept { self.new ≡ self.old }
    {
        if self.has(name, &place) {
            return Ok(());
        }
        if self.is_met(name, &place) {
            place.refuse();
        }
        self.places.push(place)?;
        Ok(())
    }

    // Whether there is a place of this name already to which the command gets in the same way.
    fn has(&self, name: &str, place: &Place) -> bool {
        self.places
            .iter()
            .any(|earlier| earlier.is_of(name) && earlier.is_as(place))
    }

    // Whether a place of this name meets an earlier one, or that can't be told.
    fn is_met(&self, name: &str, place: &Place) -> bool {
        for earlier in &self.places {
            if !matches!(place.meets(&self.rt, name, earlier), Ok(false)) {
                return true;
            }
        }
        false
    }

    // Whether nothing may be read or written under this name.
    fn is_refused(&self, name: &str) -> bool {
        self.places
            .iter()
            .any(|place| place.is_of(name) && place.is_refused())
    }

    // Reads the file of a name.
    fn read_named(&mut self, name: &str) -> Result<Vec<u8>, Stop>
        ensures kept { self.new ≡ self.old }
    {
        let alloc = self.rt.alloc();
        if name == "stdin" {
            return read_whole(alloc, &mut self.rt.stdin());
        }
        for place in self.places.iter_mut() {
            if place.is_edited(name) {
                return place.read(&self.rt, name);
            }
        }
        read_whole(alloc, &mut fs::open(&self.rt, name)?)
    }

    // Writes the file of a name.
    fn write_named(&mut self, name: &str, bytes: &[u8]) -> io::Result<()>
        ensures kept { self.new ≡ self.old }
    {
        if name == "stdout" {
            return self.rt.stdout().write_all(bytes);
        }
        if self.is_refused(name) {
            return Err(named_twice());
        }
        for place in self.places.iter_mut() {
            if place.is_of(name) {
                return place.write(&self.rt, name, bytes);
            }
        }
        Err(io::Error::from(ErrorKind::Unsupported))
    }

    // Remembers that the file of a name couldn't be read.
    fn note_unread(&mut self, name: &str, error: io::Error)
        ensures kept { self.new ≡ self.old }
    {
        let cause = of_file(&self.rt, name, error);
        self.failed = LastCall::of(name, Ending::NotRead(cause));
    }

    // Remembers how the file of a name was written, if it was.
    fn note_written(&mut self, name: &str, written: &io::Result<()>)
        ensures kept { self.new ≡ self.old }
    {
        match written {
            Ok(()) => self.passed = LastCall::of(name, Ending::Written),
            Err(error) => {
                let cause = of_file(&self.rt, name, *error);
                self.failed = LastCall::of(name, Ending::NotWritten(cause));
            }
        }
    }
}

// Counts a call that failed.
fn count(counter: &mut u64)
    ensures { Rose counter.old counter.new }
{
    *counter = counter.saturating_add(1);
}

// Counts a write that failed.
fn counted(faults: &mut u64, written: io::Result<()>) -> Result<(), WriteError>
    ensures { Counts (is_err result) faults.old faults.new }
{
    if written.is_ok() {
        return Ok(());
    }
    count(faults);
    Err(WriteError)
}

impl Host for SystemHost {
    ghost contents = { λ _. None };

    ghost failed = { failed_in };

    ghost faults = { λ s. s.faults };

    ghost called = { called_in };

    fn read(&mut self, name: &str) -> Result<Vec<u8>, ReadError> {
        match self.read_named(name) {
            Ok(bytes) => {
                self.passed = LastCall::of(name, Ending::Read);
                Ok(bytes)
            }
            Err(Stop::Memory) => {
                let error = io::Error::from(ErrorKind::OutOfMemory);
                self.passed = LastCall::of(name, Ending::NotRead(error));
                Err(ReadError::Memory)
            }
            Err(Stop::Missing) => {
                count(&mut self.missing);
                self.failed = LastCall::of(name, Ending::NoFile);
                Err(ReadError::NoFile)
            }
            Err(Stop::Device(error)) => {
                count(&mut self.faults);
                self.note_unread(name, error);
                Err(ReadError::File)
            }
        }
    }

    fn write(&mut self, name: &str, bytes: &[u8]) -> Result<(), WriteError> {
        let written = self.write_named(name, bytes);
        self.note_written(name, &written);
        counted(&mut self.faults, written)
    }

    fn print(&mut self, bytes: &[u8]) -> Result<(), WriteError> {
        let written = self.rt.stdout().write_all(bytes);
        if let Err(error) = written {
            self.failed = LastCall::of("stdout", Ending::NotWritten(error));
        }
        counted(&mut self.faults, written)
    }

    fn complain(&mut self, bytes: &[u8]) -> Result<(), WriteError> {
        self.complaint = Front::of(bytes);
        let written = self.rt.stderr().write_all(bytes);
        counted(&mut self.faults, written)
    }

    fn failures(&self) -> u64 {
        self.faults.saturating_add(self.missing)
    }

    ghost counts_failures = { λ old call new is. is.0 };

    ghost counts_no_fault = { λ old call new is. is.1 };
}
