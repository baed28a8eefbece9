//! Real links, screen and keys.
ghost use Rattle.std.specs.Prelude.{◌≡◌, ◌≢◌, ◌≤◌, None, IfOk, IfSome, false, length};
ghost use Rattle.zed_play.specs.declared.key.Key.{Key as TheKey};
ghost use Rattle.zzted.specs.Typing.{byte_of};

use std::cell::Cell;
use std::fs::{self, File};
use std::io::{self, ErrorKind, Read, Write};
use std::rc::Rc;
use zed_link::{Link, LinkFailed, Writes};
use zed_play::Key;
use zed_screen::{Frame, ascii};
use zed_session::{DeviceFailed, Keys, Screen};
use zed_system::Ending;

/// An interrupted read is made again, at most so many times.
const TRIES: u32 = 1024;

/// Most bytes of one file that is pulled over a link: the next read fails. So an endless file takes
/// no more memory than this.
const MOST: u64 = 268_435_456;

/// So many line feeds in a row are a failure.
const LINE_FEEDS: u32 = 4096;

// Reads the next bytes, again where a signal came between.
fn read_some<R: Read>(reader: &mut R, into: &mut [u8]) -> io::Result<usize>
    ensures within { IfOk result (λ n. n ≤ length into.old) }
{
    for _ in 0..TRIES {
        match reader.read(into) {
            Err(error) if error.kind() == ErrorKind::Interrupted => {}
            read => return read,
        }
    }
    Err(io::Error::from(ErrorKind::Interrupted))
}

/// The last read of some links.
#[derive(Clone, Copy)]
pub struct LastRead {
    /// Which link it was, from 0.
    pub at: usize,
    /// How it ended.
    pub ending: Ending,
}

/// A file to read, opened at its first read; `stdin` is standard input. Nothing can be written to
/// it, and it doesn't say what it holds.
#[derive(Drop)]
pub struct FileLink {
    rt: HostRuntime,
    name: String,
    file: Option<File>,
    taken: u64,
    reads: u64,
    writes: Writes,
    failures: u64,
    at: usize,
    last: Rc<Cell<Option<LastRead>>>,
}

impl FileLink {
    /// The file of a name, as the link of this number among those that share `last`, where each
    /// leaves how its last read ended. It isn't opened yet.
    ///
    /// # Errors
    /// `OutOfMemory`.
    pub fn new(
        rt: HostRuntime,
        name: &str,
        at: usize,
        last: Rc<Cell<Option<LastRead>>>,
    ) -> io::Result<FileLink> {
        Ok(FileLink {
            rt,
            name: String::from_str(rt.alloc(), name)?,
            file: None,
            taken: 0,
            reads: 0,
            writes: Writes::NONE,
            failures: 0,
            at,
            last,
        })
    }

    // Leaves how a read ended.
    fn leave(&self, ending: Ending) {
        let at = self.at;
        self.last.set(Some(LastRead { at, ending }));
    }

    // Reads from the file, unless it has given too much already.
    fn read_within(&mut self, into: &mut [u8]) -> io::Result<usize>
        ensures within { IfOk result (λ n. n ≤ length into.old) }
        ensures reads { self.new.reads ≡ self.old.reads }
        ensures writes { self.new.writes ≡ self.old.writes }
        ensures failures { self.new.failures ≡ self.old.failures }
    {
        let count = self.read_file(into)?;
        self.taken = self.taken.saturating_add(count as u64);
        if self.taken > MOST {
            return Err(io::Error::from(ErrorKind::FileTooLarge));
        }
        Ok(count)
    }

    // Reads from the file, which is opened if it wasn't yet.
    fn read_file(&mut self, into: &mut [u8]) -> io::Result<usize>
        ensures within { IfOk result (λ n. n ≤ length into.old) }
        ensures reads { self.new.reads ≡ self.old.reads }
        ensures writes { self.new.writes ≡ self.old.writes }
        ensures failures { self.new.failures ≡ self.old.failures }
    {
        if self.name.as_str() == "stdin" {
            return read_some(&mut self.rt.stdin(), into);
        }
        if self.file.is_none() {
            self.file = Some(fs::open(&self.rt, self.name.as_str())?);
        }
        match &mut self.file {
            Some(file) => read_some(file, into),
            None => Err(io::Error::from(ErrorKind::NotFound)),
        }
    }
}

// How a read that failed by this error ended.
fn ending_of(error: io::Error) -> Ending {
    match error.kind() {
        ErrorKind::NotFound => Ending::NoFile,
        _ => Ending::NotRead(error),
    }
}

impl Link for FileLink {
    ghost ends = { λ _. None };

    ghost reads = { λ l. l.reads };

    ghost writes = { λ l. l.writes };

    ghost failed = { λ l. l.failures };

    ghost stalls = { λ _. 0 };

    ghost accepts = { λ _. false };

    fn read(&mut self, into: &mut [u8]) -> Result<usize, LinkFailed> {
        self.reads = self.reads.saturating_add(1);
        match self.read_within(into) {
            Ok(count) => {
                self.leave(Ending::Read);
                Ok(count)
            }
            Err(error) => {
                self.failures = self.failures.saturating_add(1);
                self.leave(ending_of(error));
                Err(LinkFailed)
            }
        }
    }

    fn write(&mut self, bytes: &[u8]) -> Result<usize, LinkFailed> {
        self.writes.count(bytes);
        self.failures = self.failures.saturating_add(1);
        Err(LinkFailed)
    }

    fn failures(&self) -> u64 {
        self.failures
    }
}

/// Pictures as lines of text on standard output.
#[derive(Drop)]
pub struct Printer {
    rt: HostRuntime,
    failures: u64,
}

impl Printer {
    /// Nothing was shown yet.
    pub fn new(rt: HostRuntime) -> Printer {
        Printer { rt, failures: 0 }
    }

    // Prints the 25 lines of a picture.
    fn print(&self, frame: &Frame) -> io::Result<()> {
        let lines = ascii(frame);
        for line in lines.iter() {
            self.print_line(line)?;
        }
        Ok(())
    }

    // Prints a line of a picture.
    fn print_line(&self, line: &[u8; 80]) -> io::Result<()> {
        self.rt.stdout().write_all(line.as_slice())?;
        self.rt.stdout().write_all(b"\n")
    }
}

impl Screen for Printer {
    ghost shown = { λ _. None };

    ghost screen_failures = { λ s. s.failures };

    ghost screen_foretells = { λ _. None };

    fn show(&mut self, frame: &Frame) -> Result<(), DeviceFailed> {
        if self.print(frame).is_ok() {
            return Ok(());
        }
        self.failures = self.failures.saturating_add(1);
        Err(DeviceFailed)
    }

    fn failures(&self) -> u64 {
        self.failures
    }
}

/// Keys as they come from standard input.
#[derive(Drop)]
pub struct Typed {
    rt: HostRuntime,
    failures: u64,
}

// The key that is typed by a byte, if that is typed for one.
fn key_of(byte: u8) -> Option<Key>
    ensures key { IfSome result (λ key. byte_of key ≡ byte) }
    ensures none { result ≡ None → (key : TheKey) → byte_of key ≢ byte }
{
    match byte {
        b'.' => Some(Key::Wait),
        b'n' => Some(Key::North),
        b's' => Some(Key::South),
        b'w' => Some(Key::West),
        b'e' => Some(Key::East),
        b'N' => Some(Key::ShootNorth),
        b'S' => Some(Key::ShootSouth),
        b'W' => Some(Key::ShootWest),
        b'E' => Some(Key::ShootEast),
        _ => None,
    }
}

impl Typed {
    /// No key was taken yet.
    pub fn new(rt: HostRuntime) -> Typed {
        Typed { rt, failures: 0 }
    }

    // The next byte that is no line feed, a byte at a time, since nobody waits for a full buffer; nothing at the end.
    fn next_byte(&self) -> io::Result<Option<u8>> {
        for _ in 0..LINE_FEEDS {
            let mut byte = [b'\n'];
            if read_some(&mut self.rt.stdin(), &mut byte)? == 0 {
                return Ok(None);
            }
            if byte[0] != b'\n' {
                return Ok(Some(byte[0]));
            }
        }
        Err(io::Error::from(ErrorKind::InvalidData))
    }

    // The next key.
    fn next_key(&self) -> io::Result<Option<Key>> {
        let Some(byte) = self.next_byte()? else {
            return Ok(None);
        };
        match key_of(byte) {
            Some(key) => Ok(Some(key)),
            None => Err(io::Error::from(ErrorKind::InvalidData)),
        }
    }
}

impl Keys for Typed {
    ghost left = { λ _. None };

    ghost key_failures = { λ k. k.failures };

    ghost keys_foretell = { λ _. None };

    fn next(&mut self) -> Result<Option<Key>, DeviceFailed> {
        match self.next_key() {
            Ok(key) => Ok(key),
            Err(_) => {
                self.failures = self.failures.saturating_add(1);
                Err(DeviceFailed)
            }
        }
    }

    fn failures(&self) -> u64 {
        self.failures
    }
}
