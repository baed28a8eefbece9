//! A real terminal, keyboard and source of chance.
ghost use Rattle.std.specs.Prelude.{◌≡◌, ◌≤◌, None, IfOk, length};

use std::fs::{self, File};
use std::io::{self, ErrorKind, Read, Write};
use zed_terminal::{Bytes, Chance, DeviceFailed, Terminal};

/// A read that was interrupted is made again, so many times.
const TRIES: u32 = 1024;

/// The file that chance comes from.
const RANDOM: &str = "/dev/urandom";

// Reads the next bytes, again where a signal came between.
fn read_some<R: Read>(reader: &mut R, into: &mut [u8]) -> io::Result<usize>
    ensures within { IfOk result (λ n. n ≤ length into.old) }
{
    for _ in 0..TRIES {
        match reader.read(into) {
            Err(error) if error.kind() == ErrorKind::Interrupted => {}
            read => return read,
        }
    }
    Err(io::Error::from(ErrorKind::Interrupted))
}

/// What comes before the first picture: another screen, no cursor, and long lines are cut.
const ENTER: &[u8] = b"\x1b[?1049h\x1b[?25l\x1b[?7l";

/// What comes behind the last one: all of that as it was.
const LEAVE: &[u8] = b"\x1b[?7h\x1b[?25h\x1b[?1049l";

/// What is drawn goes to standard output, on a screen of its own.
#[derive(Drop)]
pub struct Display {
    rt: HostRuntime,
    is_entered: bool,
    failures: u64,
}

impl Display {
    /// Nothing was drawn yet.
    pub fn new(rt: HostRuntime) -> Display {
        Display {
            rt,
            is_entered: false,
            failures: 0,
        }
    }

    // Writes a text, behind what comes before the first one.
    fn put(&mut self, text: &[u8]) -> io::Result<()>
        ensures failures { self.new.failures ≡ self.old.failures }
    {
        if !self.is_entered {
            self.is_entered = true;
            self.rt.stdout().write_all(ENTER)?;
        }
        self.rt.stdout().write_all(text)
    }
}

impl Terminal for Display {
    ghost is_entered = { λ d. d.is_entered };

    ghost times_left = { λ _. None };

    ghost drawn = { λ _. None };

    ghost draw_failures = { λ d. d.failures };

    ghost draws_foretell = { λ _. None };

    fn draw(&mut self, text: &[u8]) -> Result<(), DeviceFailed> {
        match self.put(text) {
            Ok(()) => Ok(()),
            Err(_) => {
                self.failures = self.failures.saturating_add(1);
                Err(DeviceFailed)
            }
        }
    }

    fn leave(&mut self) {
        if self.is_entered {
            self.is_entered = false;
            let _ = self.rt.stdout().write_all(LEAVE);
        }
    }

    fn failures(&self) -> u64 {
        self.failures
    }
}

/// Bytes as they are typed, from standard input, one at a time: nobody waits for a full buffer.
#[derive(Drop)]
pub struct Keyboard {
    rt: HostRuntime,
    came: u64,
    failures: u64,
}

impl Keyboard {
    /// No byte was taken yet.
    pub fn new(rt: HostRuntime) -> Keyboard {
        Keyboard {
            rt,
            came: 0,
            failures: 0,
        }
    }
}

impl Bytes for Keyboard {
    ghost bytes_left = { λ _. None };

    ghost bytes_came = { λ k. k.came };

    ghost byte_failures = { λ k. k.failures };

    fn byte(&mut self) -> Result<Option<u8>, DeviceFailed> {
        let mut byte = [0];
        match read_some(&mut self.rt.stdin(), &mut byte) {
            Ok(0) => Ok(None),
            Ok(_) => {
                self.came = self.came.saturating_add(1);
                Ok(Some(byte[0]))
            }
            Err(_) => {
                self.failures = self.failures.saturating_add(1);
                Err(DeviceFailed)
            }
        }
    }
}

/// The system's source of chance, opened at its first use.
#[derive(Drop)]
pub struct SystemChance {
    rt: HostRuntime,
    file: Option<File>,
    failures: u64,
}

impl SystemChance {
    /// Nothing was taken yet.
    pub fn new(rt: HostRuntime) -> SystemChance {
        SystemChance {
            rt,
            file: None,
            failures: 0,
        }
    }

    // Fills all of these bytes.
    fn fill(&mut self, bytes: &mut [u8; 64]) -> io::Result<()>
        ensures failures { self.new.failures ≡ self.old.failures }
    {
        if self.file.is_none() {
            self.file = Some(fs::open(&self.rt, RANDOM)?);
        }
        match &mut self.file {
            Some(file) => file.read_exact(bytes),
            None => Err(io::Error::from(ErrorKind::NotFound)),
        }
    }

    // The next words.
    fn words(&mut self) -> io::Result<[u16; 32]>
        ensures failures { self.new.failures ≡ self.old.failures }
    {
        let mut bytes = [0; 64];
        self.fill(&mut bytes)?;
        let mut words = [0; 32];
        for place in 0..32_usize {
            words[place] = u16::from_le_bytes([bytes[2 * place], bytes[2 * place + 1]]);
        }
        Ok(words)
    }
}

impl Chance for SystemChance {
    ghost to_come = { λ _. None };

    ghost chance_failures = { λ c. c.failures };

    fn more(&mut self) -> Result<[u16; 32], DeviceFailed> {
        match self.words() {
            Ok(words) => Ok(words),
            Err(_) => {
                self.failures = self.failures.saturating_add(1);
                Err(DeviceFailed)
            }
        }
    }

    fn failures(&self) -> u64 {
        self.failures
    }
}
