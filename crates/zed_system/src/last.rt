//! What a host remembers of its calls. It takes no memory for that, so that nothing is refused for
//! it.
ghost use Rattle.std.specs.Prelude.{◌≡◌, ◌≤◌, None, Some, length, option_map, take};

use std::io;
use std::marker::Model;

/// Most bytes of a text that are remembered. No name of a file is longer.
const MOST: usize = 4096;

// The front of a text, as much of it as is remembered.
fn front_of(text: &[u8]) -> &[u8]
    ensures result { result.now ≡ take 4096 text.now }
    ensures within { length result.now ≤ 4096 }
{
    if text.len() > MOST {
        &text[..MOST]
    } else {
        text
    }
}

// Puts a text to the front of bytes.
fn put(text: &[u8], into: &mut [u8])
    requires { length text.now ≤ length into.old }
    ensures { take (length text.now) into.new ≡ text.now }
{
    into[..text.len()].copy_from_slice(text);
}

/// The front of a text.
#[derive(Drop)]
pub struct Front {
    bytes: [u8; MOST],
    length: usize,
    ghost within: { length ≤ 4096 },
}

impl Model for Front {
    ghost use Rattle.std.specs.Prelude.{List, ℕ, take};

    ghost Value = { List ℕ };

    ghost view = { λ front. take front.length front.bytes };
}

impl Front {
    /// The front of this text.
    pub(crate) fn of(text: &[u8]) -> Front
        ensures { result ≡ take 4096 text.now }
    {
        let front = front_of(text);
        let mut bytes = [0; MOST];
        put(front, bytes.as_mut_slice());
        Front {
            bytes,
            length: front.len(),
        }
    }

    /// Its bytes.
    pub fn as_slice(&self) -> &[u8]
        ensures { result.now ≡ self.now }
    {
        &self.bytes[..self.length]
    }
}

/// How a call for a file ended.
#[derive(Clone, Copy)]
pub enum Ending {
    /// The file was read.
    Read,
    /// The file was written.
    Written,
    /// There is no such file.
    NoFile,
    /// It could not be read.
    NotRead(io::Error),
    /// It could not be written.
    NotWritten(io::Error),
}

/// The last one of some calls for files, if there was one.
#[derive(Drop)]
pub struct LastCall {
    name: Front,
    ending: Option<Ending>,
}

impl Model for LastCall {
    ghost use Rattle.std.specs.Prelude.{List, Option, ℕ, option_map};
    ghost use Rattle.zed_system.specs.declared.last.Ending.{Ending};

    ghost Value = { Option (List ℕ × Ending) };

    ghost view = { λ call. option_map (λ ending. (call.name, ending)) call.ending };
}

impl LastCall {
    /// There was none yet.
    pub(crate) fn none() -> LastCall
        ensures { result ≡ None }
    {
        LastCall {
            name: Front::of(b""),
            ending: None,
        }
    }

    /// A call for the file of a name.
    pub(crate) fn of(name: &str, ending: Ending) -> LastCall
        ensures { result ≡ Some (take 4096 name.now, ending) }
    {
        LastCall {
            name: Front::of(name.as_bytes()),
            ending: Some(ending),
        }
    }

    /// The front of the file's name, and how the call ended.
    pub fn told(&self) -> Option<(&[u8], Ending)>
        ensures { option_map (λ told. (told.0.now, told.1)) result ≡ self.now }
    {
        match self.ending {
            Some(ending) => Some((self.name.as_slice(), ending)),
            None => None,
        }
    }
}
