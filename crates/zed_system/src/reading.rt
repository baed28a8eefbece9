//! Reading a file to its end.
ghost use Rattle.std.specs.Prelude.{◌≡◌, ◌≤◌, ◌++◌, IfOk, OnOk, length};

use crate::causes::{endless, too_long};
use std::alloc::{AllocError, Global};
use std::io::{self, ErrorKind, Read};

/// A file that has not ended after so many reads is a failure.
const READS: u32 = 1_048_576;

/// Most bytes of one read.
const PIECE: usize = 4096;

/// Most bytes of one file: a longer one is a failure. So an endless file takes no more memory than
/// this, and fails within seconds. This is far above what authors have: a world file has less than
/// 4 MB, and a million edits have some 30 MB.
const MOST: usize = 268_435_456;

/// Why reading stopped.
#[derive(Drop)]
pub(crate) enum Stop {
    /// A growth was refused.
    Memory,
    /// There is no such file.
    Missing,
    /// The file is too long, or a device failed.
    Device(io::Error),
}

impl From<AllocError> for Stop {
    fn from(_error: AllocError) -> Stop {
        Stop::Memory
    }
}

impl From<io::Error> for Stop {
    fn from(error: io::Error) -> Stop {
        match error.kind() {
            ErrorKind::NotFound => Stop::Missing,
            _ => Stop::Device(error),
        }
    }
}

// Appends what was read to the bytes of a file, unless they are too many then.
fn take(bytes: &mut Vec<u8>, more: &[u8]) -> Result<(), Stop>
    requires { length bytes.old.items ≤ MOST }
    ensures taken { OnOk result (bytes.new.items ≡ bytes.old.items ++ more.now) }
    ensures within { OnOk result (length bytes.new.items ≤ MOST) }
{
    if more.len() > MOST - bytes.len() {
        return Err(Stop::Device(too_long()));
    }
    bytes.extend_from_slice(more)?;
    Ok(())
}

/// All that is left in a reader.
pub(crate) fn read_whole<R: Read>(alloc: Global, reader: &mut R) -> Result<Vec<u8>, Stop>
    ensures within { IfOk result (λ bytes. length bytes.items ≤ MOST) }
{
    let mut bytes = Vec::new(alloc);
    let mut piece = [0u8; PIECE];
    for _ in 0..READS {
        match reader.read(&mut piece) {
            Ok(0) => return Ok(bytes),
            Ok(count) => take(&mut bytes, &piece[..count])?,
            Err(error) if error.kind() == ErrorKind::Interrupted => {}
            Err(error) => return Err(Stop::Device(error)),
        }
    }
    Err(Stop::Device(endless()))
}
