//! A file that has the new bytes already is left as it is: it stays the same file, of the same time,
//! for those who watch it.
ghost use Rattle.std.specs.Prelude.{◌≡◌, IfOk, IfSome, true};
ghost use Rattle.std.specs.Io.KnownBytes.{Consumes};

use crate::named::{FoundFile, is_at};
use std::fs::{self, Metadata};
use std::io::{self, Read};

/// How many bytes are compared at a time.
const PIECE: usize = 4096;

// Whether a reader's next bytes are these. They are read into as much room.
fn is_next<R: Read>(reader: &mut R, room: &mut [u8], bytes: &[u8]) -> io::Result<bool>
    ensures { IfOk result (λ same. same ≡ true
        → Consumes (R.remaining reader.old) (R.remaining reader.new) bytes.now) }
{
    reader.read_exact(room)?;
    Ok(&*room == bytes)
}

// Whether all that is left in a reader is these bytes.
#[tactic(auto, using(crate::proofs::Compared::nothing_read, crate::proofs::Compared::piece_read, crate::proofs::Compared::all_read))]
fn is_rest<R: Read>(reader: &mut R, bytes: &[u8]) -> io::Result<bool>
    ensures { IfOk result (λ same. same ≡ true
        → IfSome (R.remaining reader.old) (λ left. left ≡ bytes.now)) }
{
    let mut piece = [0u8; PIECE];
    let mut left = bytes;
    while !left.is_empty() {
        let (front, rest) = left.split_at(left.len().min(PIECE));
        if !is_next(reader, &mut piece[..front.len()], front)? {
            return Ok(false);
        }
        left = rest;
    }
    Ok(reader.read(&mut piece)? == 0)
}

// Whether the file in a place is this one, and has these bytes.
fn has_bytes(rt: &HostRuntime, path: &str, bytes: &[u8]) -> io::Result<bool> {
    let mut file = fs::open(rt, path)?;
    Ok(is_at(rt, &file, path)? && is_rest(&mut file, bytes)?)
}

/// Whether the file in a place, of which this is known, has just these bytes. If that can't be told, it
/// counts as another one. This takes no memory.
pub(crate) fn has_already(
    rt: &HostRuntime,
    found: &FoundFile,
    there: &Metadata,
    bytes: &[u8],
) -> bool {
    there.len() == bytes.len() as u64 && matches!(has_bytes(rt, found.path(), bytes), Ok(true))
}
