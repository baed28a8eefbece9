//! Writing runs.
ghost use Rattle.std.specs.Prelude.{◌≡◌, ◌<◌, ◌≤◌, ◌+◌, ◌≢◌, [], ◌∷◌, ◌++◌, ℕ, List, length, take, replicate, slice_get, Some, OnOk, OnErr, IfErr, vec_len};
ghost use Rattle.std.specs.Vec.{vec_capacity};
ghost use Rattle.zed_runs.specs.Runs.{AppendsGreedy, NoRoomForGreedy, greedy};

use crate::error::RunsError;
use std::alloc::AllocError;
use zed_types::{TILES, Tile};

/// How many tiles the writer puts into one run at most.
const LONGEST: usize = 255;

/// How many tiles from the front on are the given one, up to the longest run.
fn run_len(tiles: &[Tile], tile: Tile) -> usize
    ensures longest { result ≤ 255 }
    ensures within { result ≤ length tiles.now }
    ensures same { take result tiles.now ≡ replicate result tile }
    ensures stops { result < 255 → slice_get tiles.now result ≢ Some tile }
{
    let mut len = 0;
    for other in tiles {
        if len == LONGEST || *other != tile {
            return len;
        }
        len += 1;
    }
    len
}

/// Appends one run.
fn push_run(len: usize, tile: Tile, out: &mut Vec<u8>) -> Result<(), AllocError>
    requires { len ≤ 255 }
    ensures ok { OnOk result
        (out.new.items ≡ out.old.items ++ len ∷ tile.element ∷ tile.colour ∷ []) }
    ensures err { OnErr result (out.new.items ≡ out.old.items) }
    ensures full { OnErr result (vec_capacity out.old < vec_len out.old + 3) }
    ensures capacity { vec_capacity out.old ≤ vec_capacity out.new }
{
    out.extend_from_slice(&[len as u8, tile.element, tile.colour])
}

/// Appends the greedy runs. Where memory runs out, some of them may have been appended.
fn push_runs(tiles: &[Tile], out: &mut Vec<u8>) -> Result<(), AllocError>
    ensures ok { OnOk result (out.new.items ≡ out.old.items ++ greedy tiles.now) }
    ensures err { OnErr result ((bytes : List ℕ) × (out.new.items ≡ out.old.items ++ bytes)) }
    ensures full { OnErr result
        (vec_capacity out.old < vec_len out.old + length (greedy tiles.now)) }
{
    let mut rest = tiles;
    while let Some(tile) = rest.first() {
        let len = run_len(rest, *tile);
        push_run(len, *tile, out)?;
        rest = &rest[len..];
    }
    Ok(())
}

/// How many bytes the greedy runs of the tiles take. Takes no memory.
pub fn runs_len(tiles: &[Tile; TILES]) -> usize
    ensures result { result ≡ length (greedy tiles.now) }
    ensures within { result ≤ 4500 }
{
    let mut rest: &[Tile] = tiles;
    let mut bytes = 0;
    while let Some(tile) = rest.first() {
        let len = run_len(rest, *tile);
        bytes += 3;
        rest = &rest[len..];
    }
    bytes
}

/// Appends the greedy runs of the tiles, row after row: each run is as long as it can be, up to 255
/// tiles.
///
/// `Memory` if a growth was refused; then nothing is appended.
pub fn write_runs(tiles: &[Tile; TILES], out: &mut Vec<u8>) -> Result<(), RunsError>
    ensures result { OnOk result (AppendsGreedy tiles.now out.old.items out.new.items) }
    ensures err { IfErr result (λ e. e ≡ RunsError.Memory) }
    ensures kept { OnErr result (out.new.items ≡ out.old.items) }

    // Only where the vector had no room for the text.
    ensures memory_only_when { OnErr result
        (NoRoomForGreedy tiles.now (vec_capacity out.old) (vec_len out.old)) }
{
    let before = out.len();
    match push_runs(tiles, out) {
        Ok(()) => Ok(()),
        Err(_) => {
            out.truncate(before);
            Err(RunsError::Memory)
        }
    }
}
