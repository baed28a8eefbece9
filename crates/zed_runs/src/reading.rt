//! Reading runs.
ghost use Rattle.std.specs.Prelude.{◌≡◌, ◌<◌, ◌≤◌, ◌+◌, ◌-◌, ◌++◌, ℕ, List, length, take, drop, replicate, Some, None, IfOk, IfErr, OnErr};
ghost use Rattle.zed_types.specs.declared.tile.Tile.{Tile};
ghost use Rattle.zed_types.specs.declared.tile.TheConstants.{TILES};
ghost use Rattle.zed_runs.specs.Runs.{Runs, EachFront, tiles_of_count};
ghost use Rattle.zed_runs.specs.Reading.{tiles_at};

use crate::error::RunsError;
use zed_types::{TILES, Tile};

/// How many tiles a count means.
fn tiles_of(count: u8) -> usize
    ensures { result ≡ tiles_of_count count }
{
    if count == 0 { 256 } else { usize::from(count) }
}

/// Reads the runs at the front of the bytes, and answers how many bytes they take. Any bytes may
/// follow them.
///
/// A run is a count, an element and a colour, a byte each. Count 0 means 256 tiles. The run that
/// fills the board may have more tiles than are needed. `Truncated` if the bytes end before the
/// board is full. Takes no memory.
pub fn read_runs(bytes: &[u8]) -> Result<([Tile; TILES], usize), RunsError>
    ensures within { IfOk result (λ found. found.1 ≤ length bytes.now) }
    ensures tiles { IfOk result (λ x. tiles_at TILES bytes.now ≡ Some (x.0, drop x.1 bytes.now)) }
    ensures result { IfOk result (λ found. Runs found.0 (take found.1 bytes.now)) }

    // Each text of runs at the front is read as what it stands for.
    ensures reads { EachFront bytes.now (λ tiles len. result ≡ Ok (tiles, len)) }
    ensures exact_fault { OnErr result (tiles_at TILES bytes.now ≡ None) }
    ensures none { OnErr result ((tiles : List Tile) (len : ℕ)
        → Runs tiles (take len bytes.now) → ⊥) }
    ensures truncated { IfErr result (λ e. e ≡ RunsError.Truncated) }
{
    let mut tiles = [Tile {
        element: 0,
        colour: 0,
    }; TILES];
    let mut filled = 0;
    let mut used = 0;
    loop {
        let [count, element, colour, ..] = &bytes[used..] else {
            return Err(RunsError::Truncated);
        };
        let tile = Tile {
            element: *element,
            colour: *colour,
        };
        let end = filled + tiles_of(*count);
        used += 3;
        if TILES <= end {
            tiles[filled..].fill(tile);
            return Ok((tiles, used));
        }
        tiles[filled..end].fill(tile);
        filled = end;
    }
}
