//! Stats of a board, read.
ghost use Rattle.std.specs.Prelude.{◌≡◌, ◌≤◌, length, drop, slice_get, []};
ghost use Rattle.zed_world.specs.Fields.{integer_at};
ghost use Rattle.zed_world.specs.Offsets.{is_passage_at, stat_with};
ghost use Rattle.zed_world.specs.Reading.{Gives, shared, code_of, code_at, stat_at, items_at};

use crate::error::WorldError;
use crate::fields::{board_number, integer_of, stat_integer};
use crate::stat::{Code, StatData};
use std::alloc::Global;
use zed_types::{Bytes, PASSAGE, Seq, TILES, Tile, tile_at};

/// Whether there is a passage at a place. Outside the table there is none.
#[tactic(auto, unfolding(crate::specs::Offsets::is_passage_at))]
pub fn is_passage(tiles: &[Tile; TILES], x: u8, y: u8) -> bool
    ensures { result ≡ is_passage_at tiles.now x y }
{
    match tile_at(tiles, x, y) {
        Some(tile) => tile.element == PASSAGE,
        None => false,
    }
}

/// The program of a stat that shares that of stat `n`.
fn share(n: u8, code: &Code) -> Code
    ensures { result ≡ shared n code.now }
{
    match code {
        Code::None => Code::None,
        Code::Own(_) => Code::Same(n),
        Code::Same(owner) => Code::Same(*owner),
    }
}

/// The program of the next stat by its length, and what follows it.
#[tactic(auto, unfolding(crate::specs::Reading::code_at))]
fn program_of<'a>(
    alloc: Global,
    done: &[StatData],
    bytes: &'a [u8],
) -> Result<(Code, &'a [u8]), WorldError>
    requires few { length done.now ≤ 151 }
    requires long { 33 ≤ length bytes.now }
    ensures { Gives (λ x. (x.0, x.1.now)) result
        (code_at done.now (integer_at bytes.now 23) (drop 33 bytes.now)) }
{
    let len = integer_of(bytes, 23);
    let (_, rest) = bytes.split_at(33);
    if len == 0 {
        return Ok((Code::None, rest));
    }
    if 0 < len {
        let len = len as usize;
        if rest.len() < len {
            return Err(WorldError::Truncated);
        }
        let (program, rest) = rest.split_at(len);
        return Ok((Code::Own(Bytes::from_slice(alloc, program)?), rest));
    }
    let n = usize::from(len.unsigned_abs());
    if done.len() <= n {
        return Err(WorldError::BadShare);
    }
    Ok((share(n as u8, &done[n].code), rest))
}

#[tactic(auto, unfolding(crate::specs::Offsets::stat_with))]
fn stat_of(boards: usize, stats: usize, tiles: &[Tile; TILES], bytes: &[u8], code: Code) -> StatData
    requires long { 33 ≤ length bytes.now }
    requires stats { stats ≤ 151 }
    ensures { result ≡ stat_with boards stats tiles.now bytes.now code }
{
    let p3 = if is_passage(tiles, bytes[0], bytes[1]) {
        board_number(boards, bytes[10])
    } else {
        bytes[10]
    };
    StatData {
        x: bytes[0],
        y: bytes[1],
        step_x: integer_of(bytes, 2),
        step_y: integer_of(bytes, 4),
        cycle: integer_of(bytes, 6),
        p1: bytes[8],
        p2: bytes[9],
        p3,
        follower: stat_integer(stats, integer_of(bytes, 11)),
        leader: stat_integer(stats, integer_of(bytes, 13)),
        under: Tile {
            element: bytes[15],
            colour: bytes[16],
        },
        position: integer_of(bytes, 21),
        code,
    }
}

/// The next stat after these, and what follows it.
#[tactic(auto, unfolding(crate::specs::Reading::stat_at))]
fn next_stat<'a>(
    alloc: Global,
    boards: usize,
    stats: usize,
    tiles: &[Tile; TILES],
    done: &[StatData],
    bytes: &'a [u8],
) -> Result<(StatData, &'a [u8]), WorldError>
    requires few { stats ≤ 151 }
    requires before { length done.now ≤ 151 }
    ensures { Gives (λ x. (x.0, x.1.now)) result
        (stat_at boards stats tiles.now done.now bytes.now) }
{
    if bytes.len() < 33 {
        return Err(WorldError::Truncated);
    }
    let (code, rest) = program_of(alloc, done, bytes)?;
    Ok((stat_of(boards, stats, tiles, bytes, code), rest))
}

pub(crate) fn stats_of(
    alloc: Global,
    boards: usize,
    stats: usize,
    tiles: &[Tile; TILES],
    bytes: &[u8],
) -> Result<Seq<StatData>, WorldError>
    requires { stats ≤ 151 }
    ensures { Gives (λ x. x) result (items_at (stat_at boards stats tiles.now) stats [] bytes.now) }
{
    let mut done = Vec::new(alloc);
    let mut rest = bytes;
    for _ in 0..stats {
        let (stat, after) = next_stat(alloc, boards, stats, tiles, &done, rest)?;
        done.push(stat)?;
        rest = after;
    }
    Ok(Seq::from_vec(done))
}
