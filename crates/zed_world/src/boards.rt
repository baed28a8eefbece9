//! Reading boards.
ghost use Rattle.std.specs.Prelude.{◌≡◌, ◌+◌, ◌≤◌, pos, IfOk, IfErr, length, []};
ghost use Rattle.zed_types.specs.declared.tile.TheConstants.{TILES};
ghost use Rattle.zed_runs.specs.Reading.{tiles_at};
ghost use Rattle.zed_world.specs.Fields.{integer_at};
ghost use Rattle.zed_world.specs.Reading.{Gives, counted, found_or, items_at, board_with, board_at, body_at, next_board_at};

use crate::blocks::properties_of;
use crate::board::BoardData;
use crate::error::WorldError;
use crate::fields::{integer_of, string_of};
use crate::stats::stats_of;
use byteorder::{ByteOrder, LittleEndian};
use std::alloc::Global;
use zed_runs::read_runs;
use zed_types::{Bytes, READ_BODY_LIMIT, STATS_LIMIT, Seq, TILES, Tile};

/// A count that is neither negative nor over its limit.
pub(crate) fn count_of(
    most: usize,
    fault: WorldError,
    bytes: &[u8],
    at: usize,
) -> Result<usize, WorldError>
    requires few { most ≤ 150 }
    requires within { at + 2 ≤ length bytes.now }
    ensures result { result ≡ counted most fault (integer_at bytes.now at) }
    ensures within { IfOk result (λ n. (n ≤ most) × (integer_at bytes.now at ≡ pos n)) }
    ensures only_fault { IfErr result (λ e. e ≡ fault) }
{
    let n = integer_of(bytes, at);
    if 0 <= n && n as usize <= most {
        Ok(n as usize)
    } else {
        Err(fault)
    }
}

fn tiles_of(bytes: &[u8]) -> Result<([Tile; TILES], &[u8]), WorldError>
    ensures { Gives (λ x. (x.0, x.1.now)) result
        (found_or WorldError.Truncated (tiles_at TILES bytes.now)) }
{
    let found = read_runs(bytes)?;
    let tiles = found.0;
    Ok((tiles, &bytes[found.1..]))
}

#[tactic(auto, unfolding(crate::specs::Reading::board_with))]
fn board_after(
    alloc: Global,
    boards: usize,
    name: Bytes,
    tiles: [Tile; TILES],
    rest: &[u8],
) -> Result<BoardData, WorldError>
    ensures { Gives (λ x. x) result (board_with boards name tiles rest.now) }
{
    if rest.len() < 88 {
        return Err(WorldError::Truncated);
    }
    let others = count_of(STATS_LIMIT, WorldError::TooManyStats, rest, 86)?;
    let (_, after) = rest.split_at(88);
    let stats = stats_of(alloc, boards, others + 1, &tiles, after)?;
    let properties = properties_of(alloc, boards, rest)?;
    Ok(BoardData {
        name,
        tiles,
        properties,
        stats,
    })
}

#[tactic(auto, unfolding(crate::specs::Reading::board_at))]
fn board_of(alloc: Global, boards: usize, body: &[u8]) -> Result<BoardData, WorldError>
    ensures { Gives (λ x. x) result (board_at boards body.now) }
{
    if body.len() < 51 {
        return Err(WorldError::Truncated);
    }
    let name = string_of(alloc, 50, body, 0)?;
    let (_, rest) = body.split_at(51);
    let (tiles, rest) = tiles_of(rest)?;
    board_after(alloc, boards, name, tiles, rest)
}

/// The body of the next board by its size, and what follows it.
#[tactic(auto, unfolding(crate::specs::Reading::body_at))]
fn body_of(bytes: &[u8]) -> Result<(&[u8], &[u8]), WorldError>
    ensures { Gives (λ x. (x.0.now, x.1.now)) result (body_at bytes.now) }
{
    if bytes.len() < 2 {
        return Err(WorldError::Truncated);
    }
    let size = usize::from(LittleEndian::read_u16(bytes));
    if READ_BODY_LIMIT < size {
        return Err(WorldError::BadBoardSize);
    }
    let rest = &bytes[2..];
    if rest.len() < size {
        return Err(WorldError::Truncated);
    }
    Ok(rest.split_at(size))
}

/// The next board, and what follows it.
#[tactic(auto, unfolding(crate::specs::Reading::next_board_at))]
fn next_board(alloc: Global, boards: usize, bytes: &[u8]) -> Result<(BoardData, &[u8]), WorldError>
    ensures { Gives (λ x. (x.0, x.1.now)) result (next_board_at boards [] bytes.now) }
{
    let (body, rest) = body_of(bytes)?;
    let board = board_of(alloc, boards, body)?;
    Ok((board, rest))
}

pub(crate) fn boards_of(
    alloc: Global,
    boards: usize,
    bytes: &[u8],
) -> Result<Seq<BoardData>, WorldError>
    ensures { Gives (λ x. x) result (items_at (next_board_at boards) boards [] bytes.now) }
{
    let mut done = Vec::new(alloc);
    let mut rest = bytes;
    for _ in 0..boards {
        let (board, after) = next_board(alloc, boards, rest)?;
        done.push(board)?;
        rest = after;
    }
    Ok(Seq::from_vec(done))
}
