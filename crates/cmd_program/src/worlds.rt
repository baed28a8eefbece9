//! A world with another program for a stat.
ghost use Rattle.std.specs.Prelude.{◌≡◌, ◌<◌, ◌⊎◌, IfErr, MatchResult, Err, Ok, length, option_map, slice_get};
ghost use Rattle.zed_world.specs.Normal.{HasNormalParts, HasShortBody, IsNormalBoard};
ghost use Rattle.cmd_program.specs.Sizes.{CanBeCounted};
ghost use Rattle.cmd_program.specs.Worlds.{Fits, HasStat, IsReprogrammed, world_with};

use crate::codes::owner_of;
use crate::copies::{copy_boards, copy_header, recoded_board};
use crate::error::ReprogramError;
use crate::sizes::within_limit;
use std::alloc::Global;
use zed_world::{BoardData, StatData, World};

// The board of a number, if there is one.
fn board_at(world: &World, number: u16) -> Option<&BoardData>
    ensures found { option_map (λ b. b.now) result ≡ slice_get world.now.boards number }
    ensures normal { HasNormalParts world.now }
{
    world.boards().get(usize::from(number))
}

// The stat of a number, if there is one.
fn stat_at(board: &BoardData, number: u16) -> Option<&StatData>
    ensures { option_map (λ s. s.now) result ≡ slice_get board.now.stats number }
{
    board.stats.as_slice().get(usize::from(number))
}

// No memory has room for 2^63 bytes.
fn length_of(program: &[u8]) -> usize
    ensures { length program.now < 9223372036854775808 }
{
    program.len()
}

// A world with another board in the place of one, unless a board is over the limit then.
fn with_board(
    alloc: Global,
    world: &World,
    number: usize,
    changed: BoardData,
) -> Result<World, ReprogramError>
    requires within { number < length world.now.boards }
    requires counted { CanBeCounted changed }
    requires normal { HasShortBody changed
        → IsNormalBoard (length world.now.boards) changed }
    ensures { MatchResult result
        (λ w. Fits (world_with world.now number changed) (Ok w))
        (λ e. (e ≡ ReprogramError.Memory)
        ⊎ Fits (world_with world.now number changed) (Err e)) }
{
    let mut boards = copy_boards(alloc, world.boards())?;
    boards.set(number, changed);
    if let Err(over) = within_limit(boards.as_slice()) {
        return Err(ReprogramError::BoardOver {
            board: over.board,
            bytes: over.bytes,
        });
    }
    let header = copy_header(alloc, world.header())?;
    Ok(World::new(header, boards))
}

/// The world with another program for a stat, given by the numbers of its board and of itself. All
/// stats that share the old program share the new one. A program without bytes is none. All else is
/// as it was.
///
/// Refusals, in order: NoBoard if there is no such board; NoSuch if the board has no such stat;
/// BoardOver for the first board that would have more than the 32,767 bytes that a file can spell.
/// Memory comes only if the stat is there.
pub fn with_program(
    alloc: Global,
    world: &World,
    board: u16,
    stat: u16,
    program: &[u8],
) -> Result<World, ReprogramError>
    ensures result { MatchResult result
        (λ w. IsReprogrammed world.now board stat program.now (Ok w))
        (λ e. (e ≡ ReprogramError.Memory)
        ⊎ IsReprogrammed world.now board stat program.now (Err e)) }
    ensures memory_only_when { IfErr result (λ e.
        e ≡ ReprogramError.Memory → HasStat world.now board stat) }
{
    let Some(old) = board_at(world, board) else {
        return Err(ReprogramError::NoBoard);
    };
    let Some(given) = stat_at(old, stat) else {
        return Err(ReprogramError::NoSuch);
    };
    // Its contract says that the bytes of the board can be counted.
    length_of(program);
    let owner = owner_of(stat, &given.code);
    let changed = recoded_board(alloc, owner, program, old)?;
    with_board(alloc, world, usize::from(board), changed)
}
