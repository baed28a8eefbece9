//! The lines of boards.
ghost use Rattle.std.specs.Prelude.{◌≡◌, ◌-◌, ◌++◌, IfOk, OnErr, OnOk, length, slice_index_or};
ghost use Rattle.zed_log.specs.Boards.{board_line, board_lines, boards_text, exit, exits};

use crate::{put_number, put_quoted, put_text};
use std::alloc::{AllocError, Global};
use zed_world::{BoardData, Properties, World};

fn put_exit(out: &mut Vec<u8>, board: u8) -> Result<(), AllocError>
    ensures { OnOk result (out.new.items ≡ out.old.items ++ exit board) }
{
    if board == 0 {
        put_text(out, "-")
    } else {
        put_number(out, u64::from(board))
    }
}

#[tactic(auto, unfolding(crate::specs::Boards::exits))]
fn put_exits(out: &mut Vec<u8>, properties: &Properties) -> Result<(), AllocError>
    ensures { OnOk result (out.new.items ≡ out.old.items ++ exits properties.now) }
{
    put_text(out, "north ")?;
    put_exit(out, properties.north)?;
    put_text(out, " south ")?;
    put_exit(out, properties.south)?;
    put_text(out, " west ")?;
    put_exit(out, properties.west)?;
    put_text(out, " east ")?;
    put_exit(out, properties.east)
}

// How many stats stand beside the player.
fn stats_beside(board: &BoardData) -> usize
    ensures { result ≡ length board.now.stats - 1 }
{
    board.stats.as_slice().len().saturating_sub(1)
}

#[tactic(auto, unfolding(crate::specs::Boards::board_words))]
fn put_board(
    out: &mut Vec<u8>,
    number: usize,
    rank: u16,
    board: &BoardData,
) -> Result<(), AllocError>
    ensures { OnOk result (out.new.items ≡ out.old.items ++ board_line number rank board.now) }
{
    put_number(out, number as u64)?;
    put_text(out, "  rank ")?;
    put_number(out, u64::from(rank))?;
    put_text(out, "  stats ")?;
    put_number(out, stats_beside(board) as u64)?;
    put_text(out, "  ")?;
    put_exits(out, &board.properties)?;
    put_text(out, "  ")?;
    put_quoted(out, board.name.as_slice())?;
    put_text(out, "\n")
}

// The rank of a board by its number.
fn rank_of(ranks: &[u16], number: usize) -> u16
    ensures { result ≡ slice_index_or ranks.now number 0 }
{
    match ranks.get(number) {
        Some(rank) => *rank,
        None => 0,
    }
}

fn lines_of(alloc: Global, ranks: &[u16], boards: &[BoardData]) -> Result<Vec<u8>, AllocError>
    ensures { IfOk result (λ text. text.items ≡ board_lines ranks.now 0 boards.now) }
{
    let mut text = Vec::new(alloc);
    for (number, board) in boards.iter().enumerate() {
        put_board(&mut text, number, rank_of(ranks, number), board)?;
    }
    Ok(text)
}

/// Appends a line for each board of a world: its number, its rank, how many stats it has beside its
/// player, the numbers of the boards that its exits lead to, and its name. The ranks are those of
/// the boards in the order of their numbers; a board without one has rank 0. The only refusal is
/// want of memory; then nothing is appended.
pub fn boards(ranks: &[u16], world: &World, out: &mut Vec<u8>) -> Result<(), AllocError>
    ensures ok { OnOk result (out.new.items ≡ out.old.items ++ boards_text ranks.now world.now) }
    ensures kept { OnErr result (out.new.items ≡ out.old.items) }
{
    let text = lines_of(*out.allocator(), ranks, world.boards())?;
    out.extend_from_slice(&text)
}
