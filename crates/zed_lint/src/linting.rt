//! What is found in a world, and its lines.
ghost use Rattle.std.specs.List.{AllByRecursion, flat_map};
ghost use Rattle.std.specs.Prelude.{◌≡◌, ◌<◌, ◌++◌, IfOk, OnErr, OnOk, length};
ghost use Rattle.zed_lint.specs.Lines.{lines_of};
ghost use Rattle.zed_lint.specs.Commands.{board_bytes};
ghost use Rattle.zed_lint.specs.Found.{Wants};
ghost use Rattle.zed_lint.specs.World.{board_findings, boards_findings, findings as found_in, programs_bytes};
ghost use Rattle.zed_world.specs.Normal.{IsWritable};

use crate::boards::{long_file, long_world_name, note_whole};
use crate::commands::words_of;
use crate::finding::{Finding, Spot};
use crate::lines::text_of;
use crate::noting::note;
use crate::size::file_len;
use crate::stats::note_stats;
use crate::tiles::note_tiles;
use crate::utf8::utf8_name;
use std::alloc::{AllocError, Global};
use zed_types::Bytes;
use zed_world::{BoardData, World};

#[tactic(auto, using(crate::proofs::Some::found, crate::proofs::Some::front, crate::proofs::Some::back, crate::proofs::Some::wants_back), unfolding(crate::specs::World::board_findings))]
fn note_board(
    found: &mut Vec<Finding>,
    held: &[Bytes],
    set: &[Bytes],
    number: usize,
    board: &BoardData,
) -> Result<(), AllocError>
    requires { IsWritable board.now }
    ensures ok { OnOk result
        (found.new.items ≡ found.old.items ++ board_findings held.now set.now number board.now) }
    ensures memory_only_when { OnErr result
        (Wants (board_findings held.now set.now number board.now) (board_bytes board.now)) }
{
    note_whole(found, number, board)?;
    note_tiles(found, number, board)?;
    note_stats(found, held, set, number, board)
}

#[tactic(auto, using(crate::proofs::Some::wants_member))]
fn note_boards(
    found: &mut Vec<Finding>,
    held: &[Bytes],
    set: &[Bytes],
    boards: &[BoardData],
) -> Result<(), AllocError>
    requires { AllByRecursion IsWritable boards.now }
    ensures ok { OnOk result
        (found.new.items ≡ found.old.items ++ boards_findings held.now set.now boards.now) }
    ensures memory_only_when { OnErr result
        (Wants (boards_findings held.now set.now boards.now) (flat_map board_bytes boards.now)) }
{
    for (number, board) in boards.iter().enumerate() {
        note_board(found, held, set, number, board)?;
    }
    Ok(())
}

/// The findings in a world: board by board those about the board, its tiles and its stats, and then
/// those about the file and its name. The only refusal is want of memory, and only if something is
/// found, or there are programs to be read.
#[tactic(auto, using(crate::proofs::Fits::writable, crate::proofs::Some::found, crate::proofs::Some::read, crate::proofs::Some::front, crate::proofs::Some::back, crate::proofs::Some::wants_front), unfolding(crate::specs::World::findings))]
pub fn findings(alloc: Global, world: &World) -> Result<Vec<Finding>, AllocError>
    ensures result { IfOk result (λ found. found.items ≡ found_in world.now) }
    ensures memory_only_when { OnErr result
        (Wants (found_in world.now) (programs_bytes world.now)) }
{
    let held = world.header().flags.as_slice();
    let set = words_of(alloc, world.boards())?;
    let mut found = Vec::new(alloc);
    note_boards(&mut found, held, &set, world.boards())?;
    note(&mut found, Spot::World, long_file(file_len(world)))?;
    let name = world.header().name.as_slice();
    note(&mut found, Spot::World, long_world_name(name.len()))?;
    note(&mut found, Spot::World, utf8_name(name))?;
    Ok(found)
}

/// Appends a line for each finding in a world, in the forms of docs/LINT.md, and answers how many
/// there are. The only refusal is want of memory, and only if something is found, or there are
/// programs to be read; then nothing is appended.
pub fn lint(world: &World, out: &mut Vec<u8>) -> Result<usize, AllocError>
    ensures ok { OnOk result (out.new.items ≡ out.old.items ++ lines_of world.now) }
    ensures count { IfOk result (λ n. n ≡ length (found_in world.now)) }
    ensures kept { OnErr result (out.new.items ≡ out.old.items) }
    ensures memory_only_when { OnErr result
        (Wants (found_in world.now) (programs_bytes world.now)) }
{
    let found = findings(*out.allocator(), world)?;
    if found.is_empty() {
        return Ok(0);
    }
    let text = text_of(*out.allocator(), &found)?;
    out.extend_from_slice(&text)?;
    Ok(found.len())
}
