//! Writing a world file.
ghost use Rattle.std.specs.Prelude.{◌≡◌, ◌+◌, ◌<◌, ◌≤◌, ◌++◌, length, FitsSigned, OnOk, IfOk, IfErr};
ghost use Rattle.std.specs.Int.{w16};
ghost use Rattle.std.specs.List.{flat_map, AllByRecursion};
ghost use Rattle.zed_types.specs.declared.limits.TheConstants.{READ_BODY_LIMIT};
ghost use Rattle.zed_runs.specs.Runs.{greedy};
ghost use Rattle.zed_world.specs.Reading.{Gives, world_at};
ghost use Rattle.zed_world.specs.Writing.{HasText, code_length, stat_text, body_text, board_text, world_text, written};
ghost use Rattle.zed_world.specs.Normal.{HasNormalParts, HasShortBody, IsWritable};
ghost use Rattle.zed_world.specs.Canonical.{IsCanonical};

use crate::board::BoardData;
use crate::error::WorldError;
use crate::header::Header;
use crate::laws::written_is_read;
use crate::put::{put_header, put_number, put_properties, put_stat, put_string};
use crate::size::within_limit;
use crate::stat::StatData;
use crate::world::World;
use byteorder::{ByteOrder, LittleEndian};
use std::alloc::{AllocError, Global};
use zed_runs::{greedy_is_the_one, write_runs};
use zed_types::{TILES, Tile};

fn put_stats(out: &mut Vec<u8>, stats: &[StatData]) -> Result<(), AllocError>
    requires { AllByRecursion (λ s. FitsSigned w16 (code_length s.code)) stats.now }
    ensures { OnOk result (out.new.items ≡ out.old.items ++ flat_map stat_text stats.now) }
{
    for stat in stats {
        put_stat(out, stat)?;
    }
    Ok(())
}

/// Appends the greedy runs of a table.
fn put_tiles(out: &mut Vec<u8>, tiles: &[Tile; TILES]) -> Result<(), WorldError>
    ensures result { OnOk result (out.new.items ≡ out.old.items ++ greedy tiles.now) }
    ensures err { IfErr result (λ e. e ≡ WorldError.Memory) }
{
    greedy_is_the_one();
    write_runs(tiles, out)?;
    Ok(())
}

/// Appends the body of a board.
#[tactic(auto, unfolding(crate::specs::Writing::body_text))]
fn put_body(out: &mut Vec<u8>, board: &BoardData) -> Result<(), WorldError>
    requires { IsWritable board.now }
    ensures result { OnOk result (out.new.items ≡ out.old.items ++ body_text board.now) }
    ensures err { IfErr result (λ e. e ≡ WorldError.Memory) }
{
    put_string(out, 50, &board.name)?;
    put_tiles(out, &board.tiles)?;
    put_properties(out, &board.properties)?;
    let stats = board.stats.as_slice();
    put_number(out, (stats.len() - 1) as u8)?;
    put_stats(out, stats)?;
    Ok(())
}

/// Appends a board.
#[tactic(auto, unfolding(crate::specs::Writing::board_text))]
fn put_board(alloc: Global, out: &mut Vec<u8>, board: &BoardData) -> Result<(), WorldError>
    requires writable { IsWritable board.now }
    requires short { HasShortBody board.now }
    ensures result { OnOk result (out.new.items ≡ out.old.items ++ board_text board.now) }
    ensures err { IfErr result (λ e. e ≡ WorldError.Memory) }
{
    let mut body = Vec::new(alloc);
    put_body(&mut body, board)?;
    let mut size = [0; 2];
    LittleEndian::write_u16(&mut size, body.len() as u16);
    out.extend_from_slice(&size)?;
    out.extend_from_slice(&body)?;
    Ok(())
}

/// Appends the boards.
fn put_boards(alloc: Global, out: &mut Vec<u8>, boards: &[BoardData]) -> Result<(), WorldError>
    requires writable { AllByRecursion IsWritable boards.now }
    requires short { AllByRecursion HasShortBody boards.now }
    ensures result { OnOk result (out.new.items ≡ out.old.items ++ flat_map board_text boards.now) }
    ensures err { IfErr result (λ e. e ≡ WorldError.Memory) }
{
    for board in boards {
        put_board(alloc, out, board)?;
    }
    Ok(())
}

/// The text of a world of short bodies.
#[tactic(auto, unfolding(crate::specs::Writing::world_text))]
fn text_of(alloc: Global, header: &Header, boards: &[BoardData]) -> Result<Vec<u8>, WorldError>
    requires parts { HasNormalParts (record { header = header.now; boards = boards.now }) }
    requires writable { AllByRecursion IsWritable boards.now }
    requires short { AllByRecursion HasShortBody boards.now }
    ensures result { IfOk result (λ v.
        v.items ≡ world_text (record { header = header.now; boards = boards.now })) }
    ensures err { IfErr result (λ e. e ≡ WorldError.Memory) }
{
    let mut out = Vec::new(alloc);
    put_header(&mut out, (boards.len() - 1) as u8, header)?;
    put_boards(alloc, &mut out, boards)?;
    Ok(out)
}

/// Writes the one text of a world.
///
/// The limit is the most bytes that the body of a board may have. It is at most 32,767, the most
/// that `read_world` takes. `BoardOver` for the first board whose body has more, with its number
/// and its bytes; then `Memory` if a growth was refused. Unused bytes and pointers are 0, flags are
/// 0 or 1, runs are greedy, and a shared program is written with the stat that owns it.
pub fn write_world(alloc: Global, world: &World, limit: usize) -> Result<Vec<u8>, WorldError>
    requires { limit ≤ READ_BODY_LIMIT }
    ensures result { Gives (λ v. v.items) result (written limit world.now) }

    // What is written is read again.
    ensures back { IfOk result (λ v. world_at v.items ≡ Ok world.now) }
    ensures canonical { IfOk result (λ v. IsCanonical v.items) }

    // No growth is needed to tell that a board is over the limit.
    ensures memory_only_when { IfErr result (λ e. e ≡ WorldError.Memory → HasText limit world.now) }
{
    written_is_read();
    let header = world.header();
    let boards = world.boards();
    within_limit(limit, boards)?;
    text_of(alloc, header, boards)
}
