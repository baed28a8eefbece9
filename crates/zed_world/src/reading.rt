//! Reading a world file.
ghost use Rattle.std.specs.Prelude.{◌≡◌, ◌≤◌, IfOk, IfErr, length};
ghost use Rattle.zed_world.specs.FileText.{IsFileText};
ghost use Rattle.zed_world.specs.Reading.{BeginsAWorld, CountsBoards, Gives, contents_at, world_at};

use crate::blocks::header_of;
use crate::board::BoardData;
use crate::boards::{boards_of, count_of};
use crate::error::WorldError;
use crate::header::Header;
use crate::laws::files_are_read_by_place;
use crate::world::World;
use byteorder::{ByteOrder, LittleEndian};
use std::alloc::Global;
use zed_types::{BOARDS_LIMIT, Seq};

/// The header and the boards of a file that is long enough for a header.
#[tactic(auto, unfolding(crate::specs::Reading::contents_at))]
fn contents_of(alloc: Global, bytes: &[u8]) -> Result<(Header, Seq<BoardData>), WorldError>
    requires { 512 ≤ length bytes.now }
    ensures result { Gives (λ x. record { header = x.0; boards = x.1 }) result
        (contents_at bytes.now) }
    ensures memory_only_when { IfErr result (λ e. e ≡ WorldError.Memory → CountsBoards bytes.now) }
{
    let others = count_of(BOARDS_LIMIT, WorldError::TooManyBoards, bytes, 2)?;
    let (_, after) = bytes.split_at(512);
    let boards = boards_of(alloc, others + 1, after)?;
    let header = header_of(alloc, others + 1, bytes)?;
    Ok((header, boards))
}

/// The world that the bytes spell, or the first fault.
#[tactic(auto, unfolding(crate::specs::Reading::world_at))]
fn world_of(alloc: Global, bytes: &[u8]) -> Result<World, WorldError>
    ensures result { Gives (λ w. w) result (world_at bytes.now) }
    ensures memory_only_when { IfErr result (λ e. e ≡ WorldError.Memory → BeginsAWorld bytes.now) }
{
    if bytes.len() < 2 {
        return Err(WorldError::Truncated);
    }
    if LittleEndian::read_u16(bytes) != u16::MAX {
        return Err(WorldError::NotZzt);
    }
    if bytes.len() < 512 {
        return Err(WorldError::Truncated);
    }
    let (header, boards) = contents_of(alloc, bytes)?;
    Ok(World::spelled(header, boards))
}

/// Reads a world file, with all leniency.
///
/// A string longer than its field is cut to the field. A flag byte is true if it isn't 0. A number
/// of a board or a stat that isn't there is read as none. Chains of shared programs are followed to
/// the stat that has the bytes. Unused bytes, pointers, and what follows the last stat of a board
/// or the last board are dropped. Refusals, in order: `Truncated` below 2 bytes, `NotZzt`,
/// `Truncated` below 512 bytes, `TooManyBoards`, and then board by board `Truncated`,
/// `BadBoardSize`, `TooManyStats` and `BadShare`. `Memory` comes if a growth was refused, so never
/// before the boards are counted.
pub fn read_world(alloc: Global, bytes: &[u8]) -> Result<World, WorldError>
    ensures result { Gives (λ w. w) result (world_at bytes.now) }

    // The same by the places of the fields.
    ensures spelled { IfOk result (λ w. IsFileText w bytes.now) }

    // No growth is needed to tell what is wrong with the front of the file.
    ensures memory_only_when { IfErr result (λ e. e ≡ WorldError.Memory → BeginsAWorld bytes.now) }
{
    files_are_read_by_place();
    world_of(alloc, bytes)
}
