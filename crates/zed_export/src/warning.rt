//! What is odd about a world that can be saved.
ghost use Rattle.std.specs.Prelude.{◌≡◌, ◌<◌, ◌≤◌, ◌+◌, ◌++◌, [], length, OnOk, OnErr, MatchResult, vec_len};
ghost use Rattle.std.specs.Vec.{vec_capacity};
ghost use Rattle.zed_export.specs.Warnings.{is_player_at, has_place, place_warnings, board_warnings, boards_warnings, warnings_of};

use crate::error::ExportError;
use std::alloc::{AllocError, Global};
use zed_types::{PLAYER, TILES, Tile, has_tile, tile_at};
use zed_world::{BoardData, StatData, World};

/// What is odd about a world, though it can be saved.
#[derive(Clone, Copy, PartialEq, Eq)]
pub enum Warning {
    /// There is no player tile at the place of this board's player.
    PlayerTile(usize),
    /// On this board this stat is outside the table.
    OffBoard(usize, usize),
    /// On this board this stat has the place of a lower one.
    SamePlace(usize, usize),
}

/// Whether there is a player tile at a place. Outside the table there is none.
fn has_player(tiles: &[Tile; TILES], x: u8, y: u8) -> bool
    ensures { result ≡ is_player_at tiles.now x y }
{
    match tile_at(tiles, x, y) {
        Some(tile) => tile.element == PLAYER,
        None => false,
    }
}

/// Whether one of these stats has a place.
fn is_taken(stats: &[StatData], x: u8, y: u8) -> bool
    ensures { result ≡ has_place x y stats.now }
{
    stats.iter().any(|stat| stat.x == x && stat.y == y)
}

/// Appends the warnings on the places of the stats of a board.
fn add_places(out: &mut Vec<Warning>, number: usize, stats: &[StatData]) -> Result<(), AllocError>
    ensures ok { OnOk result (out.new.items ≡ out.old.items ++ place_warnings number [] stats.now) }
    ensures memory_only_when { OnErr result
        (vec_capacity out.old < vec_len out.old + length (place_warnings number [] stats.now)) }
    ensures capacity { vec_capacity out.old ≤ vec_capacity out.new }
{
    for (j, stat) in stats.iter().enumerate() {
        if !has_tile(stat.x, stat.y) {
            out.push(Warning::OffBoard(number, j))?;
        } else if is_taken(&stats[..j], stat.x, stat.y) {
            out.push(Warning::SamePlace(number, j))?;
        }
    }
    Ok(())
}

/// Appends the warnings on a board.
fn add_board(out: &mut Vec<Warning>, number: usize, board: &BoardData) -> Result<(), AllocError>
    ensures ok { OnOk result (out.new.items ≡ out.old.items ++ board_warnings number board.now) }
    ensures memory_only_when { OnErr result
        (vec_capacity out.old < vec_len out.old + length (board_warnings number board.now)) }
    ensures capacity { vec_capacity out.old ≤ vec_capacity out.new }
{
    let stats = board.stats.as_slice();
    if let Some(player) = stats.first() {
        if !has_player(&board.tiles, player.x, player.y) {
            out.push(Warning::PlayerTile(number))?;
        }
    }
    add_places(out, number, stats)
}

fn add_boards(out: &mut Vec<Warning>, boards: &[BoardData]) -> Result<(), AllocError>
    ensures ok { OnOk result (out.new.items ≡ out.old.items ++ boards_warnings 0 boards.now) }
    ensures memory_only_when { OnErr result
        (vec_capacity out.old < vec_len out.old + length (boards_warnings 0 boards.now)) }
{
    for (number, board) in boards.iter().enumerate() {
        add_board(out, number, board)?;
    }
    Ok(())
}

/// What is odd about a world. Board by board: PlayerTile if there is no player tile at its player's
/// place; then, stat by stat, OffBoard if the stat is outside the table, or else SamePlace if a
/// lower stat has its place. The only refusal is Memory. If nothing is odd, this takes no memory.
pub fn warnings(alloc: Global, world: &World) -> Result<Vec<Warning>, ExportError>
    ensures result { MatchResult result
        (λ warnings. warnings.items ≡ warnings_of world.now)
        (λ e. e ≡ ExportError.Memory) }
    ensures memory_only_when { OnErr result (0 < length (warnings_of world.now)) }
{
    let mut out = Vec::new(alloc);
    match add_boards(&mut out, world.boards()) {
        Ok(()) => Ok(out),
        Err(_) => Err(ExportError::Memory),
    }
}
