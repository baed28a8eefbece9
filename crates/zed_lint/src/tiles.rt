//! Findings about tiles.
ghost use Rattle.std.specs.Prelude.{◌≡◌, ◌<◌, ◌≤◌, ◌++◌, OnErr, OnOk, length, take};
ghost use Rattle.zed_lint.specs.Found.{each_from};
ghost use Rattle.zed_lint.specs.Tiles.{bare, has_element, has_stat, tile_findings, tiles_findings, unknown, wants_stat};
ghost use Rattle.zed_types.specs.Table.{place_at};

use crate::boards::count_of;
use crate::finding::{Finding, Spot, What};
use crate::noting::note;
use std::alloc::AllocError;
use zed_types::{COLUMNS, Place, Tile};
use zed_world::{BoardData, StatData};

/// The last element that ZZT knows.
const LAST_ELEMENT: u8 = 53;

/// Whether ZZT gives an element a stat.
pub(crate) fn wants_stat(element: u8) -> bool
    ensures { result ≡ wants_stat element }
{
    matches!(element, 4 | 10..=13 | 15..=18 | 29 | 30 | 34..=42 | 44 | 45)
}

// The place of tile i of a table.
fn place_at(i: usize) -> Place
    requires { i < 1500 }
    ensures { result ≡ place_at i }
{
    Place {
        x: (i % COLUMNS) as u8 + 1,
        y: (i / COLUMNS) as u8 + 1,
    }
}

// Whether one of these tiles has an element.
fn has_element(tiles: &[Tile], element: u8) -> bool
    ensures { result ≡ has_element tiles.now element }
{
    tiles.iter().any(|tile| tile.element == element)
}

// An element that ZZT doesn't know, at the first tile that has it.
fn unknown(all: &[Tile], before: &[Tile], tile: Tile) -> Option<What>
    ensures { result ≡ unknown all.now before.now tile }
{
    if LAST_ELEMENT < tile.element && !has_element(before, tile.element) {
        Some(What::UnknownElement(count_of(tile.element, all)))
    } else {
        None
    }
}

// Whether one of these stats has a place.
fn has_stat(stats: &[StatData], place: Place) -> bool
    ensures { result ≡ has_stat stats.now place }
{
    stats
        .iter()
        .any(|stat| stat.x == place.x && stat.y == place.y)
}

// A tile that wants a stat, if there is none at its place.
fn bare(stats: &[StatData], place: Place, tile: Tile) -> Option<What>
    ensures { result ≡ bare stats.now place tile }
{
    if wants_stat(tile.element) && !has_stat(stats, place) {
        Some(What::NoStat)
    } else {
        None
    }
}

#[tactic(auto, using(crate::proofs::Some::front, crate::proofs::Some::back), unfolding(crate::specs::Tiles::tile_findings))]
fn note_tile(
    found: &mut Vec<Finding>,
    number: usize,
    board: &BoardData,
    i: usize,
    tile: Tile,
) -> Result<(), AllocError>
    requires { i < 1500 }
    ensures ok { OnOk result
        (found.new.items ≡ found.old.items ++ tile_findings number board.now i tile) }
    ensures memory_only_when { OnErr result (0 < length (tile_findings number board.now i tile)) }
{
    let place = place_at(i);
    let spot = Spot::Tile(number, place, tile);
    note(found, spot, unknown(&board.tiles, &board.tiles[..i], tile))?;
    note(found, spot, bare(board.stats.as_slice(), place, tile))
}

fn note_each(
    found: &mut Vec<Finding>,
    number: usize,
    board: &BoardData,
    tiles: &[Tile],
) -> Result<(), AllocError>
    requires { length tiles.now ≤ 1500 }
    ensures ok { OnOk result
        (found.new.items
        ≡ found.old.items ++ each_from (tile_findings number board.now) 0 tiles.now) }
    ensures memory_only_when { OnErr result
        (0 < length (each_from (tile_findings number board.now) 0 tiles.now)) }
{
    for (i, tile) in tiles.iter().enumerate() {
        note_tile(found, number, board, i, *tile)?;
    }
    Ok(())
}

/// Notes the findings about the tiles of a board, row after row.
pub(crate) fn note_tiles(
    found: &mut Vec<Finding>,
    number: usize,
    board: &BoardData,
) -> Result<(), AllocError>
    ensures ok { OnOk result
        (found.new.items ≡ found.old.items ++ tiles_findings number board.now) }
    ensures memory_only_when { OnErr result (0 < length (tiles_findings number board.now)) }
{
    note_each(found, number, board, &board.tiles)
}
