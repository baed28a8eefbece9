//! What is shown of a board.
ghost use Rattle.std.specs.Prelude.{◌≡◌, ◌<◌, find};
ghost use Rattle.zed_screen.specs.Picture.{attribute_of, character_as, data_cell, data_p1, look_of, or_mark, p1_at, place_of, scene_cell, stands_at};

use crate::frame::{Cell, SIDE};
use zed_oop::{Scene, tile_in};
use zed_types::{Look, Place, Tile, element};
use zed_world::{BoardData, StatData};

#[tactic(auto, unfolding(crate::specs::Picture::look_of))]
fn look_of(n: u8) -> Look
    ensures { result ≡ look_of n }
{
    element(n).character
}

/// The first parameter of a stat as a character; `?` without a stat.
fn or_mark(p1: Option<u8>) -> u8
    ensures { result ≡ or_mark p1 }
{
    match p1 {
        Some(p1) => p1,
        None => b'?',
    }
}

fn attribute_of(tile: Tile) -> u8
    ensures { result ≡ attribute_of tile }
{
    if tile.element == 0 || tile.element == 53 {
        0x0F
    } else if 47 <= tile.element && tile.element <= 52 {
        (tile.element - 46) * 16 + 15
    } else {
        tile.colour
    }
}

/// The place of the table that is shown in a column and a row of the screen.
fn place_of(column: u16, row: u16) -> Place
    requires column { column < 80 }
    requires row { row < 25 }
    ensures { result ≡ place_of column row }
{
    Place {
        x: (column + 1) as u8,
        y: (row + 1) as u8,
    }
}

/// The first parameter of the lowest stat at a place.
fn p1_at(scene: &Scene, place: Place) -> Option<u8>
    ensures { result ≡ p1_at scene.now place }
{
    let mut stats = scene.stats().iter();
    match stats.find(|s| s.place.x == place.x && s.place.y == place.y) {
        Some(stat) => Some(stat.p1),
        None => None,
    }
}

/// The character of a tile at a place of a board in play. Its stat is sought only if the tile shows a
/// parameter of it.
fn scene_character(scene: &Scene, tile: Tile, place: Place) -> u8
    ensures { result ≡ character_as (look_of tile.element) tile.colour (p1_at scene.now place) }
{
    match look_of(tile.element) {
        Look::Character(c) => c,
        Look::FirstParameter => or_mark(p1_at(scene, place)),
        Look::Colour => tile.colour,
    }
}

/// The place `k` of the screen for a board in play.
#[tactic(auto, unfolding(crate::specs::Picture::scene_cell))]
pub(crate) fn scene_cell(scene: &Scene, k: u16) -> Cell
    requires { k < 2000 }
    ensures { result ≡ scene_cell scene.now k }
{
    if k % 80 >= 60 {
        return SIDE;
    }
    let place = place_of(k % 80, k / 80);
    let tile = scene.tile(place);
    Cell {
        character: scene_character(scene, tile, place),
        attribute: attribute_of(tile),
    }
}

/// The first parameter of the lowest stat at a place.
fn data_p1_at(stats: &[StatData], place: Place) -> Option<u8>
    ensures { result ≡ data_p1 (find (stands_at place) stats.now) }
{
    match stats.iter().find(|s| s.x == place.x && s.y == place.y) {
        Some(stat) => Some(stat.p1),
        None => None,
    }
}

/// The character of a tile at a place of a world's board. Its stat is sought only if the tile shows a
/// parameter of it.
fn data_character(stats: &[StatData], tile: Tile, place: Place) -> u8
    ensures { result ≡ character_as (look_of tile.element) tile.colour
        (data_p1 (find (stands_at place) stats.now)) }
{
    match look_of(tile.element) {
        Look::Character(c) => c,
        Look::FirstParameter => or_mark(data_p1_at(stats, place)),
        Look::Colour => tile.colour,
    }
}

/// The place `k` of the screen for a board of a world.
#[tactic(auto, unfolding(crate::specs::Picture::data_cell))]
pub(crate) fn data_cell(board: &BoardData, k: u16) -> Cell
    requires { k < 2000 }
    ensures { result ≡ data_cell board.now k }
{
    if k % 80 >= 60 {
        return SIDE;
    }
    let place = place_of(k % 80, k / 80);
    let tile = tile_in(&board.tiles, place);
    Cell {
        character: data_character(board.stats.as_slice(), tile, place),
        attribute: attribute_of(tile),
    }
}
