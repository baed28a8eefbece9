//! How a tile looks.
ghost use Rattle.std.specs.Prelude.{◌≡◌, ◌<◌, slice_index_or};
ghost use Rattle.zed_look.specs.Tiles.{attribute_of, bomb, character_of, clockwise, counter, duplicator, eighth, frame, gun, level, line, next_star, pusher, spot_of, star, still, transporter, upright};

use crate::look::{Pose, Spot};
use zed_types::Tile;

/// The characters of the elements from 0 on, as ZZT's editor has them.
const CHARACTERS: [u8; 47] = [
    32, 32, 32, 32, 2, 132, 157, 4, 12, 10, 232, 240, 250, 11, 127, 83, 47, 92, 248, 176, 176, 219,
    178, 177, 254, 18, 29, 178, 176, 206, 197, 206, 42, 205, 153, 5, 2, 42, 94, 24, 16, 234, 227,
    186, 233, 79, 32,
];

/// The character of a number in a table, or a blank.
fn character_in(table: &[u8], element: u8) -> u8
    ensures { result ≡ slice_index_or table.now element 32 }
{
    match table.get(usize::from(element)) {
        Some(character) => *character,
        None => b' ',
    }
}

fn still(element: u8) -> u8
    ensures { result ≡ still element }
{
    character_in(&CHARACTERS, element)
}

fn duplicator(p1: u8) -> u8
    ensures { result ≡ duplicator p1 }
{
    match p1 {
        2 => 249,
        3 => 248,
        4 => 111,
        5 => 79,
        _ => 250,
    }
}

fn bomb(p1: u8) -> u8
    ensures { result ≡ bomb p1 }
{
    if p1 <= 1 { 11 } else { p1.wrapping_add(48) }
}

fn star(tick: u16) -> u8
    ensures { result ≡ star tick }
{
    match tick % 4 {
        0 => 179,
        1 => 47,
        2 => 196,
        _ => 92,
    }
}

fn clockwise(tick: u16) -> u8
    ensures { result ≡ clockwise tick }
{
    star(tick / 3)
}

fn counter(tick: u16) -> u8
    ensures { result ≡ counter tick }
{
    match tick / 2 % 4 {
        0 => 92,
        1 => 196,
        2 => 47,
        _ => 179,
    }
}

fn gun(tick: u16) -> u8
    ensures { result ≡ gun tick }
{
    match tick / 2 % 4 {
        0 => 24,
        1 => 26,
        2 => 25,
        _ => 27,
    }
}

fn pusher(pose: Pose) -> u8
    ensures { result ≡ pusher pose }
{
    if pose.step_x == 1 {
        16
    } else if pose.step_x == -1 {
        17
    } else if pose.step_y == -1 {
        30
    } else {
        31
    }
}

/// Which of four pictures is shown in a tick.
fn frame(tick: u16, cycle: u16) -> u16
    ensures result { result ≡ frame tick cycle }
    ensures within { result < 4 }
{
    if cycle == 0 { 0 } else { tick / cycle % 4 }
}

/// The characters of transporters to the north and south.
const UPRIGHT: [u8; 8] = [94, 126, 94, 45, 118, 95, 118, 95];

/// The same to the west and east.
const LEVEL: [u8; 8] = [40, 60, 40, 179, 41, 62, 41, 179];

/// The character of a number in a table, or a transporter's own.
fn one_of(table: &[u8], index: usize) -> u8
    ensures { result ≡ slice_index_or table.now index 197 }
{
    match table.get(index) {
        Some(character) => *character,
        None => 197,
    }
}

/// One of eight characters by a step: -1 begins with the first of them, and each step more two later.
fn eighth(eight: &[u8], step: i16, k: u16) -> u8
    requires { k < 4 }
    ensures { result ≡ eighth eight.now step k }
{
    let k = usize::from(k);
    match step {
        -1 => one_of(eight, k),
        0 => one_of(eight, 2 + k),
        1 => one_of(eight, 4 + k),
        2 => one_of(eight, 6 + k),
        _ => 197,
    }
}

fn transporter(pose: Pose, tick: u16) -> u8
    ensures { result ≡ transporter pose tick }
{
    let k = frame(tick, pose.cycle);
    if pose.step_x == 0 {
        eighth(&UPRIGHT, pose.step_y, k)
    } else {
        eighth(&LEVEL, pose.step_x, k)
    }
}

fn line(joined: u8) -> u8
    ensures { result ≡ line joined }
{
    match joined {
        0 => 249,
        1 => 208,
        2 => 210,
        3 => 186,
        4 => 181,
        5 => 188,
        6 => 187,
        7 => 185,
        8 => 198,
        9 => 200,
        10 => 201,
        11 => 204,
        12 => 205,
        13 => 202,
        14 => 203,
        _ => 206,
    }
}

fn character_of(tile: Tile, pose: Pose, joined: u8, tick: u16) -> u8
    ensures { result ≡ character_of tile pose joined tick }
{
    match tile.element {
        12 => duplicator(pose.p1),
        13 => bomb(pose.p1),
        15 => star(tick),
        16 => clockwise(tick),
        17 => counter(tick),
        30 => transporter(pose, tick),
        31 => line(joined),
        36 => pose.p1,
        39 => gun(tick),
        40 => pusher(pose),
        element if 47 <= element => tile.colour,
        element => still(element),
    }
}

fn next_star(colour: u8) -> u8
    ensures { result ≡ next_star colour }
{
    let next = colour.wrapping_add(1);
    if 15 < next { 9 } else { next }
}

fn attribute_of(tile: Tile) -> u8
    ensures { result ≡ attribute_of tile }
{
    if tile.element == 0 || tile.element == 53 {
        15
    } else if tile.element == 15 {
        next_star(tile.colour)
    } else if 47 <= tile.element {
        (((u32::from(tile.element) - 46) * 16 + 15) % 256) as u8
    } else {
        tile.colour
    }
}

/// What is shown of a tile.
pub(crate) fn spot_of(tile: Tile, pose: Pose, joined: u8, tick: u16) -> Spot
    ensures { result ≡ spot_of tile pose joined tick }
{
    Spot {
        character: character_of(tile, pose, joined, tick),
        attribute: attribute_of(tile),
    }
}
