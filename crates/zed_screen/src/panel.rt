//! What is written beside a board in play.
ghost use Rattle.std.specs.Prelude.{◌≡◌, ◌<◌, ◌≤◌, ◌^◌};
ghost use Rattle.zed_screen.specs.Panel.{figure, has_digit, is_on_panel, label_of, panel_byte, play_cell, value_of};

use crate::frame::Cell;
use crate::picture::scene_cell;
use zed_play::Play;

fn label_of(row: u16) -> &'static [u8]
    ensures { result.now ≡ label_of row }
{
    match row {
        0 => b"Health",
        1 => b"Ammo",
        2 => b"Torches",
        3 => b"Gems",
        4 => b"Score",
        _ => b"Tick",
    }
}

/// A power of ten.
fn power(k: u16) -> u32
    requires { k ≤ 5 }
    ensures result { result ≡ 10 ^ k }
    ensures positive { 0 < result }
{
    match k {
        0 => 1,
        1 => 10,
        2 => 100,
        3 => 1000,
        4 => 10000,
        _ => 100000,
    }
}

fn has_digit(n: u32, k: u16) -> bool
    requires { k ≤ 5 }
    ensures { result ≡ has_digit n k }
{
    k == 0 || power(k) <= n
}

/// The byte at the place `k` from the right.
fn figure(value: i32, k: u16) -> u8
    requires { k ≤ 5 }
    ensures { result ≡ figure value k }
{
    let size = value.unsigned_abs();
    if has_digit(size, k) {
        48 + (size / power(k) % 10) as u8
    } else if value < 0 && has_digit(size, k - 1) {
        b'-'
    } else {
        b' '
    }
}

fn panel_byte(label: &[u8], value: i32, i: u16) -> u8
    requires { i < 14 }
    ensures { result ≡ panel_byte label.now value i }
{
    if i < 8 {
        match label.get(usize::from(i)) {
            Some(byte) => *byte,
            None => b' ',
        }
    } else {
        figure(value, 13 - i)
    }
}

fn is_on_panel(column: u16, row: u16) -> bool
    ensures { result ≡ is_on_panel column row }
{
    62 <= column && column < 76 && row < 6
}

fn value_of(row: u16, play: &Play) -> i32
    ensures { result ≡ value_of row play.now }
{
    let counters = play.counters().counters;
    match row {
        0 => i32::from(counters.health),
        1 => i32::from(counters.ammo),
        2 => i32::from(counters.torches),
        3 => i32::from(counters.gems),
        4 => i32::from(counters.score),
        _ => i32::from(play.tick()),
    }
}

/// What the picture of a playtest shows in the place `k` of the screen, counted row by row from 0: the
/// whole picture is `draw_play`.
#[tactic(auto, unfolding(crate::specs::Panel::play_cell))]
pub fn play_cell(play: &Play, k: u16) -> Cell
    requires { k < 2000 }
    ensures { result ≡ play_cell play.now k }
{
    if is_on_panel(k % 80, k / 80) {
        Cell {
            character: panel_byte(label_of(k / 80), value_of(k / 80, play), k % 80 - 62),
            attribute: 0x1F,
        }
    } else {
        scene_cell(play.board(), k)
    }
}
