//! Stats as a world file has them.
ghost use Rattle.std.specs.Prelude.{◌≡◌};
ghost use Rattle.zed_world.specs.Contents.{standing};

use zed_types::{Bytes, Tile};

/// The program of a stat.
#[derive(Drop)]
pub enum Code {
    /// The stat has no program.
    None,
    /// Bytes of its own, 1 to 32,767 of them.
    Own(Bytes),
    /// The program of the stat of this number, a lower one past the player that has bytes of its own.
    Same(u8),
}

/// A stat of a board: something at a place that acts, or that keeps more than its tile.
#[derive(Drop)]
pub struct StatData {
    /// Column 1 to 60; other numbers are outside the table.
    pub x: u8,
    /// Row 1 to 25; other numbers are outside the table.
    pub y: u8,
    pub step_x: i16,
    pub step_y: i16,
    /// The stat acts in every tick that this divides; 0 for never.
    pub cycle: i16,
    pub p1: u8,
    pub p2: u8,
    /// Of a passage the number of a board of the world.
    pub p3: u8,
    /// The number of a stat of the board.
    pub follower: Option<u8>,
    /// The number of a stat of the board.
    pub leader: Option<u8>,
    /// What is underneath.
    pub under: Tile,
    /// Where in its program the stat is; -1 after its end.
    pub position: i16,
    pub code: Code,
}

impl StatData {
    /// A stat at a place, with an empty tile under it, that acts in every tick. It has no step,
    /// parameters, neighbours or program.
    pub fn standing(x: u8, y: u8) -> StatData
        ensures result { result ≡ standing x y }
    {
        StatData {
            x,
            y,
            step_x: 0,
            step_y: 0,
            cycle: 1,
            p1: 0,
            p2: 0,
            p3: 0,
            follower: None,
            leader: None,
            under: Tile::EMPTY,
            position: 0,
            code: Code::None,
        }
    }
}
