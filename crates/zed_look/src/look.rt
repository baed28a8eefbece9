//! Pictures of as many places as a board has, and what they are made from.

use zed_types::{COLUMNS, ROWS};

/// What is shown at one place.
#[derive(Clone, Copy)]
pub struct Spot {
    /// The number of a character of code page 437.
    pub character: u8,
    /// The colour of the character in the low four bits, that of its background in the next three, and the highest for blinking.
    pub attribute: u8,
}

/// A picture of the table of a board, row by row.
#[derive(Clone, Copy)]
pub struct Picture {
    pub rows: [[Spot; COLUMNS]; ROWS],
}

/// What a picture shows of a stat.
#[derive(Clone, Copy)]
pub struct Pose {
    pub p1: u8,
    pub step_x: i16,
    pub step_y: i16,
    /// 0 for one that never acts.
    pub cycle: u16,
}
