//! Stats in play.
use crate::step::Step;
use zed_types::{Place, Tile};

/// A stat in play: something at a place that acts.
#[derive(Clone, Copy)]
pub struct Stat {
    /// Column and row; other numbers are outside the table.
    pub place: Place,
    pub step: Step,
    /// It ticks if this divides the tick; 0 for never.
    pub cycle: u16,
    pub p1: u8,
    pub p2: u8,
    pub p3: u8,
    pub follower: Option<usize>,
    pub leader: Option<usize>,
    /// What is underneath.
    pub under: Tile,
    /// Where in its program it is, or None after the end.
    pub position: Option<usize>,
    /// Which of the scene's programs it has. Stats that share a program have the same.
    pub program: Option<usize>,
}
