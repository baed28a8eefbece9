//! Boards as a world file has them.
use crate::stat::StatData;
use zed_types::{Bytes, Seq, TILES, Tile};

/// What a board has once, beside its name.
#[derive(Drop)]
pub struct Properties {
    /// How many shots of the player may fly at a time.
    pub max_shots: u8,
    pub dark: bool,
    /// The number of the board to the north, or 0 for none; so the other three.
    pub north: u8,
    pub south: u8,
    pub west: u8,
    pub east: u8,
    /// Whether a player who is hurt goes back to the start.
    pub re_enter: bool,
    /// At most 58 bytes.
    pub message: Bytes,
    pub start_x: u8,
    pub start_y: u8,
    /// In seconds, 0 for none.
    pub time_limit: i16,
}

/// A board of a world.
#[derive(Drop)]
pub struct BoardData {
    /// At most 50 bytes.
    pub name: Bytes,
    /// Row after row, from the upper left.
    pub tiles: [Tile; TILES],
    pub properties: Properties,
    /// 1 to 151 stats, the player first.
    pub stats: Seq<StatData>,
}
