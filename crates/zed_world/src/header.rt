//! The header of a world.
use zed_types::{Bytes, Seq};

/// What comes before the boards: the player's counters, the flags that programs set, and the name
/// of the world.
#[derive(Drop)]
pub struct Header {
    pub ammo: i16,
    pub gems: i16,
    /// Which keys the player has: blue, green, cyan, red, purple, yellow, white.
    pub keys: [bool; 7],
    pub health: i16,
    /// The number of a board of the world.
    pub current_board: u8,
    pub torches: i16,
    /// How long the burning torch still burns.
    pub torch_ticks: i16,
    /// How long the energizer still works.
    pub energizer_ticks: i16,
    pub score: i16,
    /// At most 20 bytes.
    pub name: Bytes,
    /// Ten strings of at most 20 bytes; an empty one is free.
    pub flags: Seq<Bytes>,
    /// Seconds that were spent on the current board.
    pub time_passed: i16,
    pub hundredths: i16,
    /// Whether this is a saved game.
    pub saved: bool,
}
