//! The counters of a player.

/// Six numbers that programs give and take.
#[derive(Clone, Copy, PartialEq, Eq)]
pub struct Counters {
    pub health: i16,
    pub ammo: i16,
    pub gems: i16,
    pub torches: i16,
    pub score: i16,
    pub time: i16,
}
