//! Numbers of elements that have rules of their own in play.

pub use zed_types::PLAYER;

pub const BULLET: u8 = 18;

pub const WATER: u8 = 19;

/// Walls that break.
pub const BREAKABLE: u8 = 23;
