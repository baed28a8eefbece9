//! Values under names, and the stats of a board by name, with a register for each field.
#![tactic(auto)]

mod field;
mod laws;
mod map;
mod named;
mod stat;
mod stats;

pub use field::StatField;
pub use laws::fields_hold_the_latest;
pub use map::{add, add_each, find, seek};
pub use named::Named;
pub use stat::{LiveStat, StatValues};
pub use stats::Stats;
