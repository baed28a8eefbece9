//! A board in play, and what is done on it: stats are moved, pushed, shot and removed.
#![tactic(auto)]

mod copying;
mod counters;
mod elements;
mod error;
mod flags;
mod laws;
mod moving;
mod positions;
mod programs;
mod removing;
mod scene;
mod scroll;
mod seeking;
mod shooting;
mod stat;
mod step;
mod trying;
mod words;

pub use counters::Counters;
pub use elements::{BREAKABLE, BULLET, PLAYER, WATER};
pub use error::SceneError;
pub use flags::has_flag;
pub use laws::{others_are_followed, reach_suffices};
pub use moving::{is_destructible, is_walkable};
pub use scene::{Scene, tile_in};
pub use scroll::Scroll;
pub use seeking::{random_step, up_or_down};
pub use shooting::Shooter;
pub use stat::Stat;
pub use step::{Step, ahead, apart, clockwise, counter_clockwise, is_on_board, opposite, sign};
pub use words::Words;
