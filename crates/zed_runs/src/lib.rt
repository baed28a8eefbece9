//! The tile runs of a board in a world file.
#![tactic(auto)]

mod error;
mod laws;
mod reading;
mod writing;

pub use error::RunsError;
pub use laws::{greedy_is_read, greedy_is_the_one, runs_are_one, tiles_are_runs};
pub use reading::read_runs;
pub use writing::{runs_len, write_runs};
