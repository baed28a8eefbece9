//! The commands `save` and `check`: the world file of edit files, and a report on it.
#![tactic(auto)]

mod report;
mod saving;

pub use saving::{Check, Save};
