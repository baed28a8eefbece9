//! What would trip up ZZT 3.2 or a player in a world, with a line for each finding. docs/LINT.md
//! says what is found, and has the forms of the lines.
#![tactic(auto)]

mod boards;
mod commands;
mod faults;
mod finding;
mod labels;
mod laws;
mod lines;
mod linting;
mod noting;
mod program;
mod reading;
mod said;
mod size;
mod stats;
mod tiles;
mod utf8;

pub use finding::{Finding, Spot, What};
pub use laws::{each_is_on_its_line, nothing_stays_untold};
pub use linting::{findings, lint};
