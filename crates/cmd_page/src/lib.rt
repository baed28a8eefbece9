//! The command `page` of `zztool`: a world as one HTML page, without a script or a foreign file.
#![tactic(auto)]

mod boards;
mod cells;
mod counts;
mod escaping;
mod first_lines;
mod laws;
mod paging;
mod programs;
mod whole;

pub use laws::names_and_programs_are_contained;
pub use paging::Page;
