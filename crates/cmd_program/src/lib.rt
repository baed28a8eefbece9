//! The command `program` of `zztool`: it prints the program of a stat, or of each, as a text, or sets
//! it to one.
#![tactic(auto)]

mod codes;
mod copies;
mod error;
mod every;
mod laws;
mod own_laws;
mod printing;
mod setting;
mod sizes;
mod stage;
mod worlds;

pub use codes::program_bytes;
pub use error::ReprogramError;
pub use every::Programs;
pub use laws::what_is_printed_sets_nothing;
pub use own_laws::own_programs_stay;
pub use printing::Program;
pub use setting::SetProgram;
pub use worlds::with_program;
