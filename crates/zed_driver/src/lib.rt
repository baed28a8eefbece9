//! The driver: it reads the files that a command asks for, and carries out what the command comes
//! to.
#![tactic(auto)]

mod command;
mod driving;
mod effect;
mod input;

pub use command::{Command, Stop};
pub use driving::{carry_out, drive, read_files};
pub use effect::{Effect, Output};
pub use input::Input;
