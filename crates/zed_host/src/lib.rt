//! The host of a program: files by name and the standard streams, handed in.
#![tactic(auto)]

mod host;
mod logged;
mod memory;

pub use host::{Host, ReadError, WriteError};
pub use logged::{Asked, CallLog, Logged, Made, calls_are_logged};
pub use memory::MemoryHost;
