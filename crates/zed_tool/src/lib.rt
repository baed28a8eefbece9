//! `zztool` over any host.
#![tactic(auto)]

mod answers;
mod asked;
mod driving;
mod error;
mod lines;
mod program;

pub use program::run;
pub use zed_host::{Host, MemoryHost, ReadError, WriteError};
