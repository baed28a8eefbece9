//! `zzted` over any host.
#![tactic(auto)]

mod driving;
mod limit;
mod merging;
mod program;
mod writing;

pub use program::run;
pub use zed_host::{Host, MemoryHost, ReadError, WriteError};
