//! The command `zztool play`: it plays a board at a terminal, and keeps the playtest, so that it can be
//! played again.
#![tactic(auto)]

mod boards;
mod keeping;
mod opening;
mod program;
mod refusing;

pub use boards::perform;
pub use opening::Going;
pub use program::play;
