//! The command `undo` of `zztool`: the world that everybody would have if some edits had never been
//! made, taken as edits of an author.
#![tactic(auto)]

mod declining;
mod laws;
mod manner;
mod stage;
mod telling;
mod undo;
mod undoing;

pub use laws::undoing_takes_back;
pub use manner::{Manner, Others, Source, Trial};
pub use undo::Undo;
