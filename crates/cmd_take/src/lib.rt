//! The commands for authors who draw in another editor: `open` writes a world file, and `take`
//! turns what was drawn into edits. The parts of `take` also serve other commands that change an
//! edit file by taking a world.
#![tactic(auto)]

mod base;
mod changes;
mod note;
mod open;
mod opening;
mod reading;
mod reason;
mod stages;
mod take;
mod taking;
mod telling;

pub use open::Open;
pub use opening::Forcing;
pub use reading::opened_file;
pub use reason::{DrawingReason, drawing_stop};
pub use take::Take;
pub use taking::draw_alone;
