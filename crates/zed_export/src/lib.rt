//! The world that a document shows, as a value or a file, or the first limit that it exceeds; and the
//! world of a new edit file.
#![tactic(auto)]

mod board;
mod error;
mod exporting;
mod fresh_board;
mod fresh_world;
mod header;
mod limits;
mod numbers;
mod program;
mod replicas;
mod size;
mod warning;

pub use error::ExportError;
pub use exporting::{export, save, saved_is_read};
pub use fresh_board::new_board;
pub use fresh_world::new_world;
pub use replicas::{SideBySide, headline, merging_brings_the_same};
pub use warning::{Warning, warnings};
