//! The live header and boards of a document: registers, each with its latest write.
#![tactic(auto)]

mod board;
mod boards;
mod document;
mod header;
mod index;
mod laws;
mod properties;
mod reading;
mod stats;

pub use board::LiveBoard;
pub use boards::LiveBoards;
pub use document::LiveDocument;
pub use header::LiveHeader;
pub use laws::{document_shows_its_edits, document_shows_the_replay};
pub use properties::LiveProperties;
