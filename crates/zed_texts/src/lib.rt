//! The live texts of a document, by name.
#![tactic(auto)]

mod laws;
mod made;
mod texts;
mod worked;

pub use laws::{texts_are_ready, texts_show_the_replay, texts_show_their_edits};
pub use texts::LiveTexts;
