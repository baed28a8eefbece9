//! Which edits of a set are undone, what they leave, and edits that lead to the world of the others.
#![tactic(auto)]

mod choosing;
mod error;
mod leaving;
mod plan;
mod plan_error;
mod planning;
mod sight;
mod texts;
mod things;
mod undoing;

pub use choosing::{Choice, first_missing, marked, marks_between, marks_chosen};
pub use error::ChoiceError;
pub use leaving::{document_left, first_needed, needs};
pub use undoing::edits_to;
