//! The commands `new` and `edit`, which write an edit file.
#![tactic(auto)]

mod editing;
mod new;

pub use editing::Edit;
pub use new::New;
