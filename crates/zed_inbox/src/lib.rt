//! Edits that wait for what they name.
#![tactic(auto)]

mod inbox;
mod index;
mod keeping;

pub use inbox::Inbox;
