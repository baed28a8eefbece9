//! The actions of `zzted edit`: what their words mean, and what they do to a document.
#![tactic(auto)]

mod acting;
mod action;
mod deed;
mod error;
mod fields;
mod number;
mod parsing;

pub use acting::act;
pub use action::Action;
pub use error::ActionError;
pub use parsing::parse;
