//! The command `zztool compare`: what two edit files made of each other.
#![tactic(auto)]

mod comparing;

pub use comparing::{Compare, Strictness};
