//! The body of a document: its live parts and the edits that wait.
#![tactic(auto)]

mod body;
mod laws;
mod made;
mod settle;
mod take;
mod take_all;
mod things;
mod wake;

pub use body::Body;
pub use laws::{
    bodies_begin_and_end, bodies_have_what_is_made, calm_edits_hold_the_same, cascades_settle,
    empty_bodies_show_none, rising_edits_are_apart,
};
pub use take::Taken;
