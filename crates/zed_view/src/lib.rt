//! What a document shows, lent from its live parts.
#![tactic(auto)]

mod appending;
mod first;
mod laws;
mod numbers;
mod reading;
mod same;
mod view;

pub use appending::{append_names, append_text};
pub use first::first_boards_have_the_first_numbers;
pub use laws::parts_show_the_replay;
pub use view::View;
