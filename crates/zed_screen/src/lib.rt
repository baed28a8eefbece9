//! Pictures of boards: 80 by 25 characters with attributes, or lines of text.
#![tactic(auto)]

mod drawing;
mod error;
mod frame;
mod laws;
mod panel;
mod picture;
mod text;

pub use drawing::{draw_board, draw_play};
pub use error::ScreenError;
pub use frame::{Cell, Frame};
pub use laws::playtest_shows_its_board;
pub use panel::play_cell;
pub use text::ascii;
