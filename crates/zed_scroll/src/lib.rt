//! Scrolls as a terminal shows them: what a program said, in a window over the board.
#![tactic(auto)]

mod frame;
mod line;
mod text;
mod window;

pub use frame::Window;
pub use text::put_scroll;
