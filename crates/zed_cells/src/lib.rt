//! Registers, which keep the latest write, and the cells of a board.
#![tactic(auto)]

mod cells;
mod keep;
mod laws;

pub use cells::Cells;
pub use keep::{keep_in, keep_later};
pub use laws::{cells_hold_the_latest, order_is_forgotten};
