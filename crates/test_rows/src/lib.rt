//! What the test programs share: the rows that a script hands them, what they tell of these, and
//! refused growths.
#![tactic(auto)]

mod growths;
mod tape;
mod told;

pub use growths::{MOST, Turn, refuse, turn_of, was_refused};
pub use tape::Tape;
pub use told::Told;
