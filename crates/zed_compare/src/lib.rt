//! What two edit files made of each other: which registers both authors changed, and what the union
//! of both shows there; and what one removed and the other worked on. Each register that is
//! overridden is found, and where none is, nothing of a register is lost.
#![tactic(auto)]

mod boards;
mod cells;
mod finding;
mod findings;
mod laws;
mod programs;
mod registers;
mod removals;
mod stats;
mod world;

pub use boards::exit_in;
pub use finding::{Finding, Whose};
pub use findings::find_all;
pub use laws::silence_is_safe;
pub use registers::{BoardRegister, StatRegister, WorldRegister};
pub use stats::{Step, Third, place_of, step_of, third_of, under_of};
