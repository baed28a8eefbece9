//! The commands that show a board: `show` of both programs, and `play` of `zzted`, which shows it after
//! each key.
#![tactic(auto)]

mod picturing;
mod playing;
mod showing;

pub use picturing::Show;
pub use playing::play;
pub use showing::show;
