//! A playtest at a terminal: it takes keys and chance turn by turn, draws each turn, and keeps them, so that
//! it can be played again.
#![tactic(auto)]

mod atlas;
mod console;
mod devices;
mod error;
mod input;
mod laws;
mod moves;
mod overlay;
mod performing;
mod queue;
mod record;
mod report;
mod size_laws;
mod stage;
mod tape;
mod turns;
mod typing;
mod typist;

pub use atlas::Atlas;
pub use console::Console;
pub use devices::{Chance, Terminal};
pub use error::TurnError;
pub use input::{DeviceFailed, Input, Inputs, Page, Size};
pub use laws::{performances_come_again, plays_again, record_is_read_back, same_until_left};
pub use moves::{Choice, Move};
pub use overlay::{Overlay, Shown};
pub use performing::play_from;
pub use queue::Queue;
pub use record::{moves_in, put_moves, put_words, words_in};
pub use report::report_of;
pub use size_laws::{arrows_are_keys, letters_are_keys, scroll_keys_are_told, sizes_are_told};
pub use stage::staged;
pub use tape::Tape;
pub use turns::play_on;
pub use typing::{Reading, Stroke, typed};
pub use typist::{Bytes, Typist};
