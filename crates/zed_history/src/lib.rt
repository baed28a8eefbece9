//! A replica's edits in stamp order, though they come in any order. Late ones are kept in runs
//! until the history is closed. The search for a place begins where the last one was found.
#![tactic(auto)]

mod clock;
mod history;
mod moving;
mod place;
mod run;
mod two_logs;

pub use clock::{is_spent, next_stamp, next_time};
pub use history::History;
pub use place::spot_of;
pub use two_logs::least_clash;
