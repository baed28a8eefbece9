//! Edits that lead from a document to a drawn world.
#![tactic(auto)]

mod aligning;
mod boards;
mod cells;
mod changes;
mod checking;
mod claims;
mod delivering;
mod error;
mod features;
mod fresh;
mod header;
mod laws;
mod lines;
mod origins;
mod pairing;
mod plan;
mod plan_error;
mod planning;
mod programs;
mod properties;
mod ranks;
mod sight;
mod stats;
mod table;
mod taking;
mod texts;

pub use delivering::deliver;
pub use error::TakeError;
pub use laws::{
    nothing_is_taken_unchanged, taking_again_takes_nothing, unwritten_boards_stay,
    unwritten_header_stays, unwritten_stats_stay,
};
pub use taking::take;
