//! Laws of the replay, for any edits in any order. Each law is the contract of a function with an
//! empty body.
#![tactic(auto)]

mod laws;
mod order;
mod registers;
mod regular;
mod settled;
mod texts;

pub use laws::{held_edits_are_remembered, made_things_stay, replay_goes_edit_by_edit};
pub use order::replay_is_ordered;
pub use registers::{
    greatest_stamp_wins_boards, greatest_stamp_wins_stats, greatest_stamp_wins_the_header,
    replay_is_whole,
};
pub use regular::replay_is_regular;
pub use settled::{
    earlier_edits_decide, edits_make_all_things, held_edits_stand_alone, things_have_own_names,
};
pub use texts::texts_keep_names;
