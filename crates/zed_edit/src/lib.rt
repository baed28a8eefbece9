//! What edits do: one author who makes them, and the replay of a set.
#![tactic(auto)]

mod author;
mod board;
mod cells;
mod genesis;
mod has;
mod header;
mod made;
mod numbers;
mod opened;
mod plain;
mod property;
mod shown;
mod stat;
mod text;

pub use author::{made_by, replay, step};
pub use cells::new_table;
pub use has::{has_board, has_element, has_stat, has_text, has_thing};
pub use made::can;
pub use numbers::{Standing, numbers_are_places};
pub use plain::{Board, Header, Plain, Properties, Stat, Text};
pub use zed_op::{
    Cause, Edit, EditError, Op, Thing, check, edit_has_sizes, edit_joins_a_set, edits_have_sizes,
    fit_is_of_parts, names, rising_lists_are_sets, set_is_its_edits, sets_rise, sets_stay_fit,
    union_is_of_sets,
};
