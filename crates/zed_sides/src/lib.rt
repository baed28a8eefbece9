//! Two sets of edits of one world, what both have, and their union: what the union shows of what
//! each side set, and what it doesn't.
#![tactic(auto)]

mod laws;
mod readings;
mod side;

pub use laws::{
    common_edits_are_a_set, later_writes_hide, overridden_boards, overridden_header,
    overridden_stats, sides_show_in_the_union, union_shows_the_later,
};
pub use readings::Readings;
pub use side::{Loss, Overridden, Side};
