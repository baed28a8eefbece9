//! The kinds of edits: when one fits, what it names, and sets of edits.
#![tactic(auto)]

mod cause;
mod checking;
mod copy;
mod laws;
mod naming;
mod op;
mod same;
mod sizes;
mod thing;

pub use cause::{Cause, EditError};
pub use checking::check;
pub use laws::{
    edit_joins_a_set, fit_is_of_parts, rising_lists_are_sets, set_is_its_edits, sets_rise,
    sets_stay_fit, union_is_of_sets,
};
pub use naming::{all_named, names};
pub use op::{Edit, Op};
pub use sizes::{edit_has_sizes, edits_have_sizes};
pub use thing::Thing;
