//! The commands `log`, `list` and `lint` of `zztool`: lines about a set of edits, about its world, and
//! about what looks wrong there.
#![tactic(auto)]

mod boards;
mod linting;
mod listing;
mod logging;
mod world;

pub use linting::{Lint, Strictness};
pub use listing::{List, Listing};
pub use logging::{Log, no_filter_leaves_an_edit_out};
pub use world::shown_world;
pub use zed_filter::{BoardChoice, Filter};
pub use zed_log::Length;
