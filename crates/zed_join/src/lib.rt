//! Two edit files as one: what both have, and their union; their boards and stats by name, in the
//! four worlds that these show; and what each side did since both parted.
#![tactic(auto)]

mod removers;
mod sides;
mod tally;
mod targets;
mod things;
mod work;

pub use removers::Removers;
pub use sides::{Sides, Views};
pub use tally::Tally;
pub use targets::Target;
pub use things::{BoardIn, StatIn, is_shown};
pub use work::{ShownTexts, Work};
