//! What commands share: the two machines over which most run, edit files read into a document, refusals and their lines, writing.
#![tactic(auto)]

mod collect;
mod gathering;
mod line;
mod output;
mod refusal;
mod rewriting;
mod settling;
mod telling;

pub use collect::{bytes_of_file, load};
pub use gathering::deliver_all;
pub use line::Line;
pub use output::{print_out, write_out};
pub use refusal::{Refusal, bytes_told, edits_told, joined_told, line_of, plain_line};
pub use rewriting::{Action, Rewrites};
pub use settling::opened;
pub use telling::{OfFiles, Telling};
