//! A text as runs of bytes, deleted ones too, for edits in any order.
#![tactic(auto)]

mod block;
mod blocks;
mod cut;
mod hints;
mod insertion;
mod laws;
mod place;
mod readers;
mod run;
mod same;
mod search;
mod text;

pub use laws::rising_insertions_go_directly;
pub use text::Text;
