//! Filters of edits: which edits are about a board, about a cell, of a replica and of times. `log`
//! prints those that pass, and `undo` takes them back.
#![tactic(auto)]

mod error;
mod filter;
mod passing;
mod sought;

pub use error::FilterError;
pub use filter::{BoardChoice, Filter};
pub use passing::passes;
pub use sought::{Sought, sought_of};
