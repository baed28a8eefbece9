//! The command line of `zztool`: the words that `clap` parses, and the command that they ask for.
#![tactic(auto)]

mod asked;
mod filters;
mod grammar;
mod laws;
mod listed;
mod programs;
mod release;
mod undone;
mod words;

pub use asked::{
    Command, Filter, Forcing, Form, Going, Length, Listing, Others, Strictness, Trial,
};
pub use laws::{help_words, version_words};
pub use release::version;
pub use words::{ParseError, parse};
