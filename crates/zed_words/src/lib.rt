//! The command line of `zzted`: the words that `clap` parses, and the command that they ask for.
#![tactic(auto)]

mod grammar;
mod laws;
mod profile;
mod words;

pub use laws::{
    plain_words_check, plain_words_edit, plain_words_merge, plain_words_new, plain_words_play,
    plain_words_save, plain_words_show,
};
pub use profile::Profile;
pub use words::{Command, ParseError, parse};
