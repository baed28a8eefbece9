//! A playtest of a board: what each element does in a step.
#![tactic(auto)]

mod acts;
mod bullets;
mod creatures;
mod ending;
mod entering;
mod error;
mod game;
mod key;
mod laws;
mod looking;
mod messages;
mod objects;
mod opening;
mod piece;
mod play;
mod player;
mod pushers;
mod readers;
mod scrolls;
mod ticking;
mod touching;

pub use ending::Ending;
pub use entering::Way;
pub use error::PlayError;
pub use game::Game;
pub use key::{Asked, Bounds, Intent, Key};
pub use laws::{
    later_words_do_not_matter, players_take_along_what_they_have, step_has_one_outcome,
};
pub use messages::Messages;
pub use piece::Piece;
pub use play::Play;
pub use readers::Carried;
pub use scrolls::Voice;
pub use zed_oop::{Chosen, Scroll};
