//! The words of `zztool set`, read: a register of the world, a property of a board or a field of a
//! stat, and its value.
#![tactic(auto)]

mod bad;
mod board;
mod laws;
mod numerals;
mod place;
mod reading;
mod stat;
mod text;
mod thing;
mod wishes;
mod world;

pub use bad::{BadWord, Expected};
pub use laws::wrong_word_is_the_first;
pub use place::{board_place, first_stamp, last_stamp, stamp};
pub use reading::wish;
pub use text::Text;
pub use wishes::{BoardPlace, BoardWish, P3Wish, StatPlace, StatWish, Wish, WorldWish};
