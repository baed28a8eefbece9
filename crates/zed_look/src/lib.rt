//! Pictures of boards as ZZT 3.2 draws them, as text in colour or plain, and as SVG.
#![tactic(auto)]

mod coloured;
mod colours;
mod drawing;
mod form;
mod glyphs;
mod laws;
mod look;
mod parts;
mod plain;
mod ruled;
mod svg;
mod tiles;

pub use coloured::{put_coloured, put_coloured_row};
pub use drawing::{draw, draw_board, draw_play, draw_play_row};
pub use form::{Form, text_in};
pub use glyphs::put_glyphs;
pub use laws::{codes_only_colour, lines_are_rows, playtest_looks_like_its_board};
pub use look::{Picture, Pose, Spot};
pub use plain::put_plain;
pub use ruled::put_ruled;
pub use svg::put_svg;
