//! A line of text for each edit: time, replica, what it does, what it names and sets. Different
//! edits have different lines. And lines with the numbers of boards, of stats and of lines of programs,
//! whose forms are in docs/LIST.md.
#![tactic(auto)]

mod board_lines;
mod laws;
mod length;
mod list_laws;
mod program_lines;
mod put;
mod put_fields;
mod put_op;
mod settings;
mod stat_lines;
mod words;
mod writing;

pub use board_lines::boards;
pub use laws::{
    each_line_is_one, edit_is_known_by_its_line, edits_are_known_by_their_lines,
    short_line_is_no_other,
};
pub use length::Length;
pub use list_laws::{each_is_on_its_line, lines_are_the_program};
pub use program_lines::program;
pub use put::{put_element, put_integer, put_number, put_quoted, put_text};
pub use put_fields::put_place;
pub use stat_lines::{put_element_of, stats};
pub use writing::{line, marked_line, marked_line_at};
