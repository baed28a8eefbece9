//! Programs of objects, parsed: what is at a position.
#![tactic(auto)]

mod commands;
mod conditions;
mod heading;
mod kinds;
mod labels;
mod laws;
mod lines;
mod scroll;
mod text;

pub use commands::{Counter, OopCommand, next_command};
pub use conditions::{Query, Test, condition};
pub use heading::{Course, Heading, Turning, direction};
pub use kinds::{TileKind, kind};
pub use labels::{byte_is, first_label, is_restart, label_at, label_place};
pub use laws::{one_command, one_condition, one_direction, one_instruction};
pub use lines::{Instruction, Line, LineKind, Program, begun_at, line_text, standing_at};
pub use scroll::{ScrollLine, name_of, scroll_line};
pub use text::{is_word, is_word_at, line_after, line_end, upper, word_at};
