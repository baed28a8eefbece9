//! Edit files: the spelling of an edit, a writer, and a reader for files in any pieces.
#![tactic(auto)]

mod ahead;
mod error;
mod fields;
mod known;
mod laws;
mod ops;
mod put;
mod put_op;
mod reader;
mod reading;
mod settings;
mod sizes;
mod stream;
mod writing;

pub use ahead::{stamp_ahead, world_ahead};
pub use error::EditFileError;
pub use laws::{
    fitting_edits_are_records, fitting_edits_make_a_file, fronts_are_read,
    no_record_begins_another, one_file_text, one_reading, one_spelling,
};
pub use reader::EditReader;
pub use writing::{write_edit, write_file, write_head};
