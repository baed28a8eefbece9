//! What authors read and type as plain text: characters of code page 437, numbers in decimal digits,
//! and programs as text files, a line of text for each line of the program.
#![tactic(auto)]

mod characters;
mod codepage;
mod error;
mod laws;
mod place;
mod printing;
mod reading;
mod words;

pub use characters::byte_of;
pub use codepage::glyph;
pub use error::{BadText, TextError};
pub use laws::what_is_printed_is_read;
pub use printing::text_of;
pub use reading::read_program;
pub use words::digits;
