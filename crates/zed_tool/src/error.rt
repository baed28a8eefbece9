//! Why a command was not carried out.

use zed_files::Refusal;
use zed_plaintext::BadText;
use zed_set_words::Expected;

/// Why a command was not carried out.
#[derive(Clone, Copy)]
pub(crate) enum ToolError<'a> {
    /// A refusal of commands of `zzted` too.
    Refused(Refusal),
    /// A world file was drawn in since it was written, or no edits were found that lead to it.
    NotTaken,
    /// So many boards would go, more than half of those beside the title.
    TakesAway(usize),
    /// A wrong word, or none if words are missing; and what may be in its place.
    BadWord(Option<&'a str>, Expected),
    /// The file of a text that is no program, and the place of the fault.
    BadText(&'a str, BadText),
}
