//! Why a link doesn't carry bytes or edits.
ghost use Rattle.std.specs.Prelude.{◌≡◌};
ghost use Rattle.zed_link.specs.Refusals.{file_refusal};

use thiserror::Error;
use zed_editfile::EditFileError;
use zed_op::Cause;
use zed_types::Stamp;

/// Why a link doesn't carry bytes or edits. Its texts are for whoever debugs; the program prints
/// none of them.
#[derive(Clone, Copy, Debug, PartialEq, Eq, Error)]
pub enum LinkError {
    #[error("out of memory")]
    Memory,
    #[error("not an edit file")]
    Magic,
    #[error("an edit file of another version")]
    NewVersion,
    #[error("edits of another world")]
    OtherWorld,
    #[error("a record has an impossible length")]
    RecordLength,
    #[error("the edit breaks a rule: {0:?}")]
    BadEdit(Cause),
    #[error("the edit file ends inside its head or a record")]
    CutShort,
    #[error("another edit was made at time {} by replica {}", .0.time, .0.replica)]
    Clash(Stamp),
    #[error("memory ran out before: repair the document first")]
    Stale,
    #[error("the link failed")]
    LinkFault,
    #[error("too many reads of a link")]
    TooManyTurns,
}

impl From<EditFileError> for LinkError {
    ghost from_gives = { λ error refusal. refusal ≡ file_refusal error };

    fn from(error: EditFileError) -> LinkError {
        match error {
            EditFileError::Memory => LinkError::Memory,
            EditFileError::Magic => LinkError::Magic,
            EditFileError::NewVersion => LinkError::NewVersion,
            EditFileError::OtherWorld => LinkError::OtherWorld,
            EditFileError::RecordLength => LinkError::RecordLength,
            EditFileError::BadEdit(cause) => LinkError::BadEdit(cause),
            EditFileError::CutShort => LinkError::CutShort,
        }
    }
}
