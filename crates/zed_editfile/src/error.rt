//! Why an edit file can't be read or written.

ghost use Rattle.std.specs.Prelude.{◌≡◌};
ghost use Rattle.zed_editfile.specs.declared.error.EditFileError.TheVariants.{Memory};
ghost use Rattle.zed_editfile.specs.Refusals.{of_edit};

use std::alloc::{AllocError, AllocFailed};
use thiserror::Error;
use zed_op::{Cause, EditError};

/// Why an edit file can't be read or written. Its texts are for whoever debugs; the program prints none of them.
#[derive(Clone, Copy, Debug, PartialEq, Eq, Error)]
pub enum EditFileError {
    /// A growth was refused.
    #[error("out of memory")]
    Memory,
    /// The first three bytes aren't `ZED`.
    #[error("not an edit file")]
    Magic,
    /// The version is neither 1 nor 2.
    #[error("an edit file of another version")]
    NewVersion,
    /// The file has another world's number than the one asked for.
    #[error("edits of another world")]
    OtherWorld,
    /// A record has fewer than 9 bytes or more than 4,194,304.
    #[error("a record has an impossible length")]
    RecordLength,
    /// A record spells no edit that fits.
    #[error("the edit breaks a rule: {0:?}")]
    BadEdit(Cause),
    /// The file ends inside its head or inside a record.
    #[error("the file is cut short")]
    CutShort,
}

impl From<AllocError> for EditFileError {
    ghost from_gives = { λ _ e. e ≡ Memory };

    fn from(_e: AllocError) -> EditFileError {
        EditFileError::Memory
    }
}

impl From<EditError> for EditFileError {
    ghost from_gives = { λ e f. f ≡ of_edit e };

    fn from(e: EditError) -> EditFileError {
        match e {
            EditError::Memory => EditFileError::Memory,
            EditError::BadEdit(cause) => EditFileError::BadEdit(cause),
        }
    }
}

impl<T: Drop> From<AllocFailed<T>> for EditFileError {
    ghost from_gives = { λ _ e. e ≡ Memory };

    fn from(_e: AllocFailed<T>) -> EditFileError {
        EditFileError::Memory
    }
}
