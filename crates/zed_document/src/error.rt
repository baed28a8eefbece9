//! Why a document refuses a call.
ghost use Rattle.std.specs.Prelude.{◌≡◌};
ghost use Rattle.zed_document.specs.Errors.{refusal_of};
ghost use Rattle.zed_document.specs.declared.error.DocumentError.TheVariants.{Memory};

use std::alloc::{AllocError, AllocFailed};
use thiserror::Error;
use zed_edit::{Cause, EditError};
use zed_types::Stamp;

/// Why a document refuses a call. Its texts are for whoever debugs; the program prints none of them.
#[derive(Clone, Copy, Debug, PartialEq, Eq, Error)]
pub enum DocumentError {
    #[error("out of memory")]
    Memory,
    #[error("the edits belong to another world")]
    OtherWorld,
    #[error("the edit breaks a rule: {0:?}")]
    BadEdit(Cause),
    #[error("another edit was made at time {} by replica {}", .0.time, .0.replica)]
    Clash(Stamp),
    #[error("memory ran out before: repair the document first")]
    Stale,
    #[error("there is no such thing")]
    NoSuch,
    #[error("the position is outside the text")]
    OutOfRange,
    #[error("the clock is spent")]
    ClockSpent,
}

impl From<EditError> for DocumentError {
    ghost from_gives = { λ error refusal. refusal ≡ refusal_of error };

    fn from(error: EditError) -> DocumentError {
        match error {
            EditError::Memory => DocumentError::Memory,
            EditError::BadEdit(cause) => DocumentError::BadEdit(cause),
        }
    }
}

impl From<AllocError> for DocumentError {
    ghost from_gives = { λ _ e. e ≡ Memory };

    fn from(_error: AllocError) -> DocumentError {
        DocumentError::Memory
    }
}

impl<T: Drop> From<AllocFailed<T>> for DocumentError {
    ghost from_gives = { λ _ e. e ≡ Memory };

    fn from(_error: AllocFailed<T>) -> DocumentError {
        DocumentError::Memory
    }
}
