//! Why an action is not done.
ghost use Rattle.std.specs.Prelude.{◌≡◌};
ghost use Rattle.zed_action.specs.Refusals.{memory, refusal_of};

use std::alloc::AllocError;
use thiserror::Error;
use zed_document::DocumentError;

/// Why an action isn't done. Its texts are for whoever debugs; the program prints none of them.
#[derive(Clone, Copy, Debug, PartialEq, Eq, Error)]
pub enum ActionError {
    #[error("these words are no action")]
    BadAction,
    /// A refusal of the document's calls. NoSuch and OutOfRange also come for numbers in the words.
    #[error("{0}")]
    Document(DocumentError),
}

impl From<DocumentError> for ActionError {
    ghost from_gives = { λ error refusal. refusal ≡ refusal_of error };

    fn from(error: DocumentError) -> ActionError {
        ActionError::Document(error)
    }
}

impl From<AllocError> for ActionError {
    ghost from_gives = { λ _ e. e ≡ memory };

    fn from(_error: AllocError) -> ActionError {
        ActionError::Document(DocumentError::Memory)
    }
}
