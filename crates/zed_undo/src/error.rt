//! Why no edits could be chosen.
ghost use Rattle.std.specs.Prelude.{◌≡◌};
ghost use Rattle.zed_undo.specs.declared.error.ChoiceError.TheVariants.{Memory};
ghost use Rattle.zed_undo.specs.Choosing.{unfiltered};

use std::alloc::{AllocError, AllocFailed};
use thiserror::Error;
use zed_filter::FilterError;

/// Why no edits could be chosen. Its texts are for whoever debugs; the program prints none of them.
#[derive(Clone, Copy, Debug, PartialEq, Eq, Error)]
pub enum ChoiceError {
    #[error("out of memory")]
    Memory,
    #[error("there is no such board")]
    NoBoard,
    #[error("the cell is outside the table")]
    OutOfRange,
}

impl From<AllocError> for ChoiceError {
    ghost from_gives = { λ _ e. e ≡ Memory };

    fn from(_error: AllocError) -> ChoiceError {
        ChoiceError::Memory
    }
}

impl<T: Drop> From<AllocFailed<T>> for ChoiceError {
    ghost from_gives = { λ _ e. e ≡ Memory };

    fn from(_error: AllocFailed<T>) -> ChoiceError {
        ChoiceError::Memory
    }
}

impl From<FilterError> for ChoiceError {
    ghost from_gives = { λ error e. e ≡ unfiltered error };

    fn from(error: FilterError) -> ChoiceError {
        match error {
            FilterError::NoBoard => ChoiceError::NoBoard,
            FilterError::OutOfRange => ChoiceError::OutOfRange,
        }
    }
}
