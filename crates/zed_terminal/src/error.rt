//! Why a playtest in place doesn't go on.
ghost use Rattle.std.specs.Prelude.{◌≡◌};
ghost use Rattle.zed_terminal.specs.declared.error.TurnError.TheVariants.{Memory};

use std::alloc::AllocError;
use thiserror::Error;

/// Why a playtest in place doesn't go on.
#[derive(Clone, Copy, Debug, PartialEq, Eq, Error)]
pub enum TurnError {
    #[error("out of memory")]
    Memory,
    #[error("the source of chance has no words")]
    NoWords,
    #[error("the terminal failed")]
    ScreenFault,
    #[error("the source of keys failed")]
    KeyFault,
    #[error("the keys come to no end")]
    TooManyTurns,
}

impl From<AllocError> for TurnError {
    ghost from_gives = { λ _ error. error ≡ Memory };

    fn from(_error: AllocError) -> TurnError {
        TurnError::Memory
    }
}
