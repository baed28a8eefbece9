//! Why a stat of a world can't have a program.
ghost use Rattle.std.specs.Prelude.{◌≡◌};
ghost use Rattle.cmd_program.specs.declared.error.ReprogramError.TheVariants.{Memory};

use std::alloc::{AllocError, AllocFailed};
use thiserror::Error;

/// Why a stat of a world can't have a program. Its texts are for whoever debugs; the program prints
/// none of them.
#[derive(Clone, Copy, Debug, PartialEq, Eq, Error)]
pub enum ReprogramError {
    #[error("out of memory")]
    Memory,
    #[error("there is no such board")]
    NoBoard,
    #[error("the board has no such stat")]
    NoSuch,
    /// With this program the board, written again, would have so many bytes, more than a file can
    /// spell.
    #[error("board {board} would have {bytes} bytes")]
    BoardOver { board: usize, bytes: usize },
}

impl From<AllocError> for ReprogramError {
    ghost from_gives = { λ _ e. e ≡ Memory };

    fn from(_error: AllocError) -> ReprogramError {
        ReprogramError::Memory
    }
}

impl<T: Drop> From<AllocFailed<T>> for ReprogramError {
    ghost from_gives = { λ _ e. e ≡ Memory };

    fn from(_error: AllocFailed<T>) -> ReprogramError {
        ReprogramError::Memory
    }
}
