//! Why a world can't be read or written.

ghost use Rattle.std.specs.Prelude.{◌≡◌};
ghost use Rattle.zed_world.specs.declared.error.WorldError.TheVariants.{Memory};
ghost use Rattle.zed_world.specs.Refusals.{of_runs};

use std::alloc::{AllocError, AllocFailed};
use thiserror::Error;
use zed_runs::RunsError;

/// Why a world can't be read or written. Its texts are for whoever debugs; the program prints none of them.
#[derive(Clone, Copy, Debug, PartialEq, Eq, Error)]
pub enum WorldError {
    /// A growth was refused.
    #[error("out of memory")]
    Memory,
    /// The type at the front isn't that of a world file.
    #[error("not a world file")]
    NotZzt,
    /// The number of boards beside the title is negative or over 100.
    #[error("too many boards")]
    TooManyBoards,
    /// The file, or the body of a board, ends too early.
    #[error("the file ends too early")]
    Truncated,
    /// The body of a board has more than 32,767 bytes.
    #[error("a board is too large to be read")]
    BadBoardSize,
    /// The number of stats beside the player is negative or over 150.
    #[error("too many stats")]
    TooManyStats,
    /// A stat shares the program of itself or of a higher one.
    #[error("a program is shared with a later stat")]
    BadShare,
    /// The body of this board, counted from 0, would have so many bytes, more than the limit.
    #[error("board {board} has {bytes} bytes")]
    BoardOver { board: usize, bytes: usize },
}

impl From<AllocError> for WorldError {
    ghost from_gives = { λ _ e. e ≡ Memory };

    fn from(_e: AllocError) -> WorldError {
        WorldError::Memory
    }
}

impl From<RunsError> for WorldError {
    ghost from_gives = { λ r e. e ≡ of_runs r };

    fn from(e: RunsError) -> WorldError {
        match e {
            RunsError::Memory => WorldError::Memory,
            RunsError::Truncated => WorldError::Truncated,
        }
    }
}

impl<T: Drop> From<AllocFailed<T>> for WorldError {
    ghost from_gives = { λ _ e. e ≡ Memory };

    fn from(_e: AllocFailed<T>) -> WorldError {
        WorldError::Memory
    }
}
