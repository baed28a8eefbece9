//! Why a document can't be exported.
ghost use Rattle.std.specs.Prelude.{◌≡◌};
ghost use Rattle.zed_export.specs.declared.error.ExportError.TheVariants.{Memory};

use std::alloc::AllocError;
use thiserror::Error;

/// Why a document can't be exported. Its texts are for whoever debugs; the program prints none of them.
#[derive(Clone, Copy, Debug, PartialEq, Eq, Error)]
pub enum ExportError {
    #[error("out of memory")]
    Memory,
    #[error("memory ran out before: repair the document first")]
    Stale,
    #[error("no world was made yet")]
    NoWorld,
    #[error("there are {0} boards beside the title")]
    BoardsOver(usize),
    #[error("board {board} has {stats} stats beside the player")]
    StatsOver { board: usize, stats: usize },
    #[error("board {board} has {bytes} bytes")]
    BoardOver { board: usize, bytes: usize },
}

impl From<AllocError> for ExportError {
    ghost from_gives = { λ _ e. e ≡ Memory };

    fn from(_error: AllocError) -> ExportError {
        ExportError::Memory
    }
}
