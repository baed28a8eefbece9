//! Why a drawn world can't be taken into a document.
ghost use Rattle.std.specs.Prelude.{◌≡◌};
ghost use Rattle.zed_take.specs.declared.error.TakeError.TheVariants.{Memory};
ghost use Rattle.zed_take.specs.Refusals.{of_plan};

use crate::plan_error::PlanError;
use std::alloc::{AllocError, AllocFailed};
use thiserror::Error;
use zed_export::ExportError;

/// Why a drawn world can't be taken into a document. Its texts are for whoever debugs; the program
/// prints none of them.
#[derive(Clone, Copy, Debug, PartialEq, Eq, Error)]
pub enum TakeError {
    #[error("out of memory")]
    Memory,
    /// The document that the world was saved from can't be exported.
    #[error("the base can't be exported")]
    Base(ExportError),
    /// The body of this board of the world, written again, would have more bytes than a file can spell.
    #[error("board {board} of the world has {bytes} bytes")]
    WorldOver { board: usize, bytes: usize },
    #[error("no time is left for so many edits")]
    ClockSpent,
    /// The edits that were planned don't lead to the world of the file.
    #[error("the changes can't be spelled as edits")]
    NotTaken,
}

impl From<AllocError> for TakeError {
    ghost from_gives = { λ _ e. e ≡ Memory };

    fn from(_error: AllocError) -> TakeError {
        TakeError::Memory
    }
}

impl<T: Drop> From<AllocFailed<T>> for TakeError {
    ghost from_gives = { λ _ e. e ≡ Memory };

    fn from(_error: AllocFailed<T>) -> TakeError {
        TakeError::Memory
    }
}

impl From<PlanError> for TakeError {
    ghost from_gives = { λ p e. e ≡ of_plan p };

    fn from(error: PlanError) -> TakeError {
        match error {
            PlanError::Memory => TakeError::Memory,
            PlanError::ClockSpent => TakeError::ClockSpent,
            PlanError::NotTaken => TakeError::NotTaken,
        }
    }
}
